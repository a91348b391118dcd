//! Nodes and mail seats go into the list of seats, and back to their places.
ghost use Rattle.std.specs.Prelude.{◌≡◌, ◌≤◌, [], vec_len, vec_capacity};
ghost use Rattle.bsp_threads.specs.Alls.{AreSeated, AreBack, SameFrom};

use crate::DriveSeat;
use bsp_mail::MailSeat;
use std::alloc::Global;
use std::mem;

/// Seats each node with the mail seat of its place, which takes no memory.
pub fn seat_all<N: Drop>(
    alloc: Global,
    nodes: Vec<N>,
    mails: &mut Vec<MailSeat>,
    seats: &mut Vec<DriveSeat<N>>,
)
    requires room { (seats.old.items ≡ []) × (vec_len nodes ≤ vec_capacity seats.old) }
    requires enough { vec_len nodes ≤ vec_len mails.old }
    ensures seated { AreSeated nodes.items mails.old.items seats.new.items }
    ensures rest { SameFrom (vec_len nodes) mails.old.items mails.new.items }
{
    for node in nodes {
        let at = seats.len();
        prove!(at < mails.len());
        let mail = mem::replace(&mut mails[at], MailSeat::away(alloc));
        seats.push_reserved(DriveSeat::new(node, mail));
    }
}

/// Puts each node and each mail seat back in its place, which takes no memory.
pub fn put_all_back<N: Drop>(
    seats: Vec<DriveSeat<N>>,
    mails: &mut Vec<MailSeat>,
    nodes: &mut Vec<N>,
)
    requires room { (nodes.old.items ≡ []) × (vec_len seats ≤ vec_capacity nodes.old) }
    requires enough { vec_len seats ≤ vec_len mails.old }
    ensures back { AreBack seats.items nodes.new.items mails.new.items }
    ensures rest { SameFrom (vec_len seats) mails.old.items mails.new.items }
{
    for seat in seats {
        let (node, mail) = seat.into_parts();
        let at = nodes.len();
        prove!(at < mails.len());
        mails[at] = mail;
        nodes.push_reserved(node);
    }
}
