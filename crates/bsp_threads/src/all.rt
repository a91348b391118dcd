//! The drive of all nodes.
ghost use Rattle.std.specs.Prelude.{◌≡◌, ◌≢◌, ◌≤◌, [], length, vec_len, vec_capacity, OnOk};
ghost use Rattle.bsp_core.specs.Views.{WorksFor};
ghost use Rattle.bsp_core.specs.Turns.{AreTogether, AreDone};
ghost use Rattle.bsp_mail.specs.Mails.{IsWhole, IsFresh, ArePrefixes};
ghost use Rattle.bsp_threads.specs.declared.seat.Standing.TheVariants.{Going, Finished, Strayed};
ghost use Rattle.bsp_threads.specs.Alls.{AreNumbered, WillHaveRun, AllFollow, AreEmptyFrom, AreWithinPlan, AreAtPlansEnd};

use crate::law::{run_law, start_law};
use crate::places::{put_all_back, seat_all};
use crate::standing::rounds;
use crate::{DriveSeat, Standing};
use bsp_core::{NodeList, Phased};
use bsp_mail::Mail;
use fd_outside::Gate;
use fd_words::Memory;
use std::alloc::Global;
use std::mem;
use std::sync::Wait;
use std::thread::Threads;

/// Drives nodes on seats of a fresh Mail; there is room for all of them. Once that Mail is settled, they have run.
fn drive_seats<R: Threads + Wait + Sync, N: Phased + Send, G: Gate>(
    rt: &R,
    alloc: Global,
    nodes: Vec<N>,
    mail: &mut Mail,
    gate: &G,
    seats: Vec<DriveSeat<N>>,
    back: &mut Vec<N>,
) -> Standing
    requires numbered { AreNumbered N.view nodes.items }
    requires fresh { IsFresh mail.old.queues mail.old.seats.items }
    requires room { (seats.items ≡ []) × (vec_len nodes ≤ vec_capacity seats) }
    requires room_back { (back.old.items ≡ []) × (vec_len nodes ≤ vec_capacity back.old) }
    ensures queues { mail.new.queues ≡ mail.old.queues }
    ensures whole { IsWhole mail.new.queues mail.new.seats.items }
    ensures run { WillHaveRun N.view (WorksFor N.IsPlan N.count N.rows N.holds) nodes.items back.new.items mail.new.seats.items result }
    ensures going { result ≢ Going }
{
    let mut seats = seats;
    seat_all(alloc, nodes, &mut mail.seats, &mut seats);
    let standing = rounds(rt, &mail.queues, gate, seats.as_mut_slice());
    put_all_back(seats, &mut mail.seats, back);
    standing
}

/// Drives all nodes and settles the Mail; there is room for all of them.
fn drive_nodes<R: Threads + Wait + Sync, N: Phased + Send, G: Gate>(
    rt: &R,
    alloc: Global,
    nodes: &mut NodeList<N>,
    mail: &mut Mail,
    gate: &G,
    seats: Vec<DriveSeat<N>>,
    back: Vec<N>,
) -> Standing
    requires together { AreTogether N.view N.IsPlan N.count N.rows N.holds nodes.old }
    requires fresh { IsFresh mail.old.queues mail.old.seats.items }
    requires room { (seats.items ≡ []) × (length nodes.old ≤ vec_capacity seats) }
    requires room_back { (back.items ≡ []) × (length nodes.old ≤ vec_capacity back) }
    ensures queues { mail.new.queues ≡ mail.old.queues }
    ensures follow { AllFollow N.view (WorksFor N.IsPlan N.count N.rows N.holds) nodes.old nodes.new }
    ensures empty { AreEmptyFrom (length nodes.old) mail.new.seats.items }
    ensures prefixes { ArePrefixes mail.new.seats.items }
    ensures straight { result ≢ Strayed }
    ensures going { result ≢ Going }
    ensures within { AreWithinPlan N.view N.IsPlan N.count N.rows N.holds nodes.old mail.new.seats.items }
    ensures done { result ≡ Finished → AreDone N.view nodes.new }
    ensures ended { result ≡ Finished →
        AreAtPlansEnd N.view N.IsPlan N.count N.rows N.holds nodes.old nodes.new mail.new.seats.items }
{
    start_law::<N>();
    let mut back = back;
    let all = mem::replace(nodes, NodeList::new(alloc)).into_vec();
    let standing = drive_seats(rt, alloc, all, mail, gate, seats, &mut back);
    mail.settle(rt);
    *nodes = NodeList::from_vec(back);
    run_law::<N>();
    standing
}

/// Drives all nodes at once, each with its seat of the Mail, in rounds until all are done or memory is
/// wanting. Then the Mail is settled.
///
/// After Ok the nodes are at the end of whatever plan they began, and the lists of each pair are the
/// plan's. After want of memory each sent list is a prefix of the plan's. Whatever the answer, each
/// node did only what was due, each taken list is a prefix of its sent list, and a pair with a seat
/// that has no node is empty. No letter strays. The room for the seats is made first; a call that ends
/// there has changed neither nodes nor Mail.
pub fn drive_all<R: Threads + Wait + Sync, N: Phased + Send, G: Gate>(
    rt: &R,
    alloc: Global,
    nodes: &mut NodeList<N>,
    mail: &mut Mail,
    gate: &G,
) -> Result<(), Memory>
    requires together { AreTogether N.view N.IsPlan N.count N.rows N.holds nodes.old }
    requires fresh { IsFresh mail.old.queues mail.old.seats.items }
    ensures queues { mail.new.queues ≡ mail.old.queues }
    ensures follow { AllFollow N.view (WorksFor N.IsPlan N.count N.rows N.holds) nodes.old nodes.new }
    ensures prefixes { ArePrefixes mail.new.seats.items }
    ensures empty { AreEmptyFrom (length nodes.old) mail.new.seats.items }
    ensures within { AreWithinPlan N.view N.IsPlan N.count N.rows N.holds nodes.old mail.new.seats.items }
    ensures done { OnOk result (AreDone N.view nodes.new) }
    ensures ended { OnOk result (AreAtPlansEnd N.view N.IsPlan N.count N.rows N.holds nodes.old nodes.new mail.new.seats.items) }
{
    start_law::<N>();
    let count = nodes.len() as usize;
    let seats = Vec::with_capacity(alloc, count)?;
    let back = Vec::with_capacity(alloc, count)?;
    match drive_nodes(rt, alloc, nodes, mail, gate, seats, back) {
        Standing::Finished => Ok(()),
        Standing::OutOfMemory => Err(Memory),
        Standing::Strayed => unreachable!(),
        Standing::Going => unreachable!(),
    }
}
