ghost use Rattle.std.specs.Prelude.{◌≡◌, ◌<◌, ◌≤◌, length};
ghost use Rattle.bsp_mail.specs.Mails.{IsFresh};
ghost use Rattle.bsp_mail.specs.Seats.{IsOpenOn};
ghost use Rattle.bsp_threads.specs.declared.seat.Standing.TheVariants.{Going};
ghost use Rattle.bsp_threads.specs.Seats.{IsReady};

use bsp_core::{Phased, Want};
use bsp_example::{Voter, voter_list};
use bsp_mail::{Mail, MailSeat, Queues};
use bsp_threads::*;
use chaos_letter::{Kind, Letter};
use fd_outside::{Gate, OpenGate};
use fd_words::{Memory, Numbers};
use std::alloc::Global;
use std::sync::Wait;
use std::sync::atomic::{AtomicU64, Ordering};
use std::test::Fail;
use std::thread::Threads;
use std::{mem, thread};

// Whether all nodes are done and know this flag.
fn all_know(nodes: &[Voter], flag: bool) -> bool {
    for node in nodes {
        if node.next() != Want::Done || node.flag() != flag {
            return false;
        }
    }
    true
}

// Whether nodes with these flags, driven by threads past a gate, all come to know whether one is set.
fn know_in_the_end<R: Threads + Wait + Sync, G: Gate>(
    rt: &R,
    alloc: Global,
    flags: &[bool],
    known: bool,
    gate: &G,
) -> Result<bool, Memory>
    requires some { 0 < length flags.now }
    requires few { length flags.now ≤ 16 }
{
    let mut nodes = voter_list(alloc, flags)?;
    let mut mail = Mail::new(alloc)?;
    drive_all(rt, alloc, &mut nodes, &mut mail, gate)?;
    Ok(nodes.len() == flags.len() as u64 && all_know(nodes.as_slice(), known))
}

#[test]
fn voters_by_threads(rt: HostRuntime) -> Result<(), Fail> {
    let none = [false; 16];
    let last = [
        false, false, false, false, false, false, false, false, false, false, false, false, false,
        false, false, true,
    ];
    for count in [1, 2, 3, 5, 8, 16] {
        assert!(rt; know_in_the_end(&rt, rt.alloc(), &none[..count], false, &OpenGate)?);
        assert!(rt; know_in_the_end(&rt, rt.alloc(), &last[16 - count..], true, &OpenGate)?);
    }
    Ok(())
}

// Holds node 1 and node 2 for each other: the first that passes waits until the other has, for a while.
#[derive(Drop)]
struct Meeting {
    first: AtomicU64,
    second: AtomicU64,
    out_of_order: AtomicU64,
    met: AtomicU64,
}

impl Meeting {
    fn new() -> Meeting {
        Meeting {
            first: AtomicU64::new(0),
            second: AtomicU64::new(0),
            out_of_order: AtomicU64::new(0),
            met: AtomicU64::new(0),
        }
    }

    // Counts a pass, and waits for the other's. On one thread the other can't come.
    fn hold(&self, mine: &AtomicU64, other: &AtomicU64, phase: u64) {
        if mine.fetch_add(1, Ordering::SeqCst) != phase {
            self.out_of_order.fetch_add(1, Ordering::SeqCst);
        }
        if other.load(Ordering::SeqCst) > phase {
            return;
        }
        for _ in 0..500 {
            thread::yield_now();
            if other.load(Ordering::SeqCst) > phase {
                self.met.fetch_add(1, Ordering::SeqCst);
                return;
            }
        }
    }
}

impl Gate for Meeting {
    fn pass(&self, node: u32, phase: u64) {
        if node == 1 {
            self.hold(&self.first, &self.second, phase);
        }
        if node == 2 {
            self.hold(&self.second, &self.first, phase);
        }
    }
}

#[test]
fn two_nodes_work_at_once(rt: HostRuntime) -> Result<(), Fail> {
    let flags = [true, false, false];
    for _ in 0..100 {
        let gate = Meeting::new();
        assert!(rt; know_in_the_end(&rt, rt.alloc(), flags.as_slice(), true, &gate)?);
        assert_eq!(rt; gate.first.load(Ordering::SeqCst), 3);
        assert_eq!(rt; gate.second.load(Ordering::SeqCst), 3);
        assert_eq!(rt; gate.out_of_order.load(Ordering::SeqCst), 0);
        if gate.met.load(Ordering::SeqCst) > 0 {
            return Ok(());
        }
    }
    assert!(rt; false, "nodes 1 and 2 never met");
    Ok(())
}

// The first two seats of a Mail.
fn two_seats(alloc: Global, mail: &mut Mail) -> (MailSeat, MailSeat)
    requires { IsFresh mail.old.queues mail.old.seats.items }
    ensures queues { mail.new.queues ≡ mail.old.queues }
    ensures first { (result.0.me ≡ 0) × IsOpenOn mail.old.queues result.0 }
    ensures second { (result.1.me ≡ 1) × IsOpenOn mail.old.queues result.1 }
{
    let first = mem::replace(&mut mail.seats[0], MailSeat::away(alloc));
    let second = mem::replace(&mut mail.seats[1], MailSeat::away(alloc));
    (first, second)
}

// How a drive of node 0 alone, of two, ends: whether it waits, and how many letters it sent.
fn drive_alone<R: Wait>(
    rt: &R,
    queues: &Queues,
    seat: &mut DriveSeat<Voter>,
    other: &mut MailSeat,
) -> (bool, u32)
    requires seat { IsReady (λ v. v) queues.now seat.old × (seat.old.standing ≡ Going) × (seat.old.mail.me ≡ 0) }
    requires other { IsOpenOn queues.now other.old × (other.old.me ≡ 1) }
    ensures seat { IsReady (λ v. v) queues.now seat.new × (seat.new.mail.me ≡ 0) }
    ensures other { IsOpenOn queues.now other.new × (other.new.me ≡ 1) }
{
    let waits = matches!(drive(rt, seat, queues, &OpenGate), Ok(Drove::Waiting));
    for sent in 0..3u32 {
        if other.take_from(rt, queues, 0).is_none() {
            return (waits, sent);
        }
    }
    (waits, 3)
}

#[test]
fn a_lone_node_waits(rt: HostRuntime) -> Result<(), Fail> {
    let mut mail = Mail::new(rt.alloc())?;
    let (first, mut second) = two_seats(rt.alloc(), &mut mail);
    let mut seat = DriveSeat::new(Voter::start(rt.alloc(), 0, 2, true)?, first);
    assert_eq!(rt;
        drive_alone(&rt, &mail.queues, &mut seat, &mut second),
        (true, 1)
    );
    assert!(rt; seat.mail.take_from(&rt, &mail.queues, 1).is_none());
    Ok(())
}

#[test]
fn a_stray_letter_stops(rt: HostRuntime) -> Result<(), Fail> {
    let mut mail = Mail::new(rt.alloc())?;
    let (first, mut second) = two_seats(rt.alloc(), &mut mail);
    let mut seat = DriveSeat::new(Voter::start(rt.alloc(), 0, 2, true)?, first);
    let letter = Letter::new(Kind::Vote, 3, 0, Numbers::new(rt.alloc()));
    assert!(rt; second.put(&rt, &mail.queues, 0, letter).is_ok());
    match drive(&rt, &mut seat, &mail.queues, &OpenGate) {
        Err(DriveFault::Stray { wanted, got }) => {
            assert_eq!(rt; wanted.kind, Kind::Gather);
            assert_eq!(rt; got.kind(), Kind::Vote);
        }
        _ => assert!(rt; false),
    }
    assert_eq!(rt; seat.standing, Standing::Strayed);
    Ok(())
}
