ghost use Rattle.std.specs.Prelude.{◌<◌, All, length};
ghost use Rattle.bsp_mail.specs.Seats.{IsOpenOn};

use bsp_mail::*;
use chaos_letter::{Kind, Letter};
use fd_words::{Memory, Numbers};
use std::alloc::Global;
use std::sync::Wait;
use std::test::Fail;
use std::thread;
use std::thread::{Threads, join_mut};

// Letters for each pair of the test.
const COUNT: u64 = 2500;

// Sends so many letters, numbered from 0, to each of the seats 1 to 4.
fn send_all<R: Wait>(
    rt: &R,
    alloc: Global,
    queues: &Queues,
    seat: &mut MailSeat,
) -> Result<(), Memory>
    requires { IsOpenOn queues.now seat.old }
    ensures { IsOpenOn queues.now seat.new }
{
    for n in 0..COUNT * 4 {
        let to = 1 + (n % 4) as u32;
        let letter = Letter::new(Kind::Print, n / 4, to, Numbers::new(alloc));
        if seat.me == to || seat.put(rt, queues, to, letter).is_err() {
            return Err(Memory);
        }
    }
    Ok(())
}

// Takes so many letters from seat 0; whether they came in order.
fn take_in_order<R: Wait>(rt: &R, queues: &Queues, seat: &mut MailSeat) -> bool
    requires { IsOpenOn queues.now seat.old }
    ensures { IsOpenOn queues.now seat.new }
{
    let mut next = 0;
    for _ in rt.forever() {
        if next >= COUNT || seat.me == 0 {
            return next >= COUNT;
        }
        match seat.take_from(rt, queues, 0) {
            Some(letter) if letter.execution() == next && letter.site() == seat.me => next += 1,
            Some(_) => return false,
            None => thread::yield_now(),
        }
    }
    unreachable!()
}

// Whether a seat that letters go to gets all of them in order.
fn gets_all<R: Wait>(rt: &R, queues: &Queues, seat: &mut MailSeat) -> bool
    requires { IsOpenOn queues.now seat.old }
    ensures { IsOpenOn queues.now seat.new }
{
    seat.me > 4 || take_in_order(rt, queues, seat)
}

// Whether each of the seats gets all its letters in order.
fn get_all<R: Wait>(rt: &R, queues: &Queues, seats: &mut [MailSeat]) -> bool
    requires { All (IsOpenOn queues.now) seats.old }
{
    for seat in seats.iter_mut() {
        if !gets_all(rt, queues, seat) {
            return false;
        }
    }
    true
}

// Ten thousand letters over four pairs, sent by one thread and taken by another.
fn pass_letters<R: Threads + Wait + Sync>(
    rt: &R,
    alloc: Global,
    queues: &Queues,
    seats: &mut [MailSeat],
) -> (bool, bool)
    requires { All (IsOpenOn queues.now) seats.old }
{
    if seats.len() < 5 {
        return (false, false);
    }
    let (front, back) = seats.split_at_mut(1);
    join_mut(
        rt,
        &mut || -> bool
            requires { (0 < length front.now) × All (IsOpenOn queues.now) front.now }
        { send_all(rt, alloc, queues, &mut front[0]).is_ok() },
        &mut || -> bool
            requires { All (IsOpenOn queues.now) back.now }
        { get_all(rt, queues, back) },
    )
}

#[test]
fn letters_keep_their_order(rt: HostRuntime) -> Result<(), Fail> {
    let mut mail = Mail::new(rt.alloc())?;
    let passed = pass_letters(&rt, rt.alloc(), &mail.queues, mail.seats.as_mut_slice());
    assert_eq!(rt; passed, (true, true));
    Ok(())
}

// Whether one poll of the line from a seat finds nothing.
fn has_nothing<R: Wait>(rt: &R, queues: &Queues, seat: &mut MailSeat, from: u32) -> bool
    requires { IsOpenOn queues.now seat.old × (from < 16) }
    ensures { IsOpenOn queues.now seat.new }
{
    from == seat.me || seat.take_from(rt, queues, from).is_none()
}

// How many of the lines to this seat hold no letter.
fn count_empty<R: Wait>(rt: &R, queues: &Queues, seat: &mut MailSeat) -> u32
    requires { IsOpenOn queues.now seat.old }
{
    for from in 0..16u32 {
        if !has_nothing(rt, queues, seat, from) {
            return from;
        }
    }
    16
}

#[test]
fn a_fresh_seat_has_no_letter(rt: HostRuntime) -> Result<(), Fail> {
    let mut mail = Mail::new(rt.alloc())?;
    assert_eq!(rt; count_empty(&rt, &mail.queues, &mut mail.seats[0]), 16);
    let mut settled = Mail::new(rt.alloc())?;
    settled.settle(&rt);
    Ok(())
}
