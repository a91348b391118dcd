//! The drive of one seat.
ghost use Rattle.std.specs.Prelude.{◌≡◌, ◌≢◌};
ghost use Rattle.bsp_core.specs.Views.{WorksFor};
ghost use Rattle.bsp_threads.specs.declared.seat.Standing.TheVariants.{Strayed, OutOfMemory};
ghost use Rattle.bsp_threads.specs.Seats.{IsReady, HasDone};
ghost use Rattle.bsp_threads.specs.Drives.{standing_after, Answers, OnWaiting, HasWaited};

use crate::step::Step;
use crate::{DriveFault, DriveSeat, Drove, Standing};
use bsp_core::Phased;
use bsp_mail::Queues;
use fd_outside::Gate;
use std::sync::Wait;
use std::thread;

/// So many polls in a row of the wanted line are empty before a drive leaves off.
const LIMIT: u32 = 65_536;

/// Moves the node step by step until it is done, or waits, or meets a fault.
fn move_on<N: Phased>(
    rt: &impl Wait,
    seat: &mut DriveSeat<N>,
    queues: &Queues,
    gate: &impl Gate,
) -> Result<Drove, DriveFault>
    requires ready { IsReady N.view queues.now seat.old }
    ensures ready { IsReady N.view queues.now seat.new }
    ensures done { HasDone N.view (WorksFor N.IsPlan N.count N.rows N.holds) seat.old (Answers result (N.view seat.new.node)) seat.new }
    ensures waited { OnWaiting result (HasWaited N.view seat.old seat.new 65536) }
{
    let mut polls = 0u32;
    for _ in rt.forever() {
        match seat.step(rt, queues, gate) {
            Ok(Step::AtEnd) => return Ok(Drove::Finished),
            Ok(Step::Moved) => polls = 0,
            Ok(Step::Empty) => {
                polls += 1;
                if polls == LIMIT {
                    return Ok(Drove::Waiting);
                }
                // The letter may have to come from a node that shares this processor.
                thread::yield_now();
            }
            Err(fault) => return Err(fault),
        }
    }
    unreachable!()
}

/// Moves the node until it is done (`Finished`), or until 65,536 polls in a row of the line that it
/// wants a letter of were empty (`Waiting`). Before each work it passes the gate, with its number and
/// its works so far. Between two empty polls it lets other threads run. A fault stops the seat: `Stray`
/// where a letter that was taken doesn't fit, or want of memory.
///
/// Whatever the answer, the node did only what was due, and its mail seat put and took the letters of
/// that; after `Memory` the last letter that the node posted may not have been put, and after `Stray`
/// the last letter that the mail seat took was handed back by the node.
pub fn drive<R: Wait, N: Phased, G: Gate>(
    rt: &R,
    seat: &mut DriveSeat<N>,
    queues: &Queues,
    gate: &G,
) -> Result<Drove, DriveFault>
    requires ready { IsReady N.view queues.now seat.old }
    requires going { (seat.old.standing ≢ Strayed) × (seat.old.standing ≢ OutOfMemory) }
    ensures ready { IsReady N.view queues.now seat.new }
    ensures done { HasDone N.view (WorksFor N.IsPlan N.count N.rows N.holds) seat.old (Answers result (N.view seat.new.node)) seat.new }
    ensures waited { OnWaiting result (HasWaited N.view seat.old seat.new 65536) }
    ensures standing { seat.new.standing ≡ standing_after result }
{
    let answer = move_on(rt, seat, queues, gate);
    seat.standing = Standing::after(&answer);
    answer
}
