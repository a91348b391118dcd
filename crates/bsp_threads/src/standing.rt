//! Rounds over all seats, until they end.
ghost use Rattle.std.specs.Prelude.{◌≡◌, ◌≢◌, ◌⊎◌};
ghost use Rattle.std.specs.List.{All, AllZip};
ghost use Rattle.bsp_core.specs.Views.{WorksFor};
ghost use Rattle.bsp_threads.specs.declared.seat.Standing.TheVariants.{Going, Finished, OutOfMemory, Strayed};
ghost use Rattle.bsp_threads.specs.Seats.{IsReady};
ghost use Rattle.bsp_threads.specs.Rounds.{HasGone, HasFinished, HasMemory, HasNotStrayed, SomeGoing, SomeStrayed};

use crate::round::round;
use crate::{DriveSeat, Standing};
use bsp_core::Phased;
use bsp_mail::Queues;
use fd_outside::Gate;
use std::sync::Wait;
use std::thread::Threads;

/// How seats stand together with one more; none has strayed.
fn joined(all: Standing, one: Standing) -> Standing
    requires straight { (all ≢ Strayed) × (one ≢ Strayed) }
    ensures straight { result ≢ Strayed }
    ensures finished { result ≡ Finished → (all ≡ Finished) × (one ≡ Finished) }
    ensures memory { result ≢ OutOfMemory → (all ≢ OutOfMemory) × (one ≢ OutOfMemory) }
    ensures going { result ≡ Going → (all ≡ Going) ⊎ (one ≡ Going) }
{
    match (all, one) {
        (all, Standing::Finished) => all,
        (Standing::OutOfMemory, _) => Standing::OutOfMemory,
        (_, one) => one,
    }
}

/// How all seats stand: `Strayed` where one has, `Finished` only where all are, and `Going` only where one is
/// and no node wants memory: else the rounds would never end.
fn stand_together<N>(seats: &[DriveSeat<N>]) -> Standing
    ensures finished { result ≡ Finished → All HasFinished seats.now }
    ensures strayed { result ≡ Strayed → SomeStrayed seats.now }
    ensures others { result ≢ Strayed → All HasNotStrayed seats.now }
    ensures memory { result ≢ Strayed → result ≢ OutOfMemory → All HasMemory seats.now }
    ensures going { result ≡ Going → SomeGoing seats.now }
{
    let mut all = Standing::Finished;
    for seat in seats {
        if seat.standing == Standing::Strayed {
            return Standing::Strayed;
        }
        all = joined(all, seat.standing);
    }
    all
}

/// Rounds, until all seats are finished or one is stopped.
pub fn rounds<R: Threads + Wait + Sync, N: Phased + Send, G: Gate>(
    rt: &R,
    queues: &Queues,
    gate: &G,
    seats: &mut [DriveSeat<N>],
) -> Standing
    requires ready { All (IsReady N.view queues.now) seats.old }
    ensures gone { AllZip (HasGone N.view (WorksFor N.IsPlan N.count N.rows N.holds) queues.now) seats.old seats.new }
    ensures going { result ≢ Going }
    ensures finished { result ≡ Finished → All HasFinished seats.new }
    ensures strayed { result ≡ Strayed → SomeStrayed seats.new }
    ensures others { result ≢ Strayed → All HasNotStrayed seats.new }
{
    for _ in rt.forever() {
        round(rt, queues, gate, seats);
        let all = stand_together(seats);
        if all != Standing::Going {
            return all;
        }
    }
    unreachable!()
}
