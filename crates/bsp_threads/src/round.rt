//! A round: each seat that is going is driven once, all at the same time.
ghost use Rattle.std.specs.List.{All, AllZip};
ghost use Rattle.std.specs.Thread.{IsSync, IsSend};
ghost use Rattle.bsp_core.specs.Views.{WorksFor};
ghost use Rattle.bsp_threads.specs.Seats.{IsReady};
ghost use Rattle.bsp_threads.specs.Rounds.{HasGone};

use crate::driving::drive;
use crate::{DriveSeat, Standing};
use bsp_core::Phased;
use bsp_mail::Queues;
use fd_outside::Gate;
use std::sync::Wait;
use std::thread::{Threads, join_mut};

/// Drives a seat that is going; one that is finished or stopped stays as it is.
fn go_on<R: Wait, N: Phased, G: Gate>(rt: &R, queues: &Queues, gate: &G, seat: &mut DriveSeat<N>)
    requires ready { IsReady N.view queues.now seat.old }
    ensures gone { HasGone N.view (WorksFor N.IsPlan N.count N.rows N.holds) queues.now seat.old seat.new }
{
    if let Standing::Going = seat.standing {
        let _answer = drive(rt, seat, queues, gate);
    }
}

/// One round over these seats: the halves of the list at the same time, where threads can be made.
pub fn round<R: Threads + Wait + Sync, N: Phased + Send, G: Gate>(
    rt: &R,
    queues: &Queues,
    gate: &G,
    seats: &mut [DriveSeat<N>],
)
    requires ready { All (IsReady N.view queues.now) seats.old }
    ensures gone { AllZip (HasGone N.view (WorksFor N.IsPlan N.count N.rows N.holds) queues.now) seats.old seats.new }
{
    if seats.len() == 0 {
        return;
    }
    if seats.len() == 1 {
        go_on(rt, queues, gate, &mut seats[0]);
        return;
    }
    let half = seats.len() / 2;
    let (front, back) = seats.split_at_mut(half);
    join_mut(
        rt,
        &mut ||
            requires { IsSync R.row × IsSend N.row × IsSync G.row × All (IsReady N.view queues.now) front.now }
            ensures { AllZip (HasGone N.view (WorksFor N.IsPlan N.count N.rows N.holds) queues.entry.now) front.entry.now front.exit.now }
        { round(rt, queues, gate, front) },
        &mut ||
            requires { IsSync R.row × IsSend N.row × IsSync G.row × All (IsReady N.view queues.now) back.now }
            ensures { AllZip (HasGone N.view (WorksFor N.IsPlan N.count N.rows N.holds) queues.entry.now) back.entry.now back.exit.now }
        { round(rt, queues, gate, back) },
    );
}
