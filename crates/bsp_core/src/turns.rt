//! One turn, over the lists of a World.

ghost use Rattle.std.specs.Prelude.{◌≡◌, ◌+◌, ◌*◌, ◌<◌, ◌≤◌, length, OnErr, IfOk};
ghost use Rattle.bsp_core.specs.Lists.{items_of};
ghost use Rattle.bsp_core.specs.Turns.{IsInLockstep, KeepsLockstep, TurnIs, IsUnchanged, world_state};

use crate::steps::{next_at, send_at, take_at, work_at};
use crate::{Phased, Turned, Want};
use chaos_letter::Letter;
use fd_words::Memory;
use std::alloc::Global;

/// The place of the pair from p to q, among the pairs of n nodes.
fn place_of(n: usize, p: usize, q: usize) -> usize
    requires n { n ≤ 16 }
    requires p { p < n }
    requires q { q < n }
    ensures { result ≡ p * n + q }
{
    p * n + q
}

/// The action of a node that is due.
pub fn turn_of<N: Phased>(
    alloc: Global,
    nodes: &mut [N],
    sent: &mut [Vec<Letter>],
    taken: &mut [usize],
    moved: &mut Vec<u8>,
    at: usize,
) -> Result<Turned, Memory>
    requires at { at < length nodes.old }
    requires few { length nodes.old ≤ 16 }
    requires plan { (plan : N.Plan) × N.IsPlan plan ×
        IsInLockstep N.view (N.rows plan) (N.holds plan) (N.count plan)
        (world_state nodes.old (items_of sent.old) taken.old moved.old.items) }
    ensures at { KeepsLockstep N.view N.IsPlan N.count N.rows N.holds
        (world_state nodes.old (items_of sent.old) taken.old moved.old.items)
        (world_state nodes.new (items_of sent.new) taken.new moved.new.items) }
    ensures turned { IfOk result (λ t. TurnIs N.view at t
        (world_state nodes.old (items_of sent.old) taken.old moved.old.items)
        (world_state nodes.new (items_of sent.new) taken.new moved.new.items)) }
    ensures err { OnErr result (IsUnchanged N.view
        (world_state nodes.old (items_of sent.old) taken.old moved.old.items)
        (world_state nodes.new (items_of sent.new) taken.new moved.new.items)) }
{
    let n = nodes.len();
    match next_at(nodes, at) {
        Want::Send(to) => {
            let place = place_of(n, at, to as usize);
            match send_at(nodes, sent, moved, at, place) {
                Ok(()) => Ok(Turned::Moved),
                Err(_) => Err(Memory),
            }
        }
        Want::Take(from) => {
            let place = place_of(n, from as usize, at);
            match take_at(alloc, nodes, sent, taken, moved, at, place) {
                Ok(true) => Ok(Turned::Moved),
                Ok(false) => Ok(Turned::NotReady),
                Err(_) => Err(Memory),
            }
        }
        Want::Work => match work_at(nodes, moved, at) {
            Ok(()) => Ok(Turned::Moved),
            Err(_) => Err(Memory),
        },
        Want::Done => Ok(Turned::Done),
    }
}
