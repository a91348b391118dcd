ghost use Rattle.std.specs.Prelude.{◌≡◌, ◌<◌, ◌≤◌, [], length, map, IfOk};
ghost use Rattle.bsp_core.specs.Turns.{Begins, IsInLockstep, HasEnded};
ghost use Rattle.bsp_example.specs.Rows.{voter_row, voter_holds};
ghost use Rattle.bsp_example.specs.Orders.{AreRounds};

use crate::Voter;
use bsp_core::{NodeList, World};
use fd_words::Memory;
use std::alloc::Global;

/// Nodes with these flags, that are together.
pub fn voter_list(alloc: Global, flags: &[bool]) -> Result<NodeList<Voter>, Memory>
    requires some { 0 < length flags.now }
    requires few { length flags.now ≤ 16 }
    ensures count { IfOk result (λ nodes. length nodes ≡ length flags.now) }
    ensures begins { IfOk result (λ nodes. Begins (voter_row flags.now) (voter_holds flags.now) (length flags.now) (map (λ s. s) nodes)) }
{
    let count = flags.len() as u32;
    let mut nodes = NodeList::new(alloc);
    for p in 0..count {
        let flag = flags[p as usize];
        let node = Voter::start(alloc, p, count, flag)?;
        nodes.push(node)?;
    }
    Ok(nodes)
}

/// A fresh World of nodes with these flags.
pub fn voters(alloc: Global, flags: &[bool]) -> Result<World<Voter>, Memory>
    requires some { 0 < length flags.now }
    requires few { length flags.now ≤ 16 }
    ensures nodes { IfOk result (λ w. length w.nodes ≡ length flags.now) }
    ensures moved { IfOk result (λ w. w.moved ≡ []) }
    ensures at { IfOk result (λ w. IsInLockstep (λ s. s) (voter_row flags.now) (voter_holds flags.now) (length flags.now) w) }
{
    let nodes = voter_list(alloc, flags)?;
    let world = World::new(alloc, nodes)?;
    Ok(world)
}

/// Such a World at its end, to which turns in rounds led.
pub fn finished(alloc: Global, flags: &[bool]) -> Result<World<Voter>, Memory>
    requires some { 0 < length flags.now }
    requires few { length flags.now ≤ 16 }
    ensures over { IfOk result (λ w. HasEnded (λ s. s) (voter_row flags.now) (voter_holds flags.now) (length flags.now) w) }
    ensures order { IfOk result (λ w. AreRounds flags.now w.moved) }
{
    let mut world = voters(alloc, flags)?;
    match world.round_robin() {
        Ok(_) => Ok(world),
        Err(_) => Err(Memory),
    }
}
