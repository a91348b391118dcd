ghost use Rattle.std.specs.Prelude.{◌≡◌, ℕ, List, IfOk, OnOk};
ghost use Rattle.fd_program.specs.Layouts.{Scene, loop_at, owners_at, store_at};
ghost use Rattle.fd_program.specs.Loops.{after_loop};
ghost use Rattle.fd_program.specs.Places.{parts_of};
ghost use Rattle.fd_program.specs.Trace.{site_at};
ghost use Rattle.fd_program.specs.declared.trace.LoopTurn.{LoopTurn};
ghost use Rattle.fd_program.specs.declared.trace.Step.{Step};
ghost use Rattle.chaos_move.specs.Undoing.{taken_back};
ghost use Rattle.chaos_hash.specs.Stamps.{Stamps};
ghost use Rattle.plan_loop.specs.declared.loop_phase.LoopPhase.TheVariants.{Gather, Scatter};
ghost use Rattle.chaos_executing.specs.InRun.{CanExecute, IsExecuting, sent_at_loop, owed_at_loop};

use crate::ghosts::empty_ghosts;
use crate::letters::{change_pieces, given_values, read_values, take_ghosts};
use chaos_execute::{PendingValues, compute};
use chaos_move::Undo;
use chaos_sched::Prepared;
use fd_program::LoopFacts;
use fd_words::{Memory, NumberLists};
use node_tables::TableSet;
use std::alloc::Global;

/// What an execution has in hand between its two phases: for each array the ghosts by slot, and what
/// the node's iterations assign or combine.
#[derive(Debug, Drop)]
pub struct Executing {
    pub ghosts: NumberLists,
    pub pending: PendingValues,
}

/// The Gather letters, one list per node: what each reads of this node's pieces.
pub fn gather_lists(
    alloc: Global,
    prepared: &Prepared,
    pieces: &NumberLists,
) -> Result<NumberLists, Memory>
    ensures { IfOk result (λ lists. (s : Scene) (past : List Step) (site : ℕ) (turn : LoopTurn) (p : ℕ) (tables : List Stamps)
        → CanExecute s past site turn p tables prepared.now
        → pieces.now ≡ parts_of s.checked.arrays (owners_at s past) (store_at s past) p
        → lists ≡ sent_at_loop s past site turn Gather p) }
{
    let lists = read_values(alloc, prepared, pieces)?;
    Ok(lists)
}

/// Ends the Gather phase: the ghosts, with the values of the letters of all nodes, and what the node's
/// iterations assign or combine. Where a letter is too long or too short, no value is taken.
pub fn execute(
    alloc: Global,
    facts: &LoopFacts,
    prepared: &Prepared,
    pieces: &NumberLists,
    tables: &TableSet,
    taken: &NumberLists,
) -> Result<Executing, Memory>
    ensures { IfOk result (λ executing. (s : Scene) (past : List Step) (site : ℕ) (turn : LoopTurn) (p : ℕ)
        → CanExecute s past site turn p tables.now prepared.now
        → facts.now ≡ loop_at s past site turn
        → pieces.now ≡ parts_of s.checked.arrays (owners_at s past) (store_at s past) p
        → taken.now ≡ owed_at_loop s past site turn Gather p
        → IsExecuting s past site turn p tables.now prepared.now executing) }
{
    let mut ghosts = empty_ghosts(alloc, facts, tables)?;
    take_ghosts(prepared, taken, &mut ghosts);
    let pending = compute(alloc, facts, prepared, pieces, &ghosts)?;
    Ok(Executing { ghosts, pending })
}

/// The Scatter letters, one list per node: what this node assigns to its elements or combines into
/// them.
pub fn scatter_lists(
    alloc: Global,
    prepared: &Prepared,
    executing: &Executing,
) -> Result<NumberLists, Memory>
    ensures { IfOk result (λ lists. (s : Scene) (past : List Step) (site : ℕ) (turn : LoopTurn) (p : ℕ) (tables : List Stamps)
        → IsExecuting s past site turn p tables prepared.now executing.now
        → lists ≡ sent_at_loop s past site turn Scatter p) }
{
    let lists = given_values(alloc, prepared, &executing.pending)?;
    Ok(lists)
}

/// Ends the Scatter phase: the node's pieces become those after the loop. Where a letter is too long or
/// too short, they stay. What stood there is kept in `undo`, also of the writes before a want of memory.
pub fn apply_contributions(
    prepared: &Prepared,
    executing: &Executing,
    taken: &NumberLists,
    pieces: &mut NumberLists,
    undo: &mut Undo,
) -> Result<(), Memory>
    ensures ok { OnOk result ((s : Scene) (past : List Step) (site : ℕ) (turn : LoopTurn) (p : ℕ) (tables : List Stamps)
        → IsExecuting s past site turn p tables prepared.now executing.now
        → pieces.old ≡ parts_of s.checked.arrays (owners_at s past) (store_at s past) p
        → taken.now ≡ owed_at_loop s past site turn Scatter p
        → pieces.new ≡ parts_of s.checked.arrays (owners_at s past) (after_loop s.checked.arrays (site_at s.checked.sites site) turn
        (store_at s past)) p) }
    ensures back { taken_back undo.new pieces.new ≡ taken_back undo.old pieces.old }
{
    change_pieces(prepared, &executing.pending, taken, pieces, undo)?;
    Ok(())
}
