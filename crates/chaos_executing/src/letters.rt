//! The executor's calls, each made only where the letters and items are as it wants them.
ghost use Rattle.std.specs.Prelude.{◌≡◌, map, IfOk, OnOk};
ghost use Rattle.chaos_move.specs.Moves.{packed, packed_combined};
ghost use Rattle.chaos_move.specs.Undoing.{taken_back};
ghost use Rattle.chaos_execute.specs.Letters.{HasRows, after_apply, gathered};
ghost use Rattle.chaos_execute.specs.Ready.{AreSmall};

use crate::rows::{in_rows, small};
use chaos_execute::{PendingValues, apply, gather_in, gather_out, scatter_out};
use chaos_move::Undo;
use chaos_sched::Prepared;
use fd_words::{Memory, NumberLists};
use std::alloc::Global;

/// The values that others read of these pieces; no list where an element can't stand in a letter.
pub(crate) fn read_values(
    alloc: Global,
    prepared: &Prepared,
    pieces: &NumberLists,
) -> Result<NumberLists, Memory>
    ensures { IfOk result (λ lists. AreSmall prepared.now.schedule.gather_send
        → lists ≡ map (packed pieces.now) prepared.now.schedule.gather_send) }
{
    if small(&prepared.schedule.gather_send) {
        gather_out(alloc, prepared, pieces)
    } else {
        Ok(NumberLists::new(alloc))
    }
}

/// Puts the values of the letters into their slots; none where a letter is too long or too short.
pub(crate) fn take_ghosts(prepared: &Prepared, taken: &NumberLists, ghosts: &mut NumberLists)
    ensures { HasRows taken.now prepared.now.schedule.gather_fetch → ghosts.new ≡ gathered taken.now prepared.now.schedule.gather_fetch
        ghosts.old }
{
    if in_rows(taken, &prepared.schedule.gather_fetch) {
        gather_in(prepared, taken, ghosts);
    }
}

/// The values for the elements of others; no list where an element can't stand in a letter.
pub(crate) fn given_values(
    alloc: Global,
    prepared: &Prepared,
    pending: &PendingValues,
) -> Result<NumberLists, Memory>
    ensures { IfOk result (λ lists. AreSmall prepared.now.schedule.scatter_send
        → lists ≡ map (packed_combined pending.now.ghosts) prepared.now.schedule.scatter_send) }
{
    if small(&prepared.schedule.scatter_send) {
        scatter_out(alloc, prepared, pending)
    } else {
        Ok(NumberLists::new(alloc))
    }
}

/// Changes the pieces by the node's own values and those of the letters; not at all where a letter is
/// too long or too short. What stood there is kept, also of the writes before a want of memory.
pub(crate) fn change_pieces(
    prepared: &Prepared,
    pending: &PendingValues,
    taken: &NumberLists,
    pieces: &mut NumberLists,
    undo: &mut Undo,
) -> Result<(), Memory>
    ensures ok { OnOk result (HasRows taken.now prepared.now.schedule.scatter_take
        → pieces.new ≡ after_apply prepared.now pending.now taken.now pieces.old) }
    ensures back { taken_back undo.new pieces.new ≡ taken_back undo.old pieces.old }
{
    if in_rows(taken, &prepared.schedule.scatter_take) {
        apply(prepared, pending, taken, pieces, undo)
    } else {
        Ok(())
    }
}
