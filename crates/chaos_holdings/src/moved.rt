ghost use Rattle.std.specs.Prelude.{◌≡◌, ◌<◌, ◌^◌, pos, length, slice_set, ◌≤◌, ◌<ℤ◌, ◌≤ℤ◌, IfOk};
ghost use Rattle.chaos_records.specs.Keeping.{moved as noted_move, setting_in};
ghost use Rattle.fd_words.specs.Lists.{list_at};
ghost use Rattle.chaos_holdings.specs.Parts.{parts_with};

use chaos_dist::StepForm;
use chaos_moving::Moved;
use chaos_records::Records;
use fd_program::ArrayFacts;
use fd_words::{Memory, NumberLists, Numbers};
use std::alloc::Global;

/// The elements of all decompositions, where those of one are these.
pub fn elements_after(
    alloc: Global,
    elements: &NumberLists,
    decomposition: u32,
    moved: &Moved,
) -> Result<NumberLists, Memory>
    ensures { IfOk result (λ lists. lists ≡ slice_set elements.now decomposition moved.now.elements) }
{
    let mut lists = elements.copy(alloc)?;
    lists.put(u64::from(decomposition), moved.elements.copy(alloc)?);
    Ok(lists)
}

fn list_in(alloc: Global, lists: &NumberLists, at: u64) -> Result<Numbers, Memory>
    ensures { IfOk result (λ list. list ≡ list_at lists.now at) }
{
    match lists.get(at) {
        Some(list) => list.copy(alloc),
        None => Ok(Numbers::new(alloc)),
    }
}

/// The parts of all arrays, where those of a decomposition's arrays are these pieces, in array order.
pub fn parts_after(
    alloc: Global,
    arrays: &[ArrayFacts],
    parts: &NumberLists,
    decomposition: u32,
    pieces: &NumberLists,
) -> Result<NumberLists, Memory>
    ensures { IfOk result (λ lists. lists ≡ parts_with arrays.now decomposition parts.now pieces.now) }
{
    let mut lists = NumberLists::new(alloc);
    let mut taken = 0u64;
    for array in 0..arrays.len() {
        if arrays[array].decomposition == decomposition {
            lists.push(list_in(alloc, pieces, taken)?)?;
            taken = taken.saturating_add(1);
        } else {
            lists.push(list_in(alloc, parts, array as u64)?)?;
        }
    }
    Ok(lists)
}

/// The records, where a decomposition is given a form. They stay where there is no such decomposition, and where its
/// version has come to 2^32, which it doesn't in a run.
pub fn records_of_move(
    alloc: Global,
    records: &Records,
    decomposition: u32,
    form: StepForm,
) -> Result<Records, Memory>
    ensures moved { IfOk result (λ r. decomposition < length records.now.settings → (setting_in records.now decomposition).version <ℤ pos
        (2 ^ 32) → r ≡ noted_move records.now decomposition form) }
    ensures absent { IfOk result (λ r. length records.now.settings ≤ decomposition → r ≡ records.now) }
    ensures full { IfOk result (λ r. decomposition < length records.now.settings
        → pos (2 ^ 32) ≤ℤ (setting_in records.now decomposition).version → r ≡ records.now) }
{
    let mut after = records.copy(alloc)?;
    if (decomposition as usize) < records.layouts()
        && records.version(decomposition) < 4_294_967_296
    {
        after.note_move(decomposition, form);
    }
    Ok(after)
}
