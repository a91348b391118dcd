ghost use Rattle.std.specs.Prelude.{◌≡◌, ◌*◌, length, OnOk};
ghost use Rattle.chaos_move.specs.Moves.{combined_into, applied};
ghost use Rattle.chaos_move.specs.Undoing.{taken_back};

use crate::Operators;
use crate::operators::{change, operator_of};
use crate::rows::value_for;
use crate::undo::Undo;
use chaos_sched::{Item, Items};
use fd_words::{Memory, NumberLists, Numbers};

/// Assigns the value of each row of a Scatter letter to the item's element, or combines it into the
/// element where the array is reduced, passing over a row that names another element. What stood
/// there is kept, also of the writes before a want of memory.
pub fn apply_combined(
    numbers: &Numbers,
    items: &Items,
    operators: &Operators,
    pieces: &mut NumberLists,
    undo: &mut Undo,
) -> Result<(), Memory>
    requires { length numbers.now ≡ 3 * length items.now }
    ensures ok { OnOk result (pieces.new ≡ applied operators.now numbers.now items.now pieces.old) }
    ensures back { taken_back undo.new pieces.new ≡ taken_back undo.old pieces.old }
{
    let rows = numbers.as_slice();
    let all = items.as_slice();
    for at in 0..all.len() {
        combine(
            all[at],
            value_for(rows, at, all[at]),
            operators,
            pieces,
            undo,
        )?;
    }
    Ok(())
}

fn combine(
    item: Item,
    value: Option<i64>,
    operators: &Operators,
    pieces: &mut NumberLists,
    undo: &mut Undo,
) -> Result<(), Memory>
    ensures ok { OnOk result (pieces.new ≡ combined_into operators.now item value pieces.old) }
    ensures back { taken_back undo.new pieces.new ≡ taken_back undo.old pieces.old }
{
    match value {
        Some(value) => {
            let array = u64::from(item.array);
            let old = pieces.value_at(array, item.local);
            let new = change(operator_of(operators, array), old, value);
            undo.write(pieces, array, item.local, new)
        }
        None => Ok(()),
    }
}
