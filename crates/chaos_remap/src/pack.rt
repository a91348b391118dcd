ghost use Rattle.std.specs.Prelude.{◌≡◌, ◌++◌, map, OnOk, IfOk};
ghost use Rattle.chaos_remap.specs.Remapping.{packed_row, packed_rows, number_at_address};

use crate::numbers::number_at_local;
use fd_words::{Memory, NumberLists, Numbers};
use std::alloc::Global;

/// The numbers of a Remap letter: for each old local address in `goes`, in order, the element and then
/// the value of each array. `mine` has the elements that this node held, ascending, and `pieces` the old
/// local part of each array.
pub fn pack_remap(
    alloc: Global,
    goes: &Numbers,
    mine: &Numbers,
    pieces: &NumberLists,
) -> Result<Numbers, Memory>
    ensures { IfOk result (λ numbers. numbers ≡ packed_rows mine.now pieces.now goes.now) }
{
    let mut numbers = Numbers::new(alloc);
    let addresses = goes.as_slice();
    for address in addresses {
        add_row(&mut numbers, mine.as_slice(), pieces, *address)?;
    }
    Ok(numbers)
}

fn add_row(
    numbers: &mut Numbers,
    mine: &[i64],
    pieces: &NumberLists,
    address: i64,
) -> Result<(), Memory>
    ensures { OnOk result (numbers.new ≡ numbers.old ++ packed_row mine.now pieces.now address) }
{
    numbers.push(number_at_local(mine, address))?;
    add_values(numbers, pieces.as_slice(), address)
}

fn add_values(numbers: &mut Numbers, pieces: &[Numbers], address: i64) -> Result<(), Memory>
    ensures { OnOk result (numbers.new ≡ numbers.old ++ map (λ piece. number_at_address piece address) pieces.now) }
{
    for piece in pieces {
        numbers.push(number_at_local(piece.as_slice(), address))?;
    }
    Ok(())
}
