ghost use Rattle.std.specs.Prelude.{◌≡◌, ◌<◌, ◌^◌, ◌++◌, All, OnOk, IfOk};
ghost use Rattle.chaos_move.specs.Moves.{triple, packed, packed_by, packed_combined, address_of};

use chaos_sched::{Item, Items};
use fd_words::{Memory, NumberLists, Numbers};
use std::alloc::Global;

/// The numbers of a Gather letter: of each item array, element and value, the value from its local
/// address in this node's pieces.
pub fn pack(alloc: Global, items: &Items, pieces: &NumberLists) -> Result<Numbers, Memory>
    requires { All (λ i. i.element < 2 ^ 63) items.now }
    ensures { IfOk result (λ numbers. numbers ≡ packed pieces.now items.now) }
{
    rows(alloc, items.as_slice(), pieces, false)
}

/// The numbers of a Scatter letter: of each item array, element and value, the value from its slot in
/// what this node has to give.
pub fn pack_combined(alloc: Global, items: &Items, pending: &NumberLists) -> Result<Numbers, Memory>
    requires { All (λ i. i.element < 2 ^ 63) items.now }
    ensures { IfOk result (λ numbers. numbers ≡ packed_combined pending.now items.now) }
{
    rows(alloc, items.as_slice(), pending, true)
}

/// A row for each item, with the value at its slot in these lists or at its local address.
fn rows(
    alloc: Global,
    items: &[Item],
    lists: &NumberLists,
    by_slot: bool,
) -> Result<Numbers, Memory>
    requires { All (λ i. i.element < 2 ^ 63) items.now }
    ensures { IfOk result (λ numbers. numbers ≡ packed_by by_slot lists.now items.now) }
{
    let mut numbers = Numbers::new(alloc);
    for item in items {
        let value = lists.value_at(u64::from(item.array), address(*item, by_slot));
        add(&mut numbers, *item, value)?;
    }
    Ok(numbers)
}

fn address(item: Item, by_slot: bool) -> u64
    ensures { result ≡ address_of by_slot item }
{
    if by_slot {
        u64::from(item.slot)
    } else {
        item.local
    }
}

fn add(numbers: &mut Numbers, item: Item, value: i64) -> Result<(), Memory>
    requires { item.element < 2 ^ 63 }
    ensures { OnOk result (numbers.new ≡ numbers.old ++ triple item value) }
{
    let row = [i64::from(item.array), item.element as i64, value];
    numbers.append(row.as_slice())
}
