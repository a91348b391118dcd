ghost use Rattle.std.specs.Prelude.{◌≡◌, IfOk};

use chaos_move::*;
use chaos_sched::{Item, Items};
use fd_words::{Combine, NumberLists, Numbers};
use std::alloc::Global;
use std::test::Fail;

fn numbers(alloc: Global, values: &[i64]) -> Result<Numbers, Fail>
    ensures { IfOk result (λ numbers. numbers ≡ values.now) }
{
    Ok(Numbers::from_vec(Vec::from_slice(alloc, values)?))
}

// one list, which is that of array 0
fn one_list(alloc: Global, values: &[i64]) -> Result<NumberLists, Fail> {
    let mut lists = NumberLists::empty(alloc, 1)?;
    lists.put(0, numbers(alloc, values)?);
    Ok(lists)
}

fn has(lists: &NumberLists, values: &[i64]) -> bool {
    lists.get(0).is_some_and(|list| list.as_slice() == values)
}

// the least of Y(2), which is 5, and 9: node 0 gives the 9 from slot 0 to node 1; the next letter names
// another element; what the last has written is taken back
#[test]
fn scatters_into_the_old_value(rt: HostRuntime) -> Result<(), Fail> {
    let alloc = rt.alloc();
    let item = Item {
        array: 0,
        element: 2,
        local: 0,
        slot: 0,
    };
    let items = Items::from_vec(Vec::from_slice(alloc, [item].as_slice())?);
    let letter = pack_combined(alloc, &items, &one_list(alloc, [9].as_slice())?)?;
    assert!(rt; letter.as_slice() == [0, 2, 9].as_slice());

    let least = Operators::from_vec(Vec::from_slice(alloc, [Some(Combine::Min)].as_slice())?);
    let mut pieces = one_list(alloc, [5].as_slice())?;
    let mut undo = Undo::new(alloc);
    apply_combined(&letter, &items, &least, &mut pieces, &mut undo)?;
    assert!(rt; has(&pieces, [5].as_slice()));

    let assigned = Operators::from_vec(Vec::from_slice(alloc, [None].as_slice())?);
    apply_combined(
        &numbers(alloc, [0, 1, 8].as_slice())?,
        &items,
        &assigned,
        &mut pieces,
        &mut undo,
    )?;
    assert!(rt; has(&pieces, [5].as_slice()));
    apply_combined(&letter, &items, &assigned, &mut pieces, &mut undo)?;
    assert!(rt; has(&pieces, [9].as_slice()));

    undo.take_back(&mut pieces);
    assert!(rt; has(&pieces, [5].as_slice()));
    move_laws();
    Ok(())
}
