ghost use Rattle.std.specs.Prelude.{◌<◌, All, IfOk};

use chaos_hash::StampTable;
use chaos_localise::*;
use chaos_sched::LocalRef;
use fd_words::Place;
use std::alloc::Global;
use std::process::Abort;
use std::test::Fail;

/// An element of two blocks of 2, with stamp 1.
fn item(element: u64, owner: u32, local: u64) -> Entered {
    Entered {
        stamp: 1,
        element,
        place: Place { owner, local },
    }
}

fn list_of(rt: &impl Abort, alloc: Global, items: &[Entered]) -> Result<EnteredList, Fail>
    ensures { IfOk result (λ list. All (λ i. i.stamp < 128) list) }
{
    assert!(rt; items.iter().all(|item| item.stamp < 128));
    Ok(EnteredList::from_vec(Vec::from_slice(alloc, items)?))
}

#[test]
fn elements_of_other_nodes_get_slots(rt: HostRuntime) -> Result<(), Fail> {
    let items = [item(3, 1, 0), item(4, 1, 1), item(1, 0, 0), item(3, 1, 0)];
    let list = list_of(&rt, rt.alloc(), items.as_slice())?;
    let mut table = StampTable::new(rt.alloc());
    assert!(rt; table.peak() < 9);
    let slot = table.enter(3, Place { owner: 1, local: 0 }, 0)?;
    assert!(rt; table.peak() < 9 && list.len() < 9);
    let refs = localise(rt.alloc(), &list, &mut table, 0)?;
    assert_eq!(rt; refs.len(), 4);
    assert_eq!(rt; refs.get(0).copied(), Some(LocalRef::Ghost(slot)));
    assert_eq!(rt; refs.get(2).copied(), Some(LocalRef::Here(0)));
    assert_eq!(rt; refs.get(3).copied(), Some(LocalRef::Ghost(slot)));
    table.clear(1);
    assert_eq!(rt; table.peak(), 2);
    assert_eq!(rt; table.slots_with(rt.alloc(), u128::MAX)?.len(), 1);
    Ok(())
}
