ghost use Rattle.std.specs.Prelude.{◌<◌, ◌^◌, All, IfOk};

use chaos_sched::*;
use fd_words::{NumberLists, Numbers, Place, Role};
use std::alloc::Global;
use std::process::Abort;
use std::test::Fail;

fn need(role: Role, array: u32, element: u64, owner: u32, local: u64) -> Need {
    Need {
        role,
        array,
        element,
        place: Place { owner, local },
        slot: 7,
    }
}

const LIMIT: u64 = 1 << 63;

fn needs(rt: &impl Abort, alloc: Global, list: &[Need]) -> Result<Needs, Fail>
    ensures elements { IfOk result (λ needs. All (λ n. n.element < 2 ^ 63) needs) }
    ensures locals { IfOk result (λ needs. All (λ n. n.place.local < 2 ^ 63) needs) }
{
    assert!(rt; list.iter().all(|need| need.element < LIMIT));
    assert!(rt; list.iter().all(|need| need.place.local < LIMIT));
    Ok(Needs::from_vec(Vec::from_slice(alloc, list)?))
}

#[test]
fn asks_ascend_without_repeats(rt: HostRuntime) -> Result<(), Fail> {
    let alloc = rt.alloc();
    let list = [
        need(Role::Read, 1, 1, 0, 0),
        need(Role::Target, 0, 1, 0, 0),
        need(Role::Read, 0, 3, 0, 2),
        need(Role::Read, 0, 2, 0, 1),
        need(Role::Read, 0, 3, 0, 2),
    ];
    let needs = needs(&rt, alloc, list.as_slice())?;
    let asks = asks_of(alloc, &needs, 2)?;
    assert!(rt;
        asks.get(0).is_some_and(|list| {
            list.as_slice() == [0, 0, 2, 1, 0, 0, 3, 2, 0, 1, 1, 0, 1, 0, 1, 0].as_slice()
        })
    );
    assert!(rt; asks.get(1).is_some_and(|list| list.is_empty()));
    schedule_laws();
    Ok(())
}

fn has(lists: &ItemLists, node: usize, item: Item) -> bool {
    lists
        .get(node)
        .is_some_and(|list| list.as_slice() == [item].as_slice())
}

fn has_none(lists: &ItemLists, node: usize) -> bool {
    lists.get(node).is_some_and(|list| list.is_empty())
}

// node 1 reads X(2) of node 0 and gives it Y(1), node 0 gives Y(3) to node 1; the rows that begin with
// 2, name element 0, a negative array or no local address are passed over
#[test]
fn schedule_of_needs_and_asks(rt: HostRuntime) -> Result<(), Fail> {
    let alloc = rt.alloc();
    let needs = needs(&rt, alloc, [need(Role::Target, 1, 3, 1, 0)].as_slice())?;
    let rows = [
        0, 0, 2, 1, 2, 0, 1, 0, 0, 0, 0, 0, 1, -1, 1, 0, 1, 1, 1, 0, 0, 0, 1,
    ];
    let mut asks = NumberLists::empty(alloc, 2)?;
    asks.put(
        1,
        Numbers::from_vec(Vec::from_slice(alloc, rows.as_slice())?),
    );

    let schedule = from_asks(alloc, &needs, &asks, 2)?.copy(alloc)?;
    let read = Item {
        array: 0,
        element: 2,
        local: 1,
        slot: 0,
    };
    let taken = Item {
        array: 1,
        element: 1,
        local: 0,
        slot: 0,
    };
    let given = Item {
        array: 1,
        element: 3,
        local: 0,
        slot: 7,
    };
    assert!(rt; has(&schedule.gather_send, 1, read));
    assert!(rt; has_none(&schedule.gather_fetch, 1));
    assert!(rt; has(&schedule.scatter_send, 1, given));
    assert!(rt; has(&schedule.scatter_take, 1, taken));
    assert!(rt; has_none(&schedule.gather_send, 0));
    Ok(())
}
