use chaos_hash::StampTable;
use chaos_merge::*;
use fd_words::{NumberLists, Place};
use std::alloc::Global;
use std::process::Abort;
use std::test::Fail;

/// A table with these elements, owners and stamps.
fn entered(rt: &impl Abort, alloc: Global, rows: &[(u64, u32, u32)]) -> Result<StampTable, Fail> {
    let mut table = StampTable::new(alloc);
    for (element, owner, stamp) in rows.iter().copied() {
        assert!(rt; stamp < 128 && table.peak() < 9);
        let place = Place { owner, local: 0 };
        table.enter(element, place, stamp)?;
    }
    Ok(table)
}

fn has_list(lists: &NumberLists, owner: u64, elements: &[i64]) -> bool {
    lists
        .get(owner)
        .is_some_and(|list| list.as_slice() == elements)
}

#[test]
fn elements_for_each_owner(rt: HostRuntime) -> Result<(), Fail> {
    let rows = [(4, 1, 1), (9, 2, 0), (3, 1, 0), (3, 1, 1)];
    let table = entered(&rt, rt.alloc(), rows.as_slice())?;
    let lists = merged(rt.alloc(), &table, 3, 3)?;
    assert_eq!(rt; lists.len(), 3);
    assert!(rt; has_list(&lists, 0, [].as_slice()));
    assert!(rt; has_list(&lists, 1, [3, 4].as_slice()));
    assert!(rt; has_list(&lists, 2, [9].as_slice()));
    Ok(())
}

#[test]
fn elements_that_are_not_held(rt: HostRuntime) -> Result<(), Fail> {
    let rows = [(5, 1, 0), (5, 1, 1), (7, 1, 1)];
    let table = entered(&rt, rt.alloc(), rows.as_slice())?;
    let lists = beyond(rt.alloc(), &table, 2, 1, 2)?;
    assert_eq!(rt; lists.len(), 2);
    assert!(rt; has_list(&lists, 0, [].as_slice()));
    assert!(rt; has_list(&lists, 1, [7].as_slice()));
    Ok(())
}
