use chaos_remap::*;
use fd_words::{NumberLists, Numbers};
use std::alloc::Global;
use std::test::Fail;

fn numbers(alloc: Global, values: &[i64]) -> Result<Numbers, Fail> {
    Ok(Numbers::from_vec(Vec::from_slice(alloc, values)?))
}

// two lists
fn lists(alloc: Global, first: &[i64], second: &[i64]) -> Result<NumberLists, Fail> {
    let mut lists = NumberLists::empty(alloc, 2)?;
    lists.put(0, numbers(alloc, first)?);
    lists.put(1, numbers(alloc, second)?);
    Ok(lists)
}

fn has(lists: &NumberLists, at: u64, values: &[i64]) -> bool {
    lists.get(at).is_some_and(|list| list.as_slice() == values)
}

// the higher elements come from the first node: they go behind those of the second
#[test]
fn rows_ascend_by_element(rt: HostRuntime) -> Result<(), Fail> {
    let alloc = rt.alloc();
    let taken = lists(alloc, [3, 30, 4, 40].as_slice(), [1, 10, 2, 20].as_slice())?;
    let part = place_remap(alloc, &taken, 2)?;
    assert!(rt; part.elements.as_slice() == [1, 2, 3, 4].as_slice());
    assert!(rt; has(&part.pieces, 0, [10, 20, 30, 40].as_slice()));
    remap_laws();
    Ok(())
}
