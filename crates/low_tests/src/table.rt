use chaos_table::*;
use fd_words::{NumberLists, Numbers, Place};
use std::test::Fail;

#[test]
fn a_map_over_four_nodes(rt: HostRuntime) -> Result<(), Fail> {
    let mut pairs = NumberLists::empty(rt.alloc(), 4)?;
    pairs.push_to(1, 2)?;
    pairs.push_to(1, 3)?;
    let mut counts = NumberLists::empty(rt.alloc(), 1)?;
    counts.put(
        0,
        Numbers::from_vec(Vec::from_slice(rt.alloc(), [0, 0, 0, 1].as_slice())?),
    );

    let own = page_counts(rt.alloc(), 4, 4, 1, &pairs)?;
    assert_eq!(rt; own.as_slice(), [0, 0, 0, 1].as_slice());
    let page = Pages::install(rt.alloc(), 4, 4, 1, &pairs, &counts)?;
    assert_eq!(rt; page.look(2), Some(Place { owner: 3, local: 1 }));
    assert_eq!(rt; page.look(1), None);
    assert_eq!(rt; page.look(3), None);
    assert_eq!(rt; page_of(4, 4, 2), 1);
    page_laws();
    Ok(())
}
