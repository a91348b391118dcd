use chaos_hash::*;
use fd_words::Place;
use std::process::Abort;
use std::test::Fail;

/// Enters elements with stamps, each at the slot that is told.
fn enter_all(
    rt: &impl Abort,
    table: &mut StampTable,
    rows: &[(u64, u32, u32)],
) -> Result<(), Fail> {
    for (element, stamp, slot) in rows.iter().copied() {
        let place = Place {
            owner: 1,
            local: element,
        };
        assert!(rt; stamp < 128 && table.peak() < 9);
        assert_eq!(rt; table.enter(element, place, stamp)?, slot);
    }
    Ok(())
}

#[test]
fn an_entry_lives_while_it_has_a_stamp(rt: HostRuntime) -> Result<(), Fail> {
    let mut table = StampTable::new(rt.alloc());
    enter_all(&rt, &mut table, [(5, 0, 0), (5, 1, 0)].as_slice())?;
    for (stamp, left) in [(0, 1), (1, 0)] {
        assert!(rt; stamp < 128);
        table.clear(stamp);
        assert_eq!(rt; table.slots_with(rt.alloc(), 3)?.len(), left);
        assert_eq!(rt; table.entry(0).is_some(), left == 1);
    }
    Ok(())
}

#[test]
fn a_slot_is_given_again(rt: HostRuntime) -> Result<(), Fail> {
    let mut table = StampTable::new(rt.alloc());
    enter_all(
        &rt,
        &mut table,
        [(3, 0, 0), (3, 1, 0), (4, 1, 1)].as_slice(),
    )?;
    table.clear(1);
    enter_all(&rt, &mut table, [(9, 127, 1)].as_slice())?;
    assert_eq!(rt; table.entry(0), Some((3, Place { owner: 1, local: 3 })));
    assert_eq!(rt; table.peak(), 2);
    Ok(())
}
