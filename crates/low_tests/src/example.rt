use bsp_core::{Phased, TakeFault, Want};
use bsp_example::*;
use chaos_letter::{Kind, Letter};
use fd_words::Numbers;
use std::test::Fail;

#[test]
fn every_order_has_as_many_moves(rt: HostRuntime) -> Result<(), Fail> {
    let table = [
        ([true, false, false].as_slice(), 37),
        ([false, false, false].as_slice(), 22),
        ([false].as_slice(), 2),
    ];
    for (flags, moves) in table {
        let mut world = voters(rt.alloc(), flags)?;
        assert_eq!(rt; world.round_robin()?, moves);
        for seed in 0..4 {
            let mut world = voters(rt.alloc(), flags)?;
            assert_eq!(rt; world.seeded(seed)?, moves);
        }
    }
    Ok(())
}

#[test]
fn a_stray_letter_comes_back(rt: HostRuntime) -> Result<(), Fail> {
    let mut node = Voter::start(rt.alloc(), 0, 2, true)?;
    assert_eq!(rt; node.next(), Want::Send(1));
    let mine = node.post();
    assert_eq!(rt; mine.numbers().len(), 2);
    assert_eq!(rt; node.next(), Want::Take(1));
    let letter = Letter::new(Kind::Vote, 3, 0, Numbers::new(rt.alloc()));
    match node.take(letter) {
        Ok(()) => assert!(rt; false),
        Err(TakeFault::Stray { wanted, got }) => {
            assert_eq!(rt; wanted.kind, Kind::Gather);
            assert_eq!(rt; got.kind(), Kind::Vote);
        }
    }
    assert_eq!(rt; node.next(), Want::Take(1));
    assert!(rt; node.take(mine).is_ok());
    assert_eq!(rt; node.next(), Want::Work);
    node.work()?;
    assert_eq!(rt; node.next(), Want::Send(1));
    Ok(())
}
