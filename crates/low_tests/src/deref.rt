use chaos_deref::*;
use chaos_table::Pages;
use fd_words::{Numbers, Place, Places};
use std::alloc::Global;
use std::test::Fail;

fn page(alloc: Global, first: u64, places: &[Place]) -> Result<Pages, Fail> {
    let places = Places::from_slice(alloc, places)?;
    Ok(Pages { first, places })
}

#[test]
fn elements_of_other_pages(rt: HostRuntime) -> Result<(), Fail> {
    let alloc = rt.alloc();
    let second = page(alloc, 3, [Place { owner: 7, local: 9 }].as_slice())?;
    let asked = Numbers::from_vec(Vec::from_slice(alloc, [2, 3, -3, 4].as_slice())?);
    let answers = answer(alloc, &second, &asked)?;
    assert_eq!(rt; answers.as_slice(), [0, 0, 7, 9, 0, 0, 0, 0].as_slice());
    asking_laws();
    Ok(())
}
