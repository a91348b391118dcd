use chaos_dist::{Shape, StepForm};
use chaos_records::*;
use std::process::Abort;
use std::test::Fail;

fn writes(rt: &impl Abort, records: &mut Records, array: u32, execution: u32) {
    assert!(rt; u64::from(array) < records.arrays());
    records.note_write(array, u64::from(execution));
}

fn moves(rt: &impl Abort, records: &mut Records, form: StepForm, moves: bool, version: i64) {
    assert!(rt; 2 < records.layouts());
    assert!(rt; records.version(2) < 100);
    assert!(rt; records.note_move(2, form) == moves);
    assert!(rt; records.version(2) == version);
}

#[test]
fn moves_and_repeats(rt: HostRuntime) -> Result<(), Fail> {
    let mut records = Records::new(rt.alloc(), 4, 4)?;
    let rows = [
        (StepForm::Regular(Shape::Block), false, 0),
        (StepForm::Regular(Shape::Cyclic), true, 1),
        (StepForm::Regular(Shape::Cyclic), false, 1),
        // CYCLIC and CYCLIC(1) are different forms
        (StepForm::Regular(Shape::BlockCyclic(1)), true, 2),
        (StepForm::Regular(Shape::BlockCyclic(1)), false, 2),
        (StepForm::Regular(Shape::BlockCyclic(2)), true, 3),
        (StepForm::Map(2), true, 4),
        (StepForm::Map(2), false, 4),
        (StepForm::Map(0), true, 5),
        // there and back
        (StepForm::Map(2), true, 6),
    ];
    for (form, is_move, version) in rows {
        moves(&rt, &mut records, form, is_move, version);
    }
    // another array's change is none of the map's
    writes(&rt, &mut records, 0, 8);
    moves(&rt, &mut records, StepForm::Map(2), false, 6);
    writes(&rt, &mut records, 2, 9);
    moves(&rt, &mut records, StepForm::Map(2), true, 7);
    moves(&rt, &mut records, StepForm::Map(2), false, 7);
    notes_keep_the_past();
    records_are_exact();
    inspections_are_known();
    Ok(())
}
