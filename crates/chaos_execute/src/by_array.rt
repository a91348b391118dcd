ghost use Rattle.std.specs.Prelude.{◌≡◌, ◌<◌, ◌^◌, fold, slice_get, OnOk, Some};
ghost use Rattle.chaos_execute.specs.ByArray.{array_block, placed, target_joined};

use crate::block::{Block, behind};
use crate::rows::Rows;
use crate::targets::Target;
use chaos_sched::LocalRef;
use fd_words::{Combine, Memory, NumberLists};

/// An array, as the values in the columns of a block are joined to its places: the operator that reduces
/// into it, how many places the node has of it, and how many ghosts.
#[derive(Clone, Copy)]
pub struct Joined<'a> {
    pub operator: Option<Combine>,
    pub own: u64,
    pub slots: u64,
    pub columns: &'a NumberLists,
}

/// Joins the values of a block to an array's own places and ghosts.
pub fn join_array(
    here: &mut Rows,
    ghosts: &mut Rows,
    array: &Joined,
    targets: &[Target],
    block: &Block,
) -> Result<(), Memory>
    requires { array.now.own < 2 ^ 63 }
    ensures { OnOk result ((here.new, ghosts.new) ≡ array_block array.now.operator array.now.own array.now.slots array.now.columns.now
        block.now.width targets.now 0 block.now.iterations.now block.now.row.now (here.old, ghosts.old)) }
{
    if !targets.is_empty() {
        let mut left = block.row;
        for at in 0..block.iterations.len() {
            join_targets(here, ghosts, array, targets, at as u64, left)?;
            left = behind(left, block.width);
        }
    }
    Ok(())
}

fn join_targets(
    here: &mut Rows,
    ghosts: &mut Rows,
    array: &Joined,
    targets: &[Target],
    at: u64,
    row: &[LocalRef],
) -> Result<(), Memory>
    requires { array.now.own < 2 ^ 63 }
    ensures { OnOk result ((here.new, ghosts.new) ≡ fold (target_joined array.now.operator array.now.own array.now.slots
        array.now.columns.now at row.now) (here.old, ghosts.old) targets.now) }
{
    for target in targets {
        let value = array.columns.value_at(target.column, at);
        join_one(here, ghosts, array, row, target.at, value)?;
    }
    Ok(())
}

fn join_one(
    here: &mut Rows,
    ghosts: &mut Rows,
    array: &Joined,
    row: &[LocalRef],
    at: u64,
    value: i64,
) -> Result<(), Memory>
    requires { array.now.own < 2 ^ 63 }
    ensures { OnOk result ((here.new, ghosts.new) ≡ placed array.now.operator array.now.own array.now.slots value (slice_get row.now at)
        (here.old, ghosts.old)) }
{
    match row.get(at as usize) {
        Some(place) => join_place(here, ghosts, array, *place, value),
        None => Ok(()),
    }
}

fn join_place(
    here: &mut Rows,
    ghosts: &mut Rows,
    array: &Joined,
    place: LocalRef,
    value: i64,
) -> Result<(), Memory>
    requires { array.now.own < 2 ^ 63 }
    ensures { OnOk result ((here.new, ghosts.new) ≡ placed array.now.operator array.now.own array.now.slots value (Some place)
        (here.old, ghosts.old)) }
{
    match place {
        LocalRef::Here(local) => {
            if local < array.own {
                here.join(array.operator, local, value)?;
            }
        }
        LocalRef::Ghost(slot) => {
            if u64::from(slot) < array.slots {
                ghosts.join(array.operator, u64::from(slot), value)?;
            }
        }
    }
    Ok(())
}
