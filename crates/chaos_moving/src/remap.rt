ghost use Rattle.std.specs.Prelude.{◌≡◌, ◌+◌, length, map, IfOk};
ghost use Rattle.chaos_remap.specs.Remapping.{planned, packed_rows};
ghost use Rattle.chaos_remap.specs.Remapped.{remapped};

use crate::Share;
use chaos_remap::{Remapped, pack_remap, place_remap, plan_remap};
use fd_words::{Memory, NumberLists, Numbers, Places};
use std::alloc::Global;

/// The elements that go to each node, with their values.
pub(crate) fn leaving(alloc: Global, share: &Share, places: &Places) -> Result<NumberLists, Memory>
    ensures { IfOk result (λ lists. lists ≡ map (packed_rows share.now.elements share.now.pieces) (planned share.now.nodes places.now)) }
{
    let goes = plan_remap(alloc, places, share.nodes)?;
    pack_all(alloc, goes.as_slice(), &share.elements, &share.pieces)
}

fn pack_all(
    alloc: Global,
    goes: &[Numbers],
    elements: &Numbers,
    pieces: &NumberLists,
) -> Result<NumberLists, Memory>
    ensures { IfOk result (λ lists. lists ≡ map (packed_rows elements.now pieces.now) goes.now) }
{
    let mut lists = NumberLists::new(alloc);
    for addresses in goes {
        lists.push(pack_remap(alloc, addresses, elements, pieces)?)?;
    }
    Ok(lists)
}

/// The elements that came from each node, and the new local parts.
pub(crate) fn placed(alloc: Global, share: &Share, taken: &NumberLists) -> Result<Remapped, Memory>
    ensures { IfOk result (λ part. part ≡ remapped (length share.now.pieces + 1) taken.now) }
{
    let width = share.pieces.len() as u32 + 1;
    place_remap(alloc, taken, width)
}
