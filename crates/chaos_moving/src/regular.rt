ghost use Rattle.std.specs.Prelude.{◌≡◌, ◌≤◌, ◌<◌, All, map, pos, length, IfOk};
ghost use Rattle.std.specs.List.{slice_index_or};
ghost use Rattle.chaos_dist.specs.Layout.{given_size};
ghost use Rattle.chaos_deref.specs.Asking.{IsElement};
ghost use Rattle.chaos_moving.specs.Stages.{regular_place};

use crate::Share;
use chaos_dist::{Regular, Shape};
use fd_words::{Memory, Place, Places};
use std::alloc::Global;

/// The place of each of a node's elements under a shape.
pub(crate) fn regular_places(alloc: Global, share: &Share, shape: Shape) -> Result<Places, Memory>
    requires { 1 ≤ given_size shape }
    ensures { IfOk result (λ places. places ≡ map (regular_place shape share.now.extent share.now.nodes) share.now.elements) }
{
    let layout = Regular {
        extent: share.extent,
        nodes: share.nodes,
        shape,
    };
    places_by(alloc, layout, share.elements.as_slice())
}

fn places_by(alloc: Global, layout: Regular, elements: &[i64]) -> Result<Places, Memory>
    requires { All (IsElement layout.extent) elements.now }
    ensures { IfOk result (λ places. places ≡ map (regular_place layout.shape layout.extent layout.nodes) elements.now) }
{
    let mut places = Places::new(alloc);
    for at in 0..elements.len() {
        places.push(place_at(layout, elements, at))?;
    }
    Ok(places)
}

fn place_at(layout: Regular, elements: &[i64], at: usize) -> Place
    requires elements { All (IsElement layout.extent) elements.now }
    requires at { at < length elements.now }
    ensures { result ≡ regular_place layout.shape layout.extent layout.nodes (slice_index_or elements.now at (pos 0)) }
{
    let element = elements[at].unsigned_abs();
    Place {
        owner: layout.owner(element),
        local: layout.local(element),
    }
}
