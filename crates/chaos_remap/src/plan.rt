ghost use Rattle.std.specs.Prelude.{◌≡◌, ◌<◌, ◌^◌, pos, OnOk, IfOk};
ghost use Rattle.fd_words.specs.Lists.{pushed_at};
ghost use Rattle.chaos_remap.specs.Remapping.{new_owner, planned};

use fd_words::{Memory, NumberLists, Places};
use std::alloc::Global;

/// Where the elements of a node go: list `q` has the old local addresses of those whose new owner is
/// `q`, ascending. `places` has the new place of each element, in the order of old local addresses.
pub fn plan_remap(alloc: Global, places: &Places, nodes: u32) -> Result<NumberLists, Memory>
    ensures { IfOk result (λ goes. goes ≡ planned nodes places.now) }
{
    let mut goes = NumberLists::empty(alloc, nodes)?;
    let all = places.as_slice();
    for at in 0..all.len() {
        send(&mut goes, owner_at(places, at), at)?;
    }
    Ok(goes)
}

fn send(goes: &mut NumberLists, owner: u32, at: usize) -> Result<(), Memory>
    requires { at < 2 ^ 63 }
    ensures { OnOk result (goes.new ≡ pushed_at goes.old owner (pos at)) }
{
    goes.push_to(u64::from(owner), at as i64)
}

/// The new owner of the element at an old local address.
fn owner_at(places: &Places, at: usize) -> u32
    ensures { result ≡ new_owner places.now at }
{
    match places.get(at) {
        Some(place) => place.owner,
        None => 0,
    }
}
