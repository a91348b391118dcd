ghost use Rattle.std.specs.Prelude.{◌≡◌, ◌≤◌, ◌≤ℤ◌, ◌+ℤ◌, pos, true, Some};
ghost use Rattle.fd_program.specs.Stores.{array_at};
ghost use Rattle.fd_program.specs.Uses.{is_met as is_met_of};
ghost use Rattle.chaos_dist.specs.Homes.{natural as natural_of};
ghost use Rattle.chaos_dist.specs.Layout.{given_size};
ghost use Rattle.fd_program.specs.Met.{layout_for, stands_met};
ghost use Rattle.chaos_dist.specs.declared.step_form.StepForm.TheVariants.{Regular as regular};
ghost use Rattle.inspect_uses.specs.Accepted.{IsAccepted};
ghost use Rattle.inspect_uses.specs.Reached.{place_by_form, place_reached};

use chaos_dist::{Regular, Shape, StepForm};
use fd_program::{ArrayFacts, Layout, LoopFacts, Use, decomposition};
use fd_words::Place;

/// The place of an element by formula.
fn place_in(extent: u64, nodes: u32, shape: Shape, element: u64) -> Place
    requires from_one { 1 ≤ element }
    requires within { element ≤ extent }
    requires some { 1 ≤ nodes }
    requires few { nodes ≤ 16 }
    requires dealt { 1 ≤ given_size shape }
    ensures { Some result ≡ place_by_form (regular shape) extent nodes element }
{
    let regular = Regular {
        extent,
        nodes,
        shape,
    };
    Place {
        owner: regular.owner(element),
        local: regular.local(element),
    }
}

fn offset(arrays: &[ArrayFacts], array: u32) -> i64
    ensures { result ≡ (array_at arrays.now array).offset }
{
    match arrays.get(array as usize) {
        Some(facts) => facts.offset,
        None => 0,
    }
}

/// The decomposition of an array as it is at this execution.
pub fn layout_of(facts: &LoopFacts, array: u32) -> Layout
    ensures { result ≡ layout_for facts.now array }
{
    let number = decomposition(facts.arrays.as_slice(), array);
    let layouts = facts.layouts.as_slice();
    layouts.get(number as usize).copied().unwrap_or(Layout {
        extent: 0,
        form: StepForm::Regular(Shape::Block),
    })
}

/// Their sum, exactly.
fn moved(subscript: i128, offset: i64) -> i128
    requires low { pos 0 ≤ℤ subscript }
    requires high { subscript ≤ℤ pos 1048576 }
    ensures { result ≡ subscript +ℤ offset }
{
    subscript + i128::from(offset)
}

fn natural(z: i128) -> u64
    requires low { pos 0 ≤ℤ z }
    requires high { z ≤ℤ pos 1048576 }
    ensures { result ≡ natural_of z }
{
    z as u64
}

/// The element of the decomposition where the element stands that a reference reaches.
pub fn stands_at(facts: &LoopFacts, used: Use) -> u64
    requires accepted { IsAccepted facts.now }
    requires met { is_met_of facts.now.arrays used ≡ true }
    ensures element { result ≡ stands_met facts.now used }
    ensures from_one { 1 ≤ result }
    ensures within { result ≤ (layout_for facts.now used.array).extent }
{
    let offset = offset(facts.arrays.as_slice(), used.array);
    natural(moved(used.subscript, offset))
}

/// The place of the element that a reference reaches, where a formula tells it; none where the
/// decomposition has a map.
pub fn place_by_formula(facts: &LoopFacts, used: Use) -> Option<Place>
    requires accepted { IsAccepted facts.now }
    requires met { is_met_of facts.now.arrays used ≡ true }
    ensures { result ≡ place_reached facts.now used }
{
    let layout = layout_of(facts, used.array);
    let element = stands_at(facts, used);
    match layout.form {
        StepForm::Regular(shape) => Some(place_in(layout.extent, facts.nodes, shape, element)),
        StepForm::Map(_) => None,
    }
}
