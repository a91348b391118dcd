ghost use Rattle.std.specs.Prelude.{◌≡◌, ◌<◌, ◌^◌, length, map, IfOk};
ghost use Rattle.std.specs.List.{enumerate_from};
ghost use Rattle.chaos_facts.specs.Facts.{facts_in, layout_in, sound_form, sound_shape};

use crate::copies::copy_site;
use chaos_dist::{Shape, StepForm};
use chaos_records::Records;
use fd_program::{Checked, HomeRule, Layout, LayoutList, LayoutName, LoopFacts, LoopTurn};
use fd_words::Memory;
use sqlite_items::Items;
use std::alloc::Global;

/// An equal turn.
pub fn copy_turn(alloc: Global, turn: &LoopTurn) -> Result<LoopTurn, Memory>
    ensures { IfOk result (λ t. t ≡ turn.now) }
{
    Ok(LoopTurn {
        low: turn.low,
        high: turn.high,
        adds: turn.adds.copy(alloc)?,
        terms: turn.terms.copy(alloc)?,
    })
}

/// Equal facts.
pub fn copy_facts(alloc: Global, facts: &LoopFacts) -> Result<LoopFacts, Memory>
    ensures { IfOk result (λ f. f ≡ facts.now) }
{
    Ok(LoopFacts {
        arrays: Items::from_slice(alloc, facts.arrays.as_slice())?,
        site: copy_site(alloc, &facts.site)?,
        turn: copy_turn(alloc, &facts.turn)?,
        layouts: Items::from_slice(alloc, facts.layouts.as_slice())?,
        nodes: facts.nodes,
        rule: facts.rule,
    })
}

/// A shape that deals no element at a time is taken for BLOCK.
fn sound_shape(shape: Shape) -> Shape
    ensures { result ≡ sound_shape shape }
{
    match shape {
        Shape::Block => Shape::Block,
        Shape::Cyclic => Shape::Cyclic,
        Shape::BlockCyclic(size) => {
            if size == 0 {
                Shape::Block
            } else {
                Shape::BlockCyclic(size)
            }
        }
    }
}

fn sound_form(form: StepForm) -> StepForm
    ensures { result ≡ sound_form form }
{
    match form {
        StepForm::Regular(shape) => StepForm::Regular(sound_shape(shape)),
        StepForm::Map(array) => StepForm::Map(array),
    }
}

fn layouts_of(alloc: Global, names: &[LayoutName], records: &Records) -> Result<LayoutList, Memory>
    requires { length names.now < 2 ^ 32 }
    ensures { IfOk result (λ l. l ≡ map (layout_in records.now) (enumerate_from 0 names.now)) }
{
    let mut layouts = Items::new(alloc);
    for (d, name) in names.iter().enumerate() {
        layouts.push(Layout {
            extent: name.extent,
            form: sound_form(records.form(d as u32)),
        })?;
    }
    Ok(layouts)
}

/// All that is known of an execution of a FORALL, with the forms that the decompositions have now. A
/// CYCLIC(0), which no program has, is taken for BLOCK. Linear in the arrays, the decompositions and the
/// text of the FORALL.
pub fn facts_of(
    alloc: Global,
    checked: &Checked,
    nodes: u32,
    rule: HomeRule,
    records: &Records,
    site: u32,
    turn: &LoopTurn,
) -> Result<LoopFacts, Memory>
    requires site { site < length checked.now.sites }
    requires layouts { length checked.now.layouts < 2 ^ 32 }
    ensures { IfOk result (λ f. f ≡ facts_in checked.now nodes rule records.now site turn.now) }
{
    Ok(LoopFacts {
        arrays: Items::from_slice(alloc, checked.arrays.as_slice())?,
        site: copy_site(alloc, &checked.sites.as_slice()[site as usize])?,
        turn: copy_turn(alloc, turn)?,
        layouts: layouts_of(alloc, checked.layouts.as_slice(), records)?,
        nodes,
        rule,
    })
}
