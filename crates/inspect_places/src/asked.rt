ghost use Rattle.std.specs.Prelude.{◌≡◌, ℕ, List, true, [], replicate, length, map, IfOk};
ghost use Rattle.std.specs.List.{AllByRecursion};
ghost use Rattle.fd_program.specs.Uses.{is_met as is_met_of};
ghost use Rattle.fd_program.specs.declared.loop_use.Use.{Use as UseOf};
ghost use Rattle.fd_program.specs.Met.{decomposition_met};
ghost use Rattle.inspect_uses.specs.Accepted.{IsAccepted, AreOwners};
ghost use Rattle.inspect_uses.specs.Reached.{place_met};
ghost use Rattle.inspect_places.specs.Asks.{IsAsked, answers_of, asks_of, wanted_row as wanted_row_of};
ghost use Rattle.list_laws.specs.Rows.{dealt_onto};

use crate::asks::ask_all;
use crate::places::{place_all, tell_all};
use chaos_table::page_of;
use fd_program::{LoopFacts, Use, decomposition};
use fd_words::{Memory, NumberLists, Places};
use inspect_uses::{layout_of, stands_at};
use sqlite_items::Items;
use std::alloc::Global;

/// Numbers of decompositions, from 0.
pub type Decompositions = Items<u32>;

/// References whose places are asked for: the decomposition of each, in the order of iterations and
/// numbers, and for each decomposition the elements that they reach and the pages of these, two numbers
/// each, in the same order.
#[derive(Debug, Drop)]
pub struct Asked {
    pub decompositions: Decompositions,
    pub wanted: NumberLists,
}

impl Asked {
    /// Asks for the places of all these references. Linear in them and in the decompositions.
    pub fn new(alloc: Global, facts: &LoopFacts, uses: &[Use]) -> Result<Asked, Memory>
        requires accepted { IsAccepted facts.now }
        requires met { AllByRecursion (λ u. is_met_of facts.now.arrays u ≡ true) uses.now }
        ensures { IfOk result (λ asked. IsAsked facts.now uses.now asked) }
    {
        let decompositions = decompositions_of(alloc, facts, uses)?;
        let wanted = wanted_lists(alloc, facts, uses)?;
        Ok(Asked {
            decompositions,
            wanted,
        })
    }

    /// What the node that keeps each page is asked: decomposition and element of each.
    pub fn asks(&self, alloc: Global, facts: &LoopFacts) -> Result<NumberLists, Memory>
        ensures { IfOk result (λ lists. (uses : List UseOf) → IsAsked facts.now uses self.now → lists ≡ asks_of facts.now uses) }
    {
        ask_all(alloc, facts.nodes, self.wanted.as_slice())
    }

    /// The places, in the order in which the references were given. A place that an answer lacks is owner
    /// 0 and local address 0.
    pub fn places(
        &self,
        alloc: Global,
        facts: &LoopFacts,
        answers: &NumberLists,
    ) -> Result<Places, Memory>
        requires accepted { IsAccepted facts.now }
        ensures { IfOk result (λ places. (uses : List UseOf) (owners : List (List ℕ)) → IsAsked facts.now uses self.now
            → AreOwners facts.now owners
            → answers.now ≡ answers_of facts.now owners uses → places ≡ map (place_met facts.now owners) uses) }
    {
        let wanted = self.wanted.as_slice();
        let told = tell_all(alloc, answers, wanted)?;
        let decompositions = self.decompositions.as_slice();
        place_all(alloc, &told, decompositions)
    }

    /// An equal value.
    pub fn copy(&self, alloc: Global) -> Result<Asked, Memory>
        ensures { IfOk result (λ asked. asked ≡ self.now) }
    {
        Ok(Asked {
            decompositions: Items::from_slice(alloc, self.decompositions.as_slice())?,
            wanted: self.wanted.copy(alloc)?,
        })
    }
}

fn decompositions_of(
    alloc: Global,
    facts: &LoopFacts,
    uses: &[Use],
) -> Result<Decompositions, Memory>
    ensures { IfOk result (λ numbers. numbers ≡ map (decomposition_met facts.now) uses.now) }
{
    let mut numbers = Decompositions::new(alloc);
    for used in uses {
        numbers.push(decomposition(facts.arrays.as_slice(), used.array))?;
    }
    Ok(numbers)
}

/// The element that a reference reaches, and its page.
fn wanted_row(facts: &LoopFacts, used: Use) -> [i64; 2]
    requires accepted { IsAccepted facts.now }
    requires met { is_met_of facts.now.arrays used ≡ true }
    ensures { result ≡ wanted_row_of facts.now used }
{
    let extent = layout_of(facts, used.array).extent;
    let element = stands_at(facts, used);
    let page = page_of(extent, facts.nodes, element);
    [element as i64, i64::from(page)]
}

/// For each decomposition the elements and their pages.
fn wanted_lists(alloc: Global, facts: &LoopFacts, uses: &[Use]) -> Result<NumberLists, Memory>
    requires accepted { IsAccepted facts.now }
    requires met { AllByRecursion (λ u. is_met_of facts.now.arrays u ≡ true) uses.now }
    ensures { IfOk result (λ lists. lists ≡ dealt_onto (decomposition_met facts.now) (wanted_row_of facts.now)
        (replicate (length facts.now.layouts) []) uses.now) }
{
    let mut lists = NumberLists::empty(alloc, facts.layouts.len() as u32)?;
    for used in uses {
        let at = decomposition(facts.arrays.as_slice(), used.array);
        lists.append_to(u64::from(at), &wanted_row(facts, *used))?;
    }
    Ok(lists)
}
