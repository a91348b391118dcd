ghost use Rattle.std.specs.Prelude.{◌≡◌, ◌<◌, ◌^◌, ℕ, ℤ, List, length, IfOk};
ghost use Rattle.chaos_hash.specs.Stamps.{Stamps};
ghost use Rattle.plan_tables.specs.Fits.{Fits};
ghost use Rattle.plan_loop.specs.LoopLetters.{sent_in, owed_in};
ghost use Rattle.plan_loop.specs.declared.loop_phase.LoopPhase.TheVariants.{ScheduleAsk};
ghost use Rattle.inspect_enter.specs.Preparing.{AreGiven, IsEntering, IsSettled};
ghost use Rattle.plan_tables.specs.Tables.{KeepsOtherStamps, HasPlaces, slots_entered};
ghost use Rattle.inspect_uses.specs.Accepted.{IsAccepted};

use crate::Entering;
use crate::entries::{clear_own, enter_all};
use crate::needs::needs_of;
use crate::placing::place_all;
use crate::rows::read_rows;
use chaos_sched::{LocalRefs, Needs, Prepared, asks_of, from_asks};
use fd_program::LoopFacts;
use fd_words::{Memory, NumberLists, Place};
use node_tables::TableSet;
use std::alloc::Global;

/// Enters the references of a node's iterations: the loop's stamps are taken from all entries and given
/// anew to the elements of other nodes that its references reach. `rows` has each iteration with the
/// values of its index references, and `places` has for each reference in a decomposition with a map
/// the place of its element, by iteration and reference number. All other stamps stay, also where memory
/// is wanting.
pub fn enter(
    alloc: Global,
    facts: &LoopFacts,
    me: u32,
    rows: &[i64],
    places: &[Place],
    tables: &mut TableSet,
) -> Result<Entering, Memory>
    requires accepted { IsAccepted facts.now }
    requires tables { length tables.old ≡ length facts.now.layouts }
    ensures entering { IfOk result (λ x. (owners : List (List ℕ)) (store : List (List ℤ))
        → AreGiven facts.now owners store me rows.now places.now
        → IsEntering facts.now owners store me tables.new x) }
    ensures places { (owners : List (List ℕ)) (store : List (List ℤ)) → AreGiven facts.now owners store me rows.now places.now
        → HasPlaces owners tables.old → HasPlaces owners tables.new }
    ensures others { KeepsOtherStamps facts.now tables.old tables.new }
    ensures count { length tables.new ≡ length tables.old }
{
    let own = read_rows(alloc, facts, rows)?;
    let placed = place_all(alloc, facts, own.uses.as_slice(), places)?;
    clear_own(facts, tables);
    let references = enter_all(alloc, facts, me, placed.as_slice(), tables)?;
    let needs = needs_of(alloc, facts, placed.as_slice(), references.as_slice())?;
    Ok(Entering {
        iterations: own.iterations,
        references,
        needs,
    })
}

impl Entering {
    /// An equal value.
    pub fn copy(&self, alloc: Global) -> Result<Entering, Memory>
        ensures { IfOk result (λ x. x ≡ self.now) }
    {
        Ok(Entering {
            iterations: self.iterations.copy(alloc)?,
            references: LocalRefs::from_slice(alloc, self.references.as_slice())?,
            needs: Needs::from_slice(alloc, self.needs.as_slice())?,
        })
    }

    /// What the node asks of each node: for the elements that its references read, and for those that they
    /// assign or reduce into.
    pub fn asks(&self, alloc: Global, facts: &LoopFacts) -> Result<NumberLists, Memory>
        ensures { IfOk result (λ asks. (owners : List (List ℕ)) (store : List (List ℤ)) (p : ℕ) (tables : List Stamps)
            → IsSettled facts.now owners store → IsEntering facts.now owners store p tables self.now
            → asks ≡ sent_in facts.now owners store ScheduleAsk p) }
    {
        asks_of(alloc, &self.needs, facts.nodes)
    }

    /// The prepared loop, where these are the asks of each node. Faulty rows are passed over.
    pub fn finish(
        &self,
        alloc: Global,
        facts: &LoopFacts,
        taken: &NumberLists,
    ) -> Result<Prepared, Memory>
        ensures { IfOk result (λ kept. (owners : List (List ℕ)) (store : List (List ℤ)) (p : ℕ) (tables : List Stamps)
            → IsSettled facts.now owners store → IsEntering facts.now owners store p tables self.now
            → taken.now ≡ owed_in facts.now owners store ScheduleAsk p
            → Fits facts.now owners store (slots_entered facts.now tables) p kept) }
    {
        let iterations = self.iterations.copy(alloc)?;
        let references = LocalRefs::from_slice(alloc, self.references.as_slice())?;
        let schedule = from_asks(alloc, &self.needs, taken, facts.nodes)?;
        Ok(Prepared {
            iterations,
            references,
            schedule,
        })
    }
}
