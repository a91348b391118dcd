//! Entering references of other nodes' elements into the stamped tables.
ghost use Rattle.std.specs.Prelude.{◌≡◌, ℕ, [], ◌∷◌, ◌++◌, length, OnOk, IfOk};
ghost use Rattle.std.specs.List.{AllByRecursion, AllZip};
ghost use Rattle.plan_tables.specs.Tables.{entry_at, cleared_by, cleared_all};
ghost use Rattle.fd_program.specs.Checks.{IsReference};
ghost use Rattle.inspect_enter.specs.Placed.{MayBeStamped, IsFound, HaveGrown, AllCome};
ghost use Rattle.inspect_uses.specs.Accepted.{IsAccepted};

use crate::placed::Placed;
use chaos_sched::{LocalRef, LocalRefs};
use fd_program::{LoopFacts, Reference, decomposition};
use fd_words::{Memory, Role};
use inspect_uses::stands_at;
use node_tables::TableSet;
use std::alloc::Global;

/// Takes the stamp of a reference from all entries.
fn clear_one(facts: &LoopFacts, reference: &Reference, tables: &mut TableSet)
    requires accepted { IsAccepted facts.now }
    requires tables { length tables.old ≡ length facts.now.layouts }
    requires reference { IsReference facts.now.arrays reference.now }
    ensures entries { (d e : ℕ) → entry_at tables.new d e ≡ cleared_by facts.now d reference.now (entry_at tables.old d e) }
    ensures count { length tables.new ≡ length tables.old }
{
    match reference.role {
        Role::Index => {}
        Role::Read | Role::Target => {
            let number = decomposition(facts.arrays.as_slice(), reference.array);
            tables.clear(number, reference.stamp);
        }
    }
}

/// Takes the loop's stamps from all entries, and takes no memory.
pub(crate) fn clear_own(facts: &LoopFacts, tables: &mut TableSet)
    requires accepted { IsAccepted facts.now }
    requires tables { length tables.old ≡ length facts.now.layouts }
    ensures entries { (d e : ℕ) → entry_at tables.new d e ≡ cleared_all facts.now d facts.now.site.references (entry_at tables.old d e) }
    ensures count { length tables.new ≡ length tables.old }
{
    let references = facts.site.references.as_slice();
    for reference in references {
        clear_one(facts, reference, tables);
    }
}

/// A local address, or the slot of another node's element, which gets the reference's stamp.
fn enter_one(
    facts: &LoopFacts,
    me: u32,
    placed: Placed,
    tables: &mut TableSet,
) -> Result<LocalRef, Memory>
    requires accepted { IsAccepted facts.now }
    requires tables { length tables.old ≡ length facts.now.layouts }
    requires kept { MayBeStamped facts.now placed.used }
    ensures found { IfOk result (IsFound facts.now me tables.new placed) }
    ensures grown { HaveGrown tables.old tables.new }
    ensures come { AllCome facts.now me tables.old (placed ∷ []) tables.new }
    ensures count { length tables.new ≡ length tables.old }
{
    if placed.place.owner == me {
        Ok(LocalRef::Here(placed.place.local))
    } else {
        let number = decomposition(facts.arrays.as_slice(), placed.used.array);
        let element = stands_at(facts, placed.used);
        let slot = tables.enter(number, element, placed.place, placed.used.stamp)?;
        Ok(LocalRef::Ghost(slot))
    }
}

fn keep(references: &mut LocalRefs, local: LocalRef) -> Result<(), Memory>
    ensures { OnOk result (references.new ≡ references.old ++ local ∷ []) }
{
    references.push(local)?;
    Ok(())
}

/// Each reference in order as a local address, where it is node `me`'s, or as the slot of its element,
/// which gets the reference's stamp. Where memory is wanting, some of them are entered.
pub(crate) fn enter_all(
    alloc: Global,
    facts: &LoopFacts,
    me: u32,
    placed: &[Placed],
    tables: &mut TableSet,
) -> Result<LocalRefs, Memory>
    requires accepted { IsAccepted facts.now }
    requires tables { length tables.old ≡ length facts.now.layouts }
    requires kept { AllByRecursion (λ x. MayBeStamped facts.now x.used) placed.now }
    ensures found { IfOk result (λ references. AllZip (IsFound facts.now me tables.new) placed.now references) }
    ensures grown { HaveGrown tables.old tables.new }
    ensures come { AllCome facts.now me tables.old placed.now tables.new }
    ensures count { length tables.new ≡ length tables.old }
{
    let mut references = LocalRefs::new(alloc);
    for item in placed {
        let local = enter_one(facts, me, *item, tables)?;
        keep(&mut references, local)?;
    }
    Ok(references)
}
