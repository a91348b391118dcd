ghost use Rattle.std.specs.Prelude.{◌≡◌, ℕ, ◌<◌, ◌≤◌, ◌+◌, ◌++◌, ◌∷◌, [], length, take, All, OnOk, OnErr, IfOk};
ghost use Rattle.std.specs.List.{AllZip};
ghost use Rattle.std.specs.FinMap as fin;
ghost use Rattle.chaos_localise.specs.Local.{bare, after_items, IsLocal, KeepsSlots};

use crate::{Entered, EnteredList};
use chaos_hash::StampTable;
use chaos_sched::{LocalRef, LocalRefs};
use fd_words::Memory;
use std::alloc::Global;

/// Each item in order as a local address, where its place is on node `me`, or as the slot of its
/// element, which gets the item's stamp. Where memory is wanting, the items before some item are
/// entered. The table's entries keep their slots.
pub fn localise(
    alloc: Global,
    list: &EnteredList,
    table: &mut StampTable,
    me: u32,
) -> Result<LocalRefs, Memory>
    requires stamps { All (λ i. i.stamp < 128) list.now }
    requires few { fin.len table.old.held + length list.now < 4294967295 }
    ensures seen { OnOk result ((q : ℕ) → bare (fin.get table.new.held q) ≡ after_items me q list.now (bare (fin.get table.old.held q))) }
    ensures local { IfOk result (λ refs. AllZip (IsLocal me table.new.held) list.now refs) }
    ensures keeps { KeepsSlots table.old.held table.new.held }
    ensures memory { OnErr result ((n : ℕ)
        × ((q : ℕ) → bare (fin.get table.new.held q) ≡ after_items me q (take n list.now) (bare (fin.get table.old.held q)))) }
{
    let mut refs = LocalRefs::new(alloc);
    let items = list.as_slice();
    for item in items {
        let local = one(*item, table, me)?;
        keep(&mut refs, local)?;
    }
    Ok(refs)
}

fn one(item: Entered, table: &mut StampTable, me: u32) -> Result<LocalRef, Memory>
    requires stamp { item.stamp < 128 }
    requires few { fin.len table.old.held < 4294967295 }
    ensures seen { OnOk result ((q : ℕ) → bare (fin.get table.new.held q) ≡ after_items me q (item ∷ [])
        (bare (fin.get table.old.held q))) }
    ensures local { IfOk result (IsLocal me table.new.held item) }
    ensures keeps { KeepsSlots table.old.held table.new.held }
    ensures few { fin.len table.new.held ≤ fin.len table.old.held + 1 }
    ensures err { OnErr result (table.new ≡ table.old) }
{
    if item.place.owner == me {
        Ok(LocalRef::Here(item.place.local))
    } else {
        let slot = table.enter(item.element, item.place, item.stamp)?;
        Ok(LocalRef::Ghost(slot))
    }
}

fn keep(refs: &mut LocalRefs, local: LocalRef) -> Result<(), Memory>
    ensures { OnOk result (refs.new ≡ refs.old ++ local ∷ []) }
{
    refs.push(local)?;
    Ok(())
}
