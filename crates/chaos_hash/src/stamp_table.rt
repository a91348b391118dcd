ghost use Rattle.std.specs.Prelude.{◌≡◌, ◌≢◌, ℕ, ◌<◌, ◌+◌, pos, max, map, filter, MatchOption, OnOk, OnErr, IfOk};
ghost use Rattle.std.specs.FinMap as fin;
ghost use Rattle.chaos_hash.specs.Stamps.{entered, cleared, mask_of, chosen_list, chosen_slots, IsFree, IsEntryAt, IsStamped};
ghost use Rattle.chaos_hash.specs.Laws.{StaysWhenEntered, StaysWhenCleared};

use crate::pool::Pool;
use crate::table::{Table, change, chosen_in_order, copy_table, give_dying, keep, make_room, put};
use crate::{Held, HeldList};
use fd_words::{Memory, Numbers, Place};
use indexmap::IndexMap;
use std::alloc::Global;
use std::marker::Model;

/// Entries with stamps, seen in the order of their elements, and the greatest number that ever lived at
/// once. An entry lives exactly while it has a stamp.
#[derive(Drop)]
pub struct StampTable {
    table: Table,
    pool: Pool,
}

impl Model for StampTable {
    ghost use Rattle.std.specs.Prelude.{length};
    ghost use Rattle.std.specs.FinMap as fin;
    ghost use Rattle.chaos_hash.specs.Stamps.{Stamps, stamps_code, IsKept};

    ghost Value = { Stamps };

    ghost coded = { stamps_code };

    ghost view = { λ t. record { held = fin.from_entries t.table.entries; peak = length t.pool.holders } };

    ghost invariant = { λ t. IsKept t.table.entries t.pool };
}

/// The mask of one stamp.
fn mask(stamp: u32) -> u128
    requires { stamp < 128 }
    ensures { result ≡ mask_of stamp }
{
    1u128 << stamp
}

fn stamped(held: Held, stamp: u32) -> Held
    requires { stamp < 128 }
    ensures { result ≡ entered (Some held) held.place stamp held.slot }
{
    Held {
        place: held.place,
        mask: held.mask | mask(stamp),
        slot: held.slot,
    }
}

impl StampTable {
    /// A table with no entry, which takes no memory.
    pub fn new(alloc: Global) -> StampTable
        ensures held { result.held ≡ fin.empty }
        ensures peak { result.peak ≡ 0 }
    {
        StampTable {
            table: IndexMap::new(alloc),
            pool: Pool::new(alloc),
        }
    }

    /// Gives an element a stamp, and tells its slot. One that lives keeps its slot and its place; another
    /// gets a slot that no living entry has.
    pub fn enter(&mut self, element: u64, place: Place, stamp: u32) -> Result<u32, Memory>
        requires stamp { stamp < 128 }
        requires few { fin.len self.old.held < 4294967295 }
        ensures entered { IfOk result (λ slot. self.new.held ≡ fin.insert self.old.held element
            (entered (fin.get self.old.held element) place stamp slot)) }
        ensures slot { IfOk result (λ slot. MatchOption (fin.get self.old.held element) (IsFree self.old.held slot) (λ h. slot ≡ h.slot)) }
        ensures below { IfOk result (λ slot. slot < self.new.peak) }
        ensures peak { OnOk result (self.new.peak ≡ max self.old.peak (fin.len self.new.held)) }
        ensures err { OnErr result (self.new ≡ self.old) }
    {
        match self.table.get(&element) {
            Some(held) => {
                let held = *held;
                change(&mut self.table, element, stamped(held, stamp));
                Ok(held.slot)
            }
            None => {
                make_room(&mut self.table)?;
                let slot = self.pool.take(element)?;
                let mask = mask(stamp);
                put(&mut self.table, element, Held { place, mask, slot });
                Ok(slot)
            }
        }
    }

    /// Takes these stamps from all entries.
    fn clear_all(&mut self, stamps: u128)
        ensures held { (q : ℕ) → fin.get self.new.held q ≡ cleared stamps (fin.get self.old.held q) }
        ensures peak { self.new.peak ≡ self.old.peak }
    {
        give_dying(&self.table, stamps, &mut self.pool);
        keep(&mut self.table, stamps);
    }

    /// Takes a stamp from all entries, and takes no memory.
    pub fn clear(&mut self, stamp: u32)
        requires { stamp < 128 }
        ensures held { (q : ℕ) → fin.get self.new.held q ≡ cleared (mask_of stamp) (fin.get self.old.held q) }
        ensures peak { self.new.peak ≡ self.old.peak }
    {
        self.clear_all(mask(stamp));
    }

    /// Leaves no entry, and takes no memory.
    pub fn drop_all(&mut self)
        ensures held { self.new.held ≡ fin.empty }
        ensures peak { self.new.peak ≡ self.old.peak }
    {
        self.clear_all(u128::MAX);
    }

    /// The greatest number of entries that ever lived at once: every slot is below it.
    pub fn peak(&self) -> u32
        ensures facts { IsStamped self.now }
        ensures peak { result ≡ self.now.peak }
    {
        let _count = self.table.len();
        self.pool.count() as u32
    }

    /// The element and the place of the entry with this slot.
    pub fn entry(&self, slot: u32) -> Option<(u64, Place)>
        ensures { MatchOption result (IsFree self.now.held slot) (IsEntryAt self.now.held slot) }
    {
        match self.pool.holder(slot) {
            Some(element) => match self.table.get(&element) {
                Some(held) => {
                    if held.slot == slot {
                        Some((element, held.place))
                    } else {
                        None
                    }
                }
                None => None,
            },
            None => None,
        }
    }

    /// The slots of the entries with a stamp of the mask, ascending by element.
    pub fn slots_with(&self, alloc: Global, mask: u128) -> Result<Numbers, Memory>
        ensures { IfOk result (λ slots. slots ≡ chosen_slots mask self.now.held) }
    {
        let found = chosen_in_order(alloc, &self.table, mask)?;
        slots_of(alloc, &found)
    }

    /// The entries with a stamp of the mask, ascending by element.
    pub fn entries_with(&self, alloc: Global, mask: u128) -> Result<HeldList, Memory>
        ensures { IfOk result (λ found. found ≡ chosen_list mask (fin.entries self.now.held)) }
    {
        let found = chosen_in_order(alloc, &self.table, mask)?;
        Ok(HeldList::from_vec(found))
    }

    /// An equal table.
    pub fn copy(&self, alloc: Global) -> Result<StampTable, Memory>
        ensures { IfOk result (λ t. t ≡ self.now) }
    {
        let table = copy_table(&self.table)?;
        let pool = self.pool.copy(alloc)?;
        Ok(StampTable { table, pool })
    }
}

fn slots_of(alloc: Global, found: &[(u64, Held)]) -> Result<Numbers, Memory>
    ensures { IfOk result (λ slots. slots ≡ map (λ e. pos e.1.slot) found.now) }
{
    let mut slots = Numbers::new(alloc);
    for entry in found {
        slots.push(i64::from(entry.1.slot))?;
    }
    Ok(slots)
}

/// An entry keeps each stamp that it has while other stamps are entered or cleared, and with it its place and its slot.
pub fn stamps_stay()
    ensures entered { StaysWhenEntered }
    ensures cleared { StaysWhenCleared }
{}
