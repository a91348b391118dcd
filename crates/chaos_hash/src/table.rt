//! The hash table's part: entries in the order of the table.
ghost use Rattle.std.specs.Prelude.{◌≡◌, ◌<◌, ◌≤◌, ◌+◌, ◌++◌, ◌∷◌, [], length, map, filter, slice_get, nat_eq, is_some, Option, Some, None};
ghost use Rattle.std.specs.Prelude.{OnOk, OnErr, IfOk, IsSome};
ghost use Rattle.std.specs.FinMap as fin;
ghost use Rattle.std.specs.Ordering.{nat_cmp};
ghost use Rattle.indexmap.specs.IndexMap.{get, spare, insert_entry, index_map_len, Updates, IsUnique};
ghost use Rattle.chaos_hash.specs.Stamps.{less, lives, cleared_list, slots_dying, dying_slot, meets, chosen_list};
ghost use Rattle.chaos_hash.specs.Slots.{given_all};

use crate::Held;
use crate::pool::Pool;
use fd_words::Memory;
use indexmap::IndexMap;
use std::alloc::Global;

pub(crate) type Table = IndexMap<u64, Held>;

/// Makes room for one more entry.
pub(crate) fn make_room(table: &mut Table) -> Result<(), Memory>
    ensures entries { table.new.entries ≡ table.old.entries }
    ensures unique { IsUnique nat_eq table.old }
    ensures room { OnOk result (0 < spare table.new) }
{
    let _count = table.len();
    table.reserve(1)?;
    Ok(())
}

/// Puts an entry, in place of the element's own if it has one.
pub(crate) fn put(table: &mut Table, element: u64, held: Held)
    requires { 0 < spare table.old }
    ensures updates { Updates nat_eq table.old table.new element (Some held) }
    ensures unique { IsUnique nat_eq table.new }
    ensures entries { table.new.entries ≡ insert_entry nat_eq table.old.entries element held }
{
    let _old = table.insert(element, held).unwrap();
}

/// Changes the entry of an element that has one.
pub(crate) fn change(table: &mut Table, element: u64, held: Held)
    requires { IsSome (get nat_eq table.old element) }
    ensures updates { Updates nat_eq table.old table.new element (Some held) }
    ensures unique { IsUnique nat_eq table.new }
    ensures entries { table.new.entries ≡ insert_entry nat_eq table.old.entries element held }
{
    let _old = table.insert(element, held).unwrap();
}

pub(crate) fn lessened(held: Held, stamps: u128) -> Held
    ensures { result ≡ less stamps held }
{
    Held {
        place: held.place,
        mask: held.mask & !stamps,
        slot: held.slot,
    }
}

/// Takes these stamps from all entries, and keeps those that are left with one.
pub(crate) fn keep(table: &mut Table, stamps: u128)
    ensures unique { IsUnique nat_eq table.old }
    ensures entries { table.new.entries ≡ cleared_list stamps table.old.entries }
{
    let _count = table.len();
    table.retain(
        |_element: &u64, held: &mut Held| -> bool
            ensures { (held.new ≡ less stamps held.old) × (result ≡ lives (less stamps held.old)) }
        {
            *held = lessened(*held, stamps);
            held.mask != 0
        },
    );
}

fn give_if_dying(held: Held, stamps: u128, pool: &mut Pool)
    requires { length pool.old.free < length pool.old.holders }
    ensures { pool.new ≡ given_all pool.old (dying_slot stamps held) }
{
    if lessened(held, stamps).mask == 0 {
        pool.give(held.slot);
    }
}

/// Gives back the slots of the entries that are left with no stamp once these are taken.
pub(crate) fn give_dying(table: &Table, stamps: u128, pool: &mut Pool)
    requires { length pool.old.free + length table.now.entries ≤ length pool.old.holders }
    ensures { pool.new ≡ given_all pool.old (slots_dying stamps table.now.entries) }
{
    for i in 0..table.len() {
        let (_element, held) = table.get_index(i).unwrap();
        give_if_dying(*held, stamps, pool);
    }
}

fn note(found: &mut Vec<(u64, Held)>, element: u64, held: Held, mask: u128) -> Result<(), Memory>
    ensures { OnOk result (found.new.items ≡ found.old.items ++ chosen_list mask ((element, held) ∷ [])) }
{
    if held.mask & mask != 0 {
        found.push((element, held))?;
    }
    Ok(())
}

/// The entries with a stamp of the mask.
pub(crate) fn chosen(alloc: Global, table: &Table, mask: u128) -> Result<Vec<(u64, Held)>, Memory>
    ensures unique { IsUnique nat_eq table.now }
    ensures items { IfOk result (λ found. found.items ≡ chosen_list mask table.now.entries) }
{
    let mut found = Vec::new(alloc);
    for i in 0..table.len() {
        let (element, held) = table.get_index(i).unwrap();
        note(&mut found, *element, *held, mask)?;
    }
    Ok(found)
}

/// The entries with a stamp of the mask, ascending by element.
pub(crate) fn chosen_in_order(
    alloc: Global,
    table: &Table,
    mask: u128,
) -> Result<Vec<(u64, Held)>, Memory>
    ensures { IfOk result (λ found. found.items ≡ chosen_list mask (fin.entries (fin.from_entries {R = nat_cmp} table.now.entries))) }
{
    let mut found = chosen(alloc, table, mask)?;
    found.sort_unstable_by_key(
        |entry: &(u64, Held)| -> u64
            ensures { result ≡ entry.now.0 }
        { entry.0 },
    );
    Ok(found)
}

pub(crate) fn copy_table(table: &Table) -> Result<Table, Memory>
    ensures { IfOk result (λ copy. copy.entries ≡ table.now.entries) }
{
    let copy = table.clone()?;
    Ok(copy)
}
