ghost use Rattle.std.specs.Prelude.{◌≡◌, ◌++◌, ◌∷◌, [], OnOk, IfOk};
ghost use Rattle.std.specs.FinMap as fin;
ghost use Rattle.chaos_hash.specs.Stamps.{chosen_list};
ghost use Rattle.chaos_merge.specs.Merged.{by_owner, beyond_list, unstamped, number_of};
ghost use Rattle.fd_words.specs.Lists.{pushed_at};

use chaos_hash::{Held, HeldList, StampTable};
use fd_words::{Memory, NumberLists};
use std::alloc::Global;

/// For each owner the elements with a stamp of the mask, ascending. Entries whose owner isn't one of the
/// nodes are left out.
pub fn merged(
    alloc: Global,
    table: &StampTable,
    mask: u128,
    nodes: u32,
) -> Result<NumberLists, Memory>
    ensures { IfOk result (λ lists. lists ≡ by_owner nodes (chosen_list mask (fin.entries table.now.held))) }
{
    let found = table.entries_with(alloc, mask)?;
    for_owners(alloc, found.as_slice(), nodes)
}

/// For each owner the elements with a stamp of the mask and none of `held`, ascending. Entries whose
/// owner isn't one of the nodes are left out.
pub fn beyond(
    alloc: Global,
    table: &StampTable,
    mask: u128,
    held: u128,
    nodes: u32,
) -> Result<NumberLists, Memory>
    ensures { IfOk result (λ lists. lists ≡ by_owner nodes (beyond_list mask held (fin.entries table.now.held))) }
{
    let found = table.entries_with(alloc, mask)?;
    let more = without(alloc, found.as_slice(), held)?;
    for_owners(alloc, more.as_slice(), nodes)
}

/// The entries with no stamp of the mask.
fn without(alloc: Global, found: &[(u64, Held)], mask: u128) -> Result<HeldList, Memory>
    ensures { IfOk result (λ more. more ≡ unstamped mask found.now) }
{
    let mut more = HeldList::new(alloc);
    for entry in found {
        keep(&mut more, *entry, mask)?;
    }
    Ok(more)
}

fn keep(more: &mut HeldList, entry: (u64, Held), mask: u128) -> Result<(), Memory>
    ensures { OnOk result (more.new ≡ more.old ++ unstamped mask (entry ∷ [])) }
{
    if entry.1.mask & mask == 0 {
        more.push(entry)?;
    }
    Ok(())
}

/// The elements of these entries in a list for each owner.
fn for_owners(alloc: Global, found: &[(u64, Held)], nodes: u32) -> Result<NumberLists, Memory>
    ensures { IfOk result (λ lists. lists ≡ by_owner nodes found.now) }
{
    let mut lists = NumberLists::empty(alloc, nodes)?;
    for entry in found {
        note(&mut lists, *entry)?;
    }
    Ok(lists)
}

fn note(lists: &mut NumberLists, entry: (u64, Held)) -> Result<(), Memory>
    ensures { OnOk result (lists.new ≡ pushed_at lists.old entry.1.place.owner (number_of entry.0)) }
{
    lists.push_to(u64::from(entry.1.place.owner), entry.0.cast_signed())
}
