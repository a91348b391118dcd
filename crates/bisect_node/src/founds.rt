//! The keys of the cuts, found bit by bit.
ghost use Rattle.std.specs.Prelude.{◌≡◌, ◌≤◌, ◌<◌, ◌-◌, ◌^◌, map, IfOk};
ghost use Rattle.bisect_node.specs.Steps.{found_by};

use crate::cuts::{Cut, found_at};
use crate::numbers::sum_at;
use chaos_cut::next_found;
use chaos_letter::Letter;
use fd_words::{Memory, Numbers};
use sqlite_items::Items;
use std::alloc::Global;

/// The power of two of a bit.
pub fn power_of(bits: u32) -> u128
    ensures { result ≡ 2 ^ (83 - bits) }
{
    1u128 << 83u32.saturating_sub(bits)
}

/// Nothing found yet of each cut.
pub fn zeros_of(alloc: Global, cuts: &[Cut]) -> Result<Items<u128>, Memory>
    ensures { IfOk result (λ found. found ≡ map (λ _. 0) cuts.now) }
{
    let mut found = Items::new(alloc);
    for _cut in cuts {
        found.push(0)?;
    }
    Ok(found)
}

/// The numbers found next for all cuts.
pub fn found_next(
    alloc: Global,
    power: u128,
    told: &Numbers,
    got: &[Letter],
    cuts: &[Cut],
    found: &[u128],
) -> Result<Items<u128>, Memory>
    ensures { IfOk result (λ next. next ≡ found_by power told.now got.now cuts.now found.now) }
{
    let mut next = Items::new(alloc);
    for (at, cut) in cuts.iter().enumerate() {
        let sum = sum_at(told, got, at as u64);
        next.push(next_found(found_at(found, at), power, sum, cut.goal))?;
    }
    Ok(next)
}
