ghost use Rattle.std.specs.Prelude.{◌≡◌, ◌<◌, length, map, slice_get, unwrap_or, IfOk, OnOk};
ghost use Rattle.chaos_dist.specs.Counting.{below};
ghost use Rattle.chaos_hash.specs.Stamps.{IsStamped};
ghost use Rattle.plan_tables.specs.Tables.{table_at};
ghost use Rattle.chaos_executing.specs.Ghosts.{AreStamped, ghosts_below, no_ghosts};

use fd_program::{ArrayFacts, LoopFacts};
use fd_words::{Memory, NumberLists, Numbers};
use node_tables::TableSet;
use std::alloc::Global;

/// Zero ghosts: each array has as many as its decomposition's table ever had entries. `Memory` also
/// where there are 2^32 tables.
pub(crate) fn empty_ghosts(
    alloc: Global,
    facts: &LoopFacts,
    tables: &TableSet,
) -> Result<NumberLists, Memory>
    ensures ghosts { IfOk result (λ ghosts. ghosts ≡ no_ghosts facts.now tables.now) }
    ensures stamped { OnOk result (AreStamped tables.now) }
{
    let peaks = peaks(alloc, tables)?;
    let ghosts = ghosts_for(alloc, facts.arrays.as_slice(), peaks.as_slice())?;
    Ok(ghosts)
}

/// The greatest number of entries that each table ever had.
fn peaks(alloc: Global, tables: &TableSet) -> Result<Vec<u32>, Memory>
    ensures peaks { IfOk result (λ peaks. peaks.items ≡ map (λ d. (table_at tables.now d).peak) (below (length tables.now))) }
    ensures stamped { OnOk result (AreStamped tables.now) }
{
    let count = tables.len();
    if count > 0xffff_ffff {
        return Err(Memory);
    }
    let mut peaks = Vec::new(alloc);
    for d in 0..count {
        peaks.push(peak(tables, d as u32))?;
    }
    Ok(peaks)
}

fn peak(tables: &TableSet, decomposition: u32) -> u32
    requires { decomposition < length tables.now }
    ensures peak { result ≡ (table_at tables.now decomposition).peak }
    ensures stamped { IsStamped (table_at tables.now decomposition) }
{
    let table = tables.table(decomposition);
    table.peak()
}

fn ghosts_for(alloc: Global, arrays: &[ArrayFacts], peaks: &[u32]) -> Result<NumberLists, Memory>
    ensures { IfOk result (λ ghosts. ghosts ≡ ghosts_below arrays.now peaks.now) }
{
    let mut ghosts = NumberLists::new(alloc);
    for array in arrays {
        ghosts.push(Numbers::zeros(alloc, u64::from(peak_of(peaks, array.decomposition)))?)?;
    }
    Ok(ghosts)
}

fn peak_of(peaks: &[u32], decomposition: u32) -> u32
    ensures { result ≡ unwrap_or (slice_get peaks.now decomposition) 0 }
{
    peaks.get(decomposition as usize).copied().unwrap_or(0)
}
