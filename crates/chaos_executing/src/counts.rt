ghost use Rattle.std.specs.Prelude.{◌≡◌, ◌*◌, length, map, sum_by, IfOk};

use chaos_sched::{ItemLists, Items, Prepared};
use fd_words::{Memory, count_sum};
use std::alloc::Global;

/// How many numbers each node's Gather letter to this node has: three for each item that is fetched
/// from it. `Memory` also where a letter would have more than 2^62 items.
pub fn gather_counts(alloc: Global, prepared: &Prepared) -> Result<Vec<u64>, Memory>
    ensures { IfOk result (λ counts. counts.items ≡ map (λ items. 3 * length items) prepared.now.schedule.gather_fetch) }
{
    row_counts(alloc, &prepared.schedule.gather_fetch)
}

/// How many numbers each node's Scatter letter to this node has: three for each item that is taken
/// from it. `Memory` also where a letter would have more than 2^62 items.
pub fn scatter_counts(alloc: Global, prepared: &Prepared) -> Result<Vec<u64>, Memory>
    ensures { IfOk result (λ counts. counts.items ≡ map (λ items. 3 * length items) prepared.now.schedule.scatter_take) }
{
    row_counts(alloc, &prepared.schedule.scatter_take)
}

/// How many elements an execution gathers and how many it scatters: those that are fetched from other
/// nodes, and those that are sent to them. `Memory` also where there would be 2^64 of them.
pub fn counts_of(prepared: &Prepared) -> Result<(u64, u64), Memory>
    ensures gathered { IfOk result (λ counts. counts.0 ≡ sum_by (λ items. length items) prepared.now.schedule.gather_fetch) }
    ensures scattered { IfOk result (λ counts. counts.1 ≡ sum_by (λ items. length items) prepared.now.schedule.scatter_send) }
{
    let gathered = total(&prepared.schedule.gather_fetch)?;
    let scattered = total(&prepared.schedule.scatter_send)?;
    Ok((gathered, scattered))
}

fn row_counts(alloc: Global, lists: &ItemLists) -> Result<Vec<u64>, Memory>
    ensures { IfOk result (λ counts. counts.items ≡ map (λ items. 3 * length items) lists.now) }
{
    let mut counts = Vec::new(alloc);
    let all = lists.as_slice();
    for items in all {
        counts.push(row_count(items)?)?;
    }
    Ok(counts)
}

fn row_count(items: &Items) -> Result<u64, Memory>
    ensures { IfOk result (λ count. count ≡ 3 * length items.now) }
{
    let count = items.len() as u64;
    if count <= 0x4000_0000_0000_0000 {
        Ok(3 * count)
    } else {
        Err(Memory)
    }
}

fn total(lists: &ItemLists) -> Result<u64, Memory>
    ensures { IfOk result (λ total. total ≡ sum_by (λ items. length items) lists.now) }
{
    let mut total = 0u64;
    let all = lists.as_slice();
    for items in all {
        total = count_sum(total, items.len() as u64)?;
    }
    Ok(total)
}
