ghost use Rattle.std.specs.Prelude.{◌≡◌, map, IfOk};
ghost use Rattle.std.specs.List.{range_with_len};
ghost use Rattle.fd_words.specs.Lists.{list_at};
ghost use Rattle.chaos_sched.specs.Scheduled.{needed_from, asked_by};
ghost use Rattle.chaos_sched.specs.Schedules.{schedule_of};

use crate::asked::asked;
use crate::asks::{READ, TARGET};
use crate::needed::needed;
use crate::{ItemLists, Items, Needs};
use fd_words::{Memory, NumberLists, Role};
use std::alloc::Global;

/// For each other node the items to send and to fetch at a gather, and to send and to take at a
/// scatter, each list ascending by array and element, with each element once.
#[derive(Debug, Drop)]
pub struct Schedule {
    pub gather_send: ItemLists,
    pub gather_fetch: ItemLists,
    pub scatter_send: ItemLists,
    pub scatter_take: ItemLists,
}

/// The schedule from a node's own needs and the rows that each node asks of it, one list per node.
pub fn from_asks(
    alloc: Global,
    needs: &Needs,
    asks: &NumberLists,
    nodes: u32,
) -> Result<Schedule, Memory>
    ensures { IfOk result (λ s. s ≡ schedule_of nodes needs.now asks.now) }
{
    let gather_send = asked_lists(alloc, asks, READ, nodes)?;
    let gather_fetch = needed_lists(alloc, needs, Role::Read, nodes)?;
    let scatter_send = needed_lists(alloc, needs, Role::Target, nodes)?;
    let scatter_take = asked_lists(alloc, asks, TARGET, nodes)?;
    Ok(Schedule {
        gather_send,
        gather_fetch,
        scatter_send,
        scatter_take,
    })
}

fn asked_lists(
    alloc: Global,
    asks: &NumberLists,
    number: u32,
    nodes: u32,
) -> Result<ItemLists, Memory>
    ensures { IfOk result (λ lists. lists ≡ map (λ q. asked_by number (list_at asks.now q)) (range_with_len 0 nodes)) }
{
    let mut lists = ItemLists::new(alloc);
    for node in 0..nodes {
        let items = asked(alloc, rows_of(asks, node), number)?;
        lists.push(Items::from_vec(items))?;
    }
    Ok(lists)
}

fn rows_of(asks: &NumberLists, node: u32) -> &[i64]
    ensures { result.now ≡ list_at asks.now node }
{
    let Some(rows) = asks.get(u64::from(node)) else {
        return &[];
    };
    rows.as_slice()
}

fn needed_lists(alloc: Global, needs: &Needs, role: Role, nodes: u32) -> Result<ItemLists, Memory>
    ensures { IfOk result (λ lists. lists ≡ map (λ q. needed_from role q needs.now) (range_with_len 0 nodes)) }
{
    let mut lists = ItemLists::new(alloc);
    let all = needs.as_slice();
    for owner in 0..nodes {
        let items = needed(alloc, all, role, owner)?;
        lists.push(Items::from_vec(items))?;
    }
    Ok(lists)
}

impl Schedule {
    /// An equal schedule.
    pub fn copy(&self, alloc: Global) -> Result<Schedule, Memory>
        ensures { IfOk result (λ s. s ≡ self.now) }
    {
        Ok(Schedule {
            gather_send: copy_lists(alloc, &self.gather_send)?,
            gather_fetch: copy_lists(alloc, &self.gather_fetch)?,
            scatter_send: copy_lists(alloc, &self.scatter_send)?,
            scatter_take: copy_lists(alloc, &self.scatter_take)?,
        })
    }
}

fn copy_lists(alloc: Global, lists: &ItemLists) -> Result<ItemLists, Memory>
    ensures { IfOk result (λ copy. copy ≡ lists.now) }
{
    let mut copy = ItemLists::new(alloc);
    let all = lists.as_slice();
    for items in all {
        copy.push(Items::from_slice(alloc, items.as_slice())?)?;
    }
    Ok(copy)
}
