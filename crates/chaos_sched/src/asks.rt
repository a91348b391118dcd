ghost use Rattle.std.specs.Prelude.{◌≡◌, ◌<◌, ◌^◌, ◌++◌, pos, All, OnOk, IfOk};
ghost use Rattle.std.specs.List.{flat_map};
ghost use Rattle.chaos_sched.specs.Scheduled.{ask_row, ask_to, asks_for, IsSmall};

use crate::needed::needed;
use crate::{Item, Need, Needs};
use fd_words::{Memory, NumberLists, Numbers, Role};
use std::alloc::Global;

/// The number that begins a row which asks to read an element.
pub const READ: u32 = 0;

/// The number that begins a row which offers to write an element.
pub const TARGET: u32 = 1;

/// What a node asks of each node: list `q` has the rows to node `q`, first of the elements that are read
/// and then of those that are written, each in ascending order and once.
pub fn asks_of(alloc: Global, needs: &Needs, nodes: u32) -> Result<NumberLists, Memory>
    requires elements { All (λ n. n.element < 2 ^ 63) needs.now }
    requires locals { All (λ n. n.place.local < 2 ^ 63) needs.now }
    ensures { IfOk result (λ asks. asks ≡ asks_for nodes needs.now) }
{
    let mut asks = NumberLists::new(alloc);
    for owner in 0..nodes {
        asks.push(ask(alloc, needs.as_slice(), owner)?)?;
    }
    Ok(asks)
}

fn ask(alloc: Global, needs: &[Need], owner: u32) -> Result<Numbers, Memory>
    requires elements { All (λ n. n.element < 2 ^ 63) needs.now }
    requires locals { All (λ n. n.place.local < 2 ^ 63) needs.now }
    ensures { IfOk result (λ ask. ask ≡ ask_to owner needs.now) }
{
    let reads = needed(alloc, needs, Role::Read, owner)?;
    let targets = needed(alloc, needs, Role::Target, owner)?;
    let mut ask = Numbers::new(alloc);
    add_rows(&mut ask, READ, reads.as_slice())?;
    add_rows(&mut ask, TARGET, targets.as_slice())?;
    Ok(ask)
}

fn add_rows(ask: &mut Numbers, number: u32, items: &[Item]) -> Result<(), Memory>
    requires { All IsSmall items.now }
    ensures { OnOk result (ask.new ≡ ask.old ++ flat_map (ask_row number) items.now) }
{
    for item in items {
        add_row(ask, number, *item)?;
    }
    Ok(())
}

fn add_row(ask: &mut Numbers, number: u32, item: Item) -> Result<(), Memory>
    requires { IsSmall item }
    ensures { OnOk result (ask.new ≡ ask.old ++ ask_row number item) }
{
    let row = [
        i64::from(number),
        i64::from(item.array),
        item.element as i64,
        item.local as i64,
    ];
    ask.append(row.as_slice())
}
