ghost use Rattle.std.specs.Prelude.{◌≡◌, ◌<◌, [], ◌∷◌, ◌++◌, pos, length, map, IfOk, OnOk};
ghost use Rattle.std.specs.List.{slice_index_or};
ghost use Rattle.chaos_deref.specs.Asking.{answers_to, asks_for};
ghost use Rattle.chaos_moving.specs.Asks.{answers_by, asked_in, asks_named};

use crate::Share;
use chaos_deref::{answer, split_asks};
use chaos_table::Pages;
use fd_words::{Memory, NumberLists, Numbers};
use std::alloc::Global;

/// The elements that the node has, by page, each behind its decomposition.
pub(crate) fn ask_lists(alloc: Global, share: &Share) -> Result<NumberLists, Memory>
    ensures { IfOk result (λ lists. lists ≡ map (asks_named share.now.decomposition)
        (asks_for share.now.extent share.now.nodes share.now.elements)) }
{
    let asks = split_asks(alloc, share.extent, share.nodes, &share.elements)?;
    name_all(alloc, share.decomposition, asks.as_slice())
}

fn name_all(alloc: Global, decomposition: u32, asks: &[Numbers]) -> Result<NumberLists, Memory>
    ensures { IfOk result (λ lists. lists ≡ map (asks_named decomposition) asks.now) }
{
    let mut lists = NumberLists::new(alloc);
    for list in asks {
        lists.push(name_asks(alloc, decomposition, list.as_slice())?)?;
    }
    Ok(lists)
}

fn name_asks(alloc: Global, decomposition: u32, asks: &[i64]) -> Result<Numbers, Memory>
    ensures { IfOk result (λ numbers. numbers ≡ asks_named decomposition asks.now) }
{
    let mut numbers = Numbers::new(alloc);
    for element in asks {
        numbers.push(i64::from(decomposition))?;
        numbers.push(*element)?;
    }
    Ok(numbers)
}

/// The elements that each node asks for.
pub(crate) fn asked_lists(alloc: Global, taken: &NumberLists) -> Result<NumberLists, Memory>
    ensures { IfOk result (λ lists. lists ≡ map asked_in taken.now) }
{
    read_all(alloc, taken.as_slice())
}

fn read_all(alloc: Global, taken: &[Numbers]) -> Result<NumberLists, Memory>
    ensures { IfOk result (λ lists. lists ≡ map asked_in taken.now) }
{
    let mut lists = NumberLists::new(alloc);
    for list in taken {
        lists.push(read_asks(alloc, list.as_slice())?)?;
    }
    Ok(lists)
}

fn read_asks(alloc: Global, taken: &[i64]) -> Result<Numbers, Memory>
    ensures { IfOk result (λ numbers. numbers ≡ asked_in taken.now) }
{
    let mut numbers = Numbers::new(alloc);
    for at in 0..taken.len() / 2 {
        add_number(&mut numbers, taken, 2 * at + 1)?;
    }
    Ok(numbers)
}

fn add_number(numbers: &mut Numbers, taken: &[i64], at: usize) -> Result<(), Memory>
    requires { at < length taken.now }
    ensures { OnOk result (numbers.new ≡ numbers.old ++ slice_index_or taken.now at (pos 0) ∷ []) }
{
    numbers.push(taken[at])
}

/// The places of the elements that each node asks for; none where there is no page.
pub(crate) fn answer_lists(
    alloc: Global,
    page: &Option<Pages>,
    asked: &NumberLists,
) -> Result<NumberLists, Memory>
    ensures { IfOk result (λ lists. lists ≡ answers_by page.now asked.now) }
{
    match page {
        Some(page) => answer_all(alloc, page, asked.as_slice()),
        None => Ok(NumberLists::new(alloc)),
    }
}

fn answer_all(alloc: Global, page: &Pages, asked: &[Numbers]) -> Result<NumberLists, Memory>
    ensures { IfOk result (λ lists. lists ≡ map (answers_to page.now) asked.now) }
{
    let mut lists = NumberLists::new(alloc);
    for list in asked {
        lists.push(answer(alloc, page, list)?)?;
    }
    Ok(lists)
}
