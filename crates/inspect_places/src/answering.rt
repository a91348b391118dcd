ghost use Rattle.std.specs.Prelude.{◌≡◌, ◌++◌, ◌+◌, ◌<◌, ℕ, ℤ, List, length, map, pos, IfOk, OnOk};
ghost use Rattle.std.specs.List.{slice_index_or};
ghost use Rattle.plan_loop.specs.LoopLetters.{owed_in, sent_in};
ghost use Rattle.plan_loop.specs.declared.loop_phase.Asking.{Asking};
ghost use Rattle.plan_loop.specs.declared.loop_phase.LoopPhase.TheVariants as phase;
ghost use Rattle.inspect_uses.specs.Accepted.{IsAccepted, AreOwners};
ghost use Rattle.inspect_places.specs.Asks.{ArePages};
ghost use Rattle.inspect_places.specs.Telling.{answer_row, place_on_page, place_asked, told_by};

use chaos_deref::{append_place, place_of};
use chaos_table::Pages;
use fd_program::LoopFacts;
use fd_words::{Memory, NumberLists, Numbers, Place};
use sqlite_items::Items;
use std::alloc::Global;

/// A node's page of each decomposition's translation table; none of one whose form is regular.
pub type PageSet = Items<Option<Pages>>;

/// Owner and local address of each element that each node asks for; 0 and 0 where no page tells it.
pub fn answers(
    alloc: Global,
    facts: &LoopFacts,
    pages: &PageSet,
    asked: &NumberLists,
) -> Result<NumberLists, Memory>
    requires accepted { IsAccepted facts.now }
    ensures { IfOk result (λ lists. (owners : List (List ℕ)) (store : List (List ℤ)) (me : ℕ) (asking : Asking)
        → AreOwners facts.now owners → ArePages facts.now me owners pages.now
        → asked.now ≡ owed_in facts.now owners store (phase.DerefAsk asking) me
        → lists ≡ sent_in facts.now owners store (phase.DerefAnswer asking) me) }
{
    let pages = pages.as_slice();
    let asked = asked.as_slice();
    answer_all(alloc, pages, asked)
}

fn answer_all(
    alloc: Global,
    pages: &[Option<Pages>],
    asked: &[Numbers],
) -> Result<NumberLists, Memory>
    ensures { IfOk result (λ lists. lists ≡ map (told_by pages.now) asked.now) }
{
    let mut lists = NumberLists::new(alloc);
    for list in asked {
        lists.push(answer(alloc, pages, list.as_slice())?)?;
    }
    Ok(lists)
}

fn answer(alloc: Global, pages: &[Option<Pages>], asked: &[i64]) -> Result<Numbers, Memory>
    ensures { IfOk result (λ numbers. numbers ≡ told_by pages.now asked.now) }
{
    let mut numbers = Numbers::new(alloc);
    for i in 0..asked.len() / 2 {
        answer_at(pages, asked, 2 * i, &mut numbers)?;
    }
    Ok(numbers)
}

fn answer_at(
    pages: &[Option<Pages>],
    asked: &[i64],
    at: usize,
    numbers: &mut Numbers,
) -> Result<(), Memory>
    requires { at + 1 < length asked.now }
    ensures { OnOk result (numbers.new ≡ numbers.old ++ answer_row pages.now (
      slice_index_or asked.now at (pos 0),
      slice_index_or asked.now (at + 1) (pos 0),
    )) }
{
    append_place(numbers, place(pages, asked[at], asked[at + 1]))
}

/// The place of an element of a decomposition.
fn place(pages: &[Option<Pages>], decomposition: i64, element: i64) -> Place
    ensures { result ≡ place_asked pages.now (decomposition, element) }
{
    match u64::try_from(decomposition) {
        Ok(at) => place_at(pages, at, element),
        Err(_) => Place { owner: 0, local: 0 },
    }
}

fn place_at(pages: &[Option<Pages>], at: u64, element: i64) -> Place
    ensures { result ≡ place_asked pages.now (pos at, element) }
{
    match pages.get(at as usize) {
        Some(page) => place_in(page, element),
        None => Place { owner: 0, local: 0 },
    }
}

fn place_in(page: &Option<Pages>, element: i64) -> Place
    ensures { result ≡ place_on_page page.now element }
{
    match page {
        Some(page) => place_of(page, element),
        None => Place { owner: 0, local: 0 },
    }
}
