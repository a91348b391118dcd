ghost use Rattle.std.specs.Prelude.{◌≡◌, ◌<◌, ◌++◌, pos, length, OnOk, IfOk};
ghost use Rattle.std.specs.List.{slice_index_or};
ghost use Rattle.chaos_deref.specs.Asking.{place_looked_up, numbers_of, answers_to};

use chaos_table::Pages;
use fd_words::{Memory, Numbers, Place};
use std::alloc::Global;

/// Owner and local address of each element that is asked for, in order; 0 and 0 for one that isn't on
/// the page.
pub fn answer(alloc: Global, pages: &Pages, asked: &Numbers) -> Result<Numbers, Memory>
    ensures { IfOk result (λ answers. answers ≡ answers_to pages.now asked.now) }
{
    answer_all(alloc, pages, asked.as_slice())
}

fn answer_all(alloc: Global, pages: &Pages, asked: &[i64]) -> Result<Numbers, Memory>
    ensures { IfOk result (λ answers. answers ≡ answers_to pages.now asked.now) }
{
    let mut answers = Numbers::new(alloc);
    for i in 0..asked.len() {
        append_place(&mut answers, place(pages, asked, i))?;
    }
    Ok(answers)
}

/// The place of the element that is asked for at a place of the list.
fn place(pages: &Pages, asked: &[i64], at: usize) -> Place
    requires { at < length asked.now }
    ensures { result ≡ place_looked_up pages.now (slice_index_or asked.now at (pos 0)) }
{
    place_of(pages, asked[at])
}

/// The place of an element by number; 0 and 0 for one that isn't on the page.
pub fn place_of(page: &Pages, element: i64) -> Place
    ensures { result ≡ place_looked_up page.now element }
{
    match u64::try_from(element) {
        Ok(element) => look(page, element),
        Err(_) => Place { owner: 0, local: 0 },
    }
}

fn look(page: &Pages, element: u64) -> Place
    ensures { result ≡ place_looked_up page.now (pos element) }
{
    match page.look(element) {
        Some(place) => place,
        None => Place { owner: 0, local: 0 },
    }
}

/// The numbers of a place behind these.
pub fn append_place(numbers: &mut Numbers, place: Place) -> Result<(), Memory>
    ensures { OnOk result (numbers.new ≡ numbers.old ++ numbers_of place) }
{
    numbers.push(i64::from(place.owner))?;
    numbers.push(place.local.cast_signed())
}
