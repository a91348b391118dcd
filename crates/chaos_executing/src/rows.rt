//! Whether letters and items are as the executor's calls want them.
ghost use Rattle.std.specs.Prelude.{◌≡◌, ◌*◌, ◌^◌, ◌==◌, nat_lt, length};
ghost use Rattle.std.specs.List.{list_all};
ghost use Rattle.chaos_executing.specs.Rows.{are_small, have_rows};

use chaos_sched::{Item, ItemLists, Items};
use fd_words::{NumberLists, Numbers};

/// Whether each item's element can stand in a letter.
pub(crate) fn small(lists: &ItemLists) -> bool
    ensures { result ≡ are_small lists.now }
{
    let all = lists.as_slice();
    all.iter().all(
        |items: &Items| -> bool
            ensures { result ≡ list_all (λ i. nat_lt i.element (2 ^ 63)) items.now }
        { small_items(items) },
    )
}

fn small_items(items: &Items) -> bool
    ensures { result ≡ list_all (λ i. nat_lt i.element (2 ^ 63)) items.now }
{
    let all = items.as_slice();
    all.iter()
        .all(|item: &Item| item.element < 0x8000_0000_0000_0000)
}

/// Whether there is a letter for each list of items, with three numbers for each item.
pub(crate) fn in_rows(taken: &NumberLists, lists: &ItemLists) -> bool
    ensures { result ≡ have_rows taken.now lists.now }
{
    let letters = taken.as_slice();
    let all = lists.as_slice();
    if letters.len() != all.len() {
        return false;
    }
    for node in 0..letters.len() {
        if !fits(&letters[node], &all[node]) {
            return false;
        }
    }
    true
}

fn fits(rows: &Numbers, items: &Items) -> bool
    ensures { result ≡ (length rows.now == 3 * length items.now) }
{
    let numbers = rows.as_slice().len();
    numbers % 3 == 0 && numbers / 3 == items.len()
}
