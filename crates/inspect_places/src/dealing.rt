ghost use Rattle.std.specs.Prelude.{◌≡◌, ◌+◌, ◌≤◌, true};
ghost use Rattle.std.specs.List.{slice_index_or};
ghost use Rattle.fd_words.specs.Lists.{list_at};
ghost use Rattle.inspect_places.specs.Dealing.{has_pair, pair_at, pair_drawn};

use fd_words::NumberLists;

/// Whether two numbers stand at a place of a list.
fn has(lists: &NumberLists, list: u64, at: u64) -> bool
    ensures has { result ≡ has_pair (list_at lists.now list) at }
    ensures few { result ≡ true → at + 2 ≤ 18446744073709551615 }
{
    let length = lists.len_at(list);
    length >= 2 && at <= length - 2
}

/// The next pair of numbers of the list at a place; `drawn` has how many numbers are drawn of each
/// before. Zeros, where there is none.
pub(crate) fn draw(lists: &NumberLists, drawn: &mut [u64], at: usize) -> (i64, i64)
    ensures pair { result ≡ pair_at (list_at lists.now at) (slice_index_or drawn.old at 0) }
    ensures drawn { drawn.new ≡ pair_drawn lists.now drawn.old at }
{
    let count = drawn.get(at).copied().unwrap_or(0);
    if !has(lists, at as u64, count) {
        return (0, 0);
    }
    if at < drawn.len() {
        drawn[at] = count + 2;
    }
    (
        lists.value_at(at as u64, count),
        lists.value_at(at as u64, count + 1),
    )
}
