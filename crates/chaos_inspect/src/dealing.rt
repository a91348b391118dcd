ghost use Rattle.std.specs.Prelude.{◌≡◌};
ghost use Rattle.std.specs.List.{slice_index_or};
ghost use Rattle.fd_words.specs.Lists.{list_at};
ghost use Rattle.fd_program.specs.Stores.{number_at};
ghost use Rattle.chaos_inspect.specs.Dealing.{one_drawn};

use fd_words::NumberLists;

/// The next number of the list at a place; `drawn` has how many are drawn of each before.
pub fn draw(lists: &NumberLists, drawn: &mut [usize], at: u32) -> i64
    ensures number { result ≡ number_at (list_at lists.now at) (slice_index_or drawn.old at 0) }
    ensures drawn { drawn.new ≡ one_drawn lists.now drawn.old at }
{
    let place = at as usize;
    let list = u64::from(at);
    let count = drawn.get(place).copied().unwrap_or(0);
    let number = lists.value_at(list, count as u64);
    if (count as u64) < lists.len_at(list) && place < drawn.len() {
        drawn[place] = count + 1;
    }
    number
}
