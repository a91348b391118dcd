ghost use Rattle.std.specs.Prelude.{◌≡◌, ◌*◌, ◌+◌, ◌≤◌, drop, length};
ghost use Rattle.chaos_move.specs.Moves.{row_in};

use chaos_sched::Item;

/// The value of the row at a place, none where the row names another element than the item.
pub fn value_for(numbers: &[i64], at: usize, item: Item) -> Option<i64>
    requires { 3 * at + 3 ≤ length numbers.now }
    ensures { result ≡ row_in item (drop (3 * at) numbers.now) }
{
    named(&numbers[3 * at..], item)
}

fn named(rows: &[i64], item: Item) -> Option<i64>
    ensures { result ≡ row_in item rows.now }
{
    match rows {
        [array, element, value, ..]
            if *array == i64::from(item.array)
                && i128::from(*element) == i128::from(item.element) => { Some(*value) }
        _ => None,
    }
}
