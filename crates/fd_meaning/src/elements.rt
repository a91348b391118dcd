ghost use Rattle.std.specs.Prelude.{◌≡◌, ◌≤ℤ◌, ◌^◌, length, pos};
ghost use Rattle.fd_program.specs.Stores.{element as element_of, number_at, place_of};
ghost use Rattle.fd_words.specs.Lists.{list_at};

use fd_program::Store;
use fd_words::Numbers;

/// The number at a place, 0 from the end on.
pub fn number(numbers: &Numbers, at: u64) -> i64
    ensures { result ≡ number_at numbers.now at }
{
    numbers.get(at).unwrap_or(0)
}

/// The place of an element in its array's list.
pub fn place(subscript: i128) -> u64
    requires { subscript ≤ℤ pos (2 ^ 64) }
    ensures { result ≡ place_of subscript }
{
    if subscript <= 1 {
        0
    } else {
        (subscript - 1) as u64
    }
}

/// The element of a list, 0 where there is none.
fn element_in(list: &Numbers, subscript: i128) -> i64
    ensures { result ≡ number_at list.now (place_of subscript) }
{
    if subscript <= 1 {
        number(list, 0)
    } else if subscript <= i128::from(list.len()) {
        number(list, subscript as u64 - 1)
    } else {
        0
    }
}

/// The element of an array, 0 where it has none.
pub fn element(store: &Store, array: u32, subscript: i128) -> i64
    ensures { result ≡ element_of store.now array subscript }
{
    match store.get(u64::from(array)) {
        Some(list) => element_in(list, subscript),
        None => 0,
    }
}

/// How many elements an array has in the store.
pub fn count(store: &Store, array: u32) -> u64
    ensures { result ≡ length (list_at store.now array) }
{
    match store.get(u64::from(array)) {
        Some(list) => list.len(),
        None => 0,
    }
}
