//! Numbers of nodes and letters by place, and what they make together.
ghost use Rattle.std.specs.Prelude.{◌≡◌, fold, ◌+ℤ◌};
ghost use Rattle.std.specs.Int.{int_max, int_min, saturate_signed, w64};
ghost use Rattle.bisect_node.specs.Steps.{greater, lesser, number_at as the_number, number_in as the_number_in, summed};

use chaos_letter::Letter;
use fd_words::Numbers;

/// The number at a place; 0 from the end on.
pub fn number_at(numbers: &Numbers, at: u64) -> i64
    ensures { result ≡ the_number numbers.now at }
{
    numbers.get(at).unwrap_or(0)
}

/// The number at a place of a letter; 0 from the end on.
fn number_in(letter: &Letter, at: u64) -> i64
    ensures { result ≡ the_number_in letter.now at }
{
    number_at(&letter.numbers, at)
}

/// A node's own number and those of the letters at a place, added up.
pub fn sum_at(told: &Numbers, got: &[Letter], at: u64) -> i64
    ensures { result ≡ summed told.now got.now at }
{
    let mut sum = number_at(told, at);
    for letter in got {
        sum = sum.saturating_add(number_in(letter, at));
    }
    sum
}

/// The least of a node's own number and those of the letters at a place.
pub fn least_at(told: &Numbers, got: &[Letter], at: u64) -> i64
    ensures { result ≡ lesser told.now got.now at }
{
    let mut least = number_at(told, at);
    for letter in got {
        least = least.min(number_in(letter, at));
    }
    least
}

/// The greatest of them.
pub fn greatest_at(told: &Numbers, got: &[Letter], at: u64) -> i64
    ensures { result ≡ greater told.now got.now at }
{
    let mut greatest = number_at(told, at);
    for letter in got {
        greatest = greatest.max(number_in(letter, at));
    }
    greatest
}
