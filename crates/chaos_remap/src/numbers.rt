ghost use Rattle.std.specs.Prelude.{◌≡◌, ◌+◌};
ghost use Rattle.fd_words.specs.Lists.{list_at};
ghost use Rattle.chaos_remap.specs.Remapping.{number_at, number_at_address};

use fd_words::NumberLists;

/// The number at a place, 0 outside.
pub fn number_of(numbers: &[i64], at: u64) -> i64
    ensures { result ≡ number_at numbers.now at }
{
    numbers.get(at as usize).copied().unwrap_or(0)
}

/// The number so many places behind another, 0 outside.
pub fn number_behind(numbers: &[i64], at: u64, more: u32) -> i64
    ensures { result ≡ number_at numbers.now (at + more) }
{
    let _length = numbers.len();
    match at.checked_add(u64::from(more)) {
        Some(place) => number_of(numbers, place),
        None => 0,
    }
}

/// The number at a local address, 0 outside.
pub fn number_at_local(numbers: &[i64], address: i64) -> i64
    ensures { result ≡ number_at_address numbers.now address }
{
    if address < 0 {
        return 0;
    }
    number_of(numbers, address as u64)
}

/// One of the lists, empty from the end on.
pub fn list_of(lists: &NumberLists, at: u64) -> &[i64]
    ensures { result.now ≡ list_at lists.now at }
{
    match lists.get(at) {
        Some(numbers) => numbers.as_slice(),
        None => &[],
    }
}
