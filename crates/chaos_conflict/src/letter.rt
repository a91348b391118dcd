ghost use Rattle.std.specs.Prelude.{◌≡◌, ◌≢◌, ◌↔◌, ◌^◌, length, unsigned_abs, pos, IfOk, IsNone};
ghost use Rattle.std.specs.Int.{int_rem_euclid};
ghost use Rattle.chaos_conflict.specs.Votes.{clash_numbers_of, read_clash};

use crate::Conflict;
use fd_words::{Memory, Numbers};
use std::alloc::Global;

/// The numbers of a vote: none, or both iterations, the reference, and the element's 64 bits as a signed number.
pub fn clash_numbers(alloc: Global, vote: Option<Conflict>) -> Result<Numbers, Memory>
    ensures { IfOk result (λ numbers. numbers ≡ clash_numbers_of vote) }
{
    let mut numbers = Numbers::new(alloc);
    if let Some(conflict) = vote {
        numbers.push(conflict.first)?;
        numbers.push(conflict.second)?;
        numbers.push(i64::from(conflict.reference))?;
        numbers.push(conflict.element.cast_signed())?;
    }
    Ok(numbers)
}

/// The vote that has these numbers; of a third number that is no reference its remainder by 2^32, of the fourth
/// its 64 bits. None exactly where there are not four.
pub fn clash_of(numbers: &Numbers) -> Option<Conflict>
    ensures vote { result ≡ read_clash numbers.now }
    ensures none { IsNone result ↔ (length numbers.now ≢ 4) }
{
    match numbers.as_slice() {
        [first, second, reference, element] => Some(Conflict {
            first: *first,
            second: *second,
            reference: reference_of(*reference),
            element: element.cast_unsigned(),
        }),
        _ => None,
    }
}

fn reference_of(number: i64) -> u32
    ensures { result ≡ unsigned_abs (int_rem_euclid number (pos (2 ^ 32))) }
{
    number.rem_euclid(1 << 32) as u32
}
