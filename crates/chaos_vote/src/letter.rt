ghost use Rattle.std.specs.Prelude.{◌≡◌, ◌≢◌, ◌↔◌, ◌^◌, ◌<◌, length, unsigned_abs, pos, IfOk, IsNone};
ghost use Rattle.std.specs.Int.{int_rem_euclid};
ghost use Rattle.fd_words.specs.declared.place.Offence.{Offence};
ghost use Rattle.chaos_vote.specs.Votes.{vote_numbers, read_vote, high_half, low_half, of_halves};

use fd_words::{Memory, Numbers, Offence};
use std::alloc::Global;

/// The numbers of a vote: none, or the iteration, the reference, and the high and low half of the
/// subscript in two's complement.
pub fn numbers_of(alloc: Global, vote: Option<Offence>) -> Result<Numbers, Memory>
    ensures { IfOk result (λ numbers. numbers ≡ vote_numbers vote) }
{
    let mut numbers = Numbers::new(alloc);
    if let Some(offence) = vote {
        numbers.push(offence.iteration)?;
        numbers.push(i64::from(offence.reference))?;
        numbers.push(high(offence.subscript))?;
        numbers.push(low(offence.subscript))?;
    }
    Ok(numbers)
}

/// The vote that has these numbers; of a second number that is no reference its remainder by 2^32.
/// None exactly where there are not four.
pub fn offence_of(numbers: &Numbers) -> Option<Offence>
    ensures vote { result ≡ read_vote numbers.now }
    ensures none { IsNone result ↔ (length numbers.now ≢ 4) }
{
    match numbers.as_slice() {
        [iteration, reference, high, low] => Some(Offence {
            iteration: *iteration,
            reference: reference_of(*reference),
            subscript: whole(*high, *low),
        }),
        _ => None,
    }
}

/// A vote is what is read from its numbers.
pub fn vote_laws()
    ensures none { read_vote (vote_numbers None) ≡ None }
    ensures some { (o : Offence) → o.reference < 2 ^ 32 → read_vote (vote_numbers (Some o)) ≡ Some o }
{}

fn reference_of(number: i64) -> u32
    ensures { result ≡ unsigned_abs (int_rem_euclid number (pos (2 ^ 32))) }
{
    number.rem_euclid(1 << 32) as u32
}

fn high(subscript: i128) -> i64
    ensures { result ≡ high_half subscript }
{
    subscript.div_euclid(1 << 64) as i64
}

fn low(subscript: i128) -> i64
    ensures { result ≡ low_half subscript }
{
    (subscript.rem_euclid(1 << 64) as u64).cast_signed()
}

fn whole(high: i64, low: i64) -> i128
    ensures { result ≡ of_halves high low }
{
    i128::from(high) * (1 << 64) + i128::from(low).rem_euclid(1 << 64)
}
