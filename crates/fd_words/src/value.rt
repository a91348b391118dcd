ghost use Rattle.std.specs.Prelude.{◌≡◌, ◌≤◌, ◌<◌, ◌+◌, ◌+ℤ◌, ◌-ℤ◌, ◌*ℤ◌, neg_ℤ, IfOk};
ghost use Rattle.fd_words.specs.Value.{wrapped, remainder_of};

use crate::Memory;

/// The sum, modulo 2^64.
pub fn plus(a: i64, b: i64) -> i64
    ensures { result ≡ wrapped (a +ℤ b) }
{
    a.wrapping_add(b)
}

/// The difference, modulo 2^64.
pub fn minus(a: i64, b: i64) -> i64
    ensures { result ≡ wrapped (a -ℤ b) }
{
    a.wrapping_sub(b)
}

/// The product, modulo 2^64.
pub fn times(a: i64, b: i64) -> i64
    ensures { result ≡ wrapped (a *ℤ b) }
{
    a.wrapping_mul(b)
}

/// The number with the other sign, modulo 2^64.
pub fn negated(a: i64) -> i64
    ensures { result ≡ wrapped (neg_ℤ a) }
{
    a.wrapping_neg()
}

/// The node that a map's value names: its remainder by the number of nodes, never negative.
pub fn remainder(value: i64, nodes: u32) -> u32
    requires some { 1 ≤ nodes }
    requires few { nodes ≤ 16 }
    ensures remainder { result ≡ remainder_of value nodes }
    ensures below { result < nodes }
{
    value.rem_euclid(i64::from(nodes)) as u32
}

/// The sum of two counts; `Memory` where there would be 2^64 of something.
pub fn count_sum(one: u64, other: u64) -> Result<u64, Memory>
    ensures { IfOk result (λ sum. sum ≡ one + other) }
{
    match one.checked_add(other) {
        Some(sum) => Ok(sum),
        None => Err(Memory),
    }
}
