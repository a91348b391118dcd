ghost use Rattle.std.specs.Prelude.{◌≡◌};
ghost use Rattle.fd_words.specs.Combining.{combined, unit_of, IsCommutative, IsAssociative, HasUnit};

use crate::plus;

/// How values are combined into an element.
#[derive(Clone, Copy, Debug, PartialEq, Eq)]
pub enum Combine {
    Add,
    Min,
    Max,
}

impl Combine {
    /// The value that changes no other.
    pub fn unit(self) -> i64
        ensures { result ≡ unit_of self }
    {
        match self {
            Combine::Add => 0,
            Combine::Min => i64::MAX,
            Combine::Max => i64::MIN,
        }
    }

    /// The sum modulo 2^64, the lesser or the greater.
    pub fn apply(self, a: i64, b: i64) -> i64
        ensures { result ≡ combined self a b }
    {
        match self {
            Combine::Add => plus(a, b),
            Combine::Min => a.min(b),
            Combine::Max => a.max(b),
        }
    }
}

/// Combining doesn't depend on the order of the values, and the unit changes none of them.
pub fn combining_laws(op: Combine)
    ensures commutative { IsCommutative (combined op) }
    ensures associative { IsAssociative (combined op) }
    ensures unit { HasUnit (combined op) (unit_of op) }
{}
