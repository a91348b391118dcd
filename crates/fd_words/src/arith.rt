ghost use Rattle.std.specs.Prelude.{◌≡◌, ◌+ℤ◌, ◌-ℤ◌, ◌*ℤ◌};
ghost use Rattle.fd_words.specs.Operators.{exactly, sign_of};
ghost use Rattle.fd_words.specs.Value.{wrapped};

use crate::{minus, plus, times};

/// An operator of scalars and expressions.
#[derive(Clone, Copy, Debug, PartialEq, Eq)]
pub enum Arith {
    Plus,
    Minus,
    Times,
}

impl Arith {
    /// The operator before a term: minus where the term has that sign.
    pub fn of_sign(minus: bool) -> Arith
        ensures { result ≡ sign_of minus }
    {
        if minus { Arith::Minus } else { Arith::Plus }
    }

    /// The sum, difference or product, exactly.
    pub fn exact(self, a: i64, b: i64) -> i128
        ensures { result ≡ exactly self a b }
    {
        match self {
            Arith::Plus => exact_sum(a, b),
            Arith::Minus => difference(a, b),
            Arith::Times => product(a, b),
        }
    }

    /// The sum, difference or product, modulo 2^64.
    pub fn apply(self, a: i64, b: i64) -> i64
        ensures { result ≡ wrapped (exactly self a b) }
    {
        match self {
            Arith::Plus => plus(a, b),
            Arith::Minus => minus(a, b),
            Arith::Times => times(a, b),
        }
    }
}

/// Their sum, exactly.
pub fn exact_sum(a: i64, b: i64) -> i128
    ensures { result ≡ a +ℤ b }
{
    i128::from(a) + i128::from(b)
}

fn difference(a: i64, b: i64) -> i128
    ensures { result ≡ a -ℤ b }
{
    i128::from(a) - i128::from(b)
}

fn product(a: i64, b: i64) -> i128
    ensures { result ≡ a *ℤ b }
{
    i128::from(a) * i128::from(b)
}
