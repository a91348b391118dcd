ghost use Rattle.std.specs.Prelude.{◌≡◌};
ghost use Rattle.fd_program.specs.Uses.{read_of, use_at};
ghost use Rattle.fd_program.specs.Values.{read_in, value_of};

use crate::elements::{element, number};
use crate::uses::numbered;
use fd_program::{CheckedExpr, Store, Use};
use fd_words::{Numbers, negated};

/// What a reference reads.
fn read(store: &Store, uses: &[Use], number: u32) -> i64
    ensures { result ≡ read_in store.now uses.now number }
{
    let used = numbered(uses, number);
    element(store, used.array, used.subscript)
}

/// The value of an expression at iteration `i`, whose references are `uses`.
pub fn evaluate(expr: &CheckedExpr, uses: &[Use], terms: &Numbers, store: &Store, i: i64) -> i64
    ensures { result ≡ value_of (read_in store.now uses.now) terms.now i expr.now }
{
    match expr {
        CheckedExpr::Number(value) => *value,
        CheckedExpr::Index => i,
        CheckedExpr::Term(place) => number(terms, u64::from(*place)),
        CheckedExpr::Read(number) => read(store, uses, *number),
        CheckedExpr::Negate(inner) => negated(evaluate(inner.get(), uses, terms, store, i)),
        CheckedExpr::Binary { op, left, right } => op.apply(
            evaluate(left.get(), uses, terms, store, i),
            evaluate(right.get(), uses, terms, store, i),
        ),
    }
}
