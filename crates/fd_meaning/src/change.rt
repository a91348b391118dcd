ghost use Rattle.std.specs.Prelude.{◌≡◌};
ghost use Rattle.fd_program.specs.Loops.{write_by, write_of};
ghost use Rattle.fd_meaning.specs.Changes.{write_of_change};

use crate::uses::numbered;
use crate::values::evaluate;
use fd_program::{CheckedBody, Store, Use};
use fd_words::{Combine, Numbers};
use sqlite_items::Items;

/// A value for an element: in place of the old one, or combined with it where there is an operator.
#[derive(Drop)]
pub struct Change {
    pub array: u32,
    pub subscript: i128,
    pub operator: Option<Combine>,
    pub value: i64,
}

/// Changes in the order in which they are made.
pub type Changes = Items<Change>;

fn change_by(target: Use, operator: Option<Combine>, value: i64) -> Change
    ensures { write_of_change result ≡ write_by target operator value }
{
    Change {
        array: target.array,
        subscript: target.subscript,
        operator,
        value,
    }
}

/// The change by a statement at iteration `i`, whose references are `uses`.
pub fn change_of(
    store: &Store,
    uses: &[Use],
    terms: &Numbers,
    i: i64,
    statement: &CheckedBody,
) -> Change
    ensures { write_of_change result ≡ write_of terms.now store.now i uses.now statement.now }
{
    match statement {
        CheckedBody::Assign { target, value } => {
            let value = evaluate(value, uses, terms, store, i);
            change_by(numbered(uses, *target), None, value)
        }
        CheckedBody::Reduce {
            operator,
            target,
            value,
        } => {
            let value = evaluate(value, uses, terms, store, i);
            change_by(numbered(uses, *target), Some(*operator), value)
        }
    }
}
