ghost use Rattle.std.specs.Prelude.{◌≡◌};
ghost use Rattle.chaos_move.specs.Moves.{changed, operator_at};

use fd_words::Combine;
use sqlite_items::Items;

/// For each array the operator that reduces into it, none where it isn't reduced.
pub type Operators = Items<Option<Combine>>;

/// The operator that reduces into an array, none where it isn't reduced.
pub fn operator_of(operators: &Operators, array: u64) -> Option<Combine>
    ensures { result ≡ operator_at operators.now array }
{
    match operators.get(array as usize) {
        Some(operator) => *operator,
        None => None,
    }
}

/// The value that an assignment leaves, or a reduction of the old one.
pub fn change(operator: Option<Combine>, old: i64, value: i64) -> i64
    ensures { result ≡ changed operator old value }
{
    match operator {
        Some(operator) => operator.apply(old, value),
        None => value,
    }
}
