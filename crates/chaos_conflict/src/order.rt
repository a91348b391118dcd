ghost use Rattle.std.specs.Prelude.{◌≡◌, ◌↔◌, false, All, Contains, IfSome, IsNone};
ghost use Rattle.chaos_conflict.specs.Clashes.{is_less, is_less_at, lesser, least_clash_of};

use crate::Conflict;

/// The least of the votes; of equals the first. None where all are none.
pub fn least_clash(votes: &[Option<Conflict>]) -> Option<Conflict>
    ensures least { result ≡ least_clash_of votes.now }
    ensures none { IsNone result ↔ All IsNone votes.now }
    ensures told { IfSome result (λ c. Contains votes.now (Some c)) }
    ensures no_less { IfSome result (λ c. All (λ v. IfSome v (λ d. is_less d c ≡ false)) votes.now) }
{
    let mut least = None;
    for vote in votes {
        least = lesser_of(least, *vote);
    }
    least
}

/// The lesser of two votes, the first where neither is less.
pub fn lesser_of(vote: Option<Conflict>, other: Option<Conflict>) -> Option<Conflict>
    ensures { result ≡ lesser vote other }
{
    match (vote, other) {
        (Some(first), Some(next)) if is_earlier(next, first) => other,
        (Some(_), _) => vote,
        (None, _) => other,
    }
}

fn is_earlier(conflict: Conflict, other: Conflict) -> bool
    ensures { result ≡ is_less conflict other }
{
    conflict.first < other.first
        || (conflict.first == other.first
            && (conflict.second < other.second
                || (conflict.second == other.second && is_before_at(conflict, other))))
}

/// Of two conflicts of the same iterations.
fn is_before_at(conflict: Conflict, other: Conflict) -> bool
    ensures { result ≡ is_less_at conflict other }
{
    conflict.reference < other.reference
        || (conflict.reference == other.reference && conflict.element < other.element)
}
