ghost use Rattle.std.specs.Prelude.{◌≡◌, ◌↔◌, false, All, Contains, IfSome, IsNone};
ghost use Rattle.chaos_vote.specs.Votes.{is_less, lesser, least_of};

use fd_words::Offence;

/// The least of the votes: the one of the least iteration, and there of the least reference; of equals
/// the first. None where all are none.
pub fn least(votes: &[Option<Offence>]) -> Option<Offence>
    ensures least { result ≡ least_of votes.now }
    ensures none { IsNone result ↔ All IsNone votes.now }
    ensures told { IfSome result (λ o. Contains votes.now (Some o)) }
    ensures no_less { IfSome result (λ o. All (λ v. IfSome v (λ p. is_less p o ≡ false)) votes.now) }
{
    let mut least = None;
    for vote in votes {
        least = lesser_of(least, *vote);
    }
    least
}

/// The lesser of two votes, the first where neither is less.
fn lesser_of(vote: Option<Offence>, other: Option<Offence>) -> Option<Offence>
    ensures { result ≡ lesser vote other }
{
    match (vote, other) {
        (Some(first), Some(next)) if is_earlier(next, first) => other,
        (Some(_), _) => vote,
        (None, _) => other,
    }
}

fn is_earlier(offence: Offence, other: Offence) -> bool
    ensures { result ≡ is_less offence other }
{
    offence.iteration < other.iteration
        || (offence.iteration == other.iteration && offence.reference < other.reference)
}
