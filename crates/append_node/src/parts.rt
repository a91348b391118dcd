ghost use Rattle.std.specs.Prelude.{◌≡◌, ◌-◌, nat_lt, if◌then◌else◌};
ghost use Rattle.chaos_bins.specs.Coming.{part_of, told as the_told};

use chaos_letter::Letter;

/// Where the letter of a node stands among those of all nodes but `me`.
fn place_among(me: u32, node: u32) -> usize
    ensures { result ≡ (if nat_lt node me then node else node - 1) }
{
    if node < me {
        node as usize
    } else {
        node.saturating_sub(1) as usize
    }
}

/// The numbers that a node told node `me`, where that took the letters of all others in their order; none
/// where there is no letter.
pub fn told(me: u32, got: &[Letter], node: u32) -> &[i64]
    ensures { result.now ≡ the_told me got.now node }
{
    match got.get(place_among(me, node)) {
        Some(letter) => letter.numbers.as_slice(),
        None => &[],
    }
}

/// The same of each node, with node `me`'s own numbers in their place.
pub fn part<'a>(me: u32, own: &'a [i64], got: &'a [Letter], node: u32) -> &'a [i64]
    ensures { result.now ≡ part_of me own.now got.now node }
{
    if node == me { own } else { told(me, got, node) }
}
