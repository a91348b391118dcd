//! What decides a cut: its axis, and its key, bit by bit.
ghost use Rattle.std.specs.Prelude.{◌≡◌, ◌-ℤ◌};
ghost use Rattle.chaos_cut.specs.Choices.{extent_of, next_by, wider_of};

/// How wide elements stand along an axis: their greatest coordinate less their least.
#[derive(Clone, Copy, Debug)]
pub struct Extent {
    pub axis: u32,
    pub width: i128,
}

/// The extent on an axis, of its least and greatest coordinate. No difference of these is too large for it.
pub fn extent_on(axis: u32, least: i64, greatest: i64) -> Extent
    ensures { result ≡ extent_of axis (greatest -ℤ least) }
{
    Extent {
        axis,
        width: i128::from(greatest) - i128::from(least),
    }
}

/// The wider of two, the first on a tie.
pub fn wider(first: Extent, next: Extent) -> Extent
    ensures { result ≡ wider_of first next }
{
    if first.width < next.width {
        next
    } else {
        first
    }
}

/// The number found next of a key, of which all have so many below the candidate: with the power of two added, where
/// these are fewer than are to go first.
pub fn next_found(found: u128, power: u128, below: i64, goal: u64) -> u128
    ensures { result ≡ next_by found power below goal }
{
    if i128::from(below) < i128::from(goal) {
        found.saturating_add(power)
    } else {
        found
    }
}
