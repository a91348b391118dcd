ghost use Rattle.std.specs.Prelude.{◌≡◌, ◌≤◌, ◌^◌};
ghost use Rattle.chaos_cut.specs.Keys.{key_of};

/// The key of element `g` with coordinate `x`: a number of 84 bits in the order of coordinate and element.
pub fn key(x: i64, g: u64) -> u128
    requires from_one { 1 ≤ g }
    requires within { g ≤ 2 ^ 20 }
    ensures { result ≡ key_of x g }
{
    (i128::from(x) + 9_223_372_036_854_775_808) as u128 * 1_048_576 + u128::from(g - 1)
}
