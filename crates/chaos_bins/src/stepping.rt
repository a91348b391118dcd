ghost use Rattle.std.specs.Prelude.{◌≡◌, ◌≤◌};
ghost use Rattle.chaos_bins.specs.Bins.{step_from};

/// The bin that a particle of this value comes to from a bin in one step, computed exactly.
pub fn step(bins: u32, value: i64, bin: i64) -> i64
    requires some { 1 ≤ bins }
    ensures { result ≡ step_from bins value bin }
{
    ((i128::from(bin) - 1 + i128::from(value)).rem_euclid(i128::from(bins)) + 1) as i64
}
