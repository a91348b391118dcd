ghost use Rattle.std.specs.Prelude.{◌≡◌};
ghost use Rattle.fd_outside.specs.Causes.{risen};

/// A count after one more; the last value stays.
pub fn one_more(count: u64) -> u64
    ensures { result ≡ risen count }
{
    if count < u64::MAX { count + 1 } else { count }
}
