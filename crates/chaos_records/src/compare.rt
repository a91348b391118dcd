ghost use Rattle.std.specs.Prelude.{◌≡◌};
ghost use Rattle.std.specs.Cmp.Lexicographic.{pointwise};
ghost use Rattle.std.specs.Option.{option_copied};
ghost use Rattle.std.specs.Ordering.{int_eq};
ghost use Rattle.fd_program.specs.Past.{is_same_record};
ghost use Rattle.chaos_records.specs.Keeping.{differs};

use fd_program::LoopRecord;
use fd_words::Numbers;

/// Whether a FORALL has to be inspected: true exactly where no record is kept of it, or another than
/// the present one.
pub fn must_inspect(now: &LoopRecord, kept: Option<&LoopRecord>) -> bool
    ensures { result ≡ differs now.now (option_copied kept.entry) }
{
    match kept {
        Some(before) => !is_same(before, now),
        None => true,
    }
}

fn is_same(one: &LoopRecord, other: &LoopRecord) -> bool
    ensures { result ≡ is_same_record one.now other.now }
{
    one.low == other.low
        && one.high == other.high
        && are_same(&one.adds, &other.adds)
        && are_same(&one.versions, &other.versions)
        && are_same(&one.changes, &other.changes)
}

fn are_same(numbers: &Numbers, other: &Numbers) -> bool
    ensures { result ≡ pointwise int_eq numbers.now other.now }
{
    numbers.as_slice() == other.as_slice()
}
