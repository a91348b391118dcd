ghost use Rattle.std.specs.Prelude.{◌≡◌, ◌*◌, drop, length};

use chaos_sched::LocalRef;

/// A block of iterations: their numbers, the references from the first of them on, and how many of these
/// an iteration has.
#[derive(Clone, Copy)]
pub struct Block<'a> {
    pub iterations: &'a [i64],
    pub row: &'a [LocalRef],
    pub width: u64,
}

/// The references behind a block.
pub fn behind_block<'a>(row: &'a [LocalRef], iterations: &[i64], width: u64) -> &'a [LocalRef]
    ensures { result.now ≡ drop (length iterations.now * width) row.now }
{
    let mut left = row;
    for _i in iterations {
        left = behind(left, width);
    }
    left
}

/// The references behind so many.
pub fn behind(row: &[LocalRef], width: u64) -> &[LocalRef]
    ensures { result.now ≡ drop width row.now }
{
    if width < row.len() as u64 {
        &row[width as usize..]
    } else {
        &[]
    }
}
