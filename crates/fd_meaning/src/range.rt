ghost use Rattle.std.specs.Prelude.{◌≡◌, IfOk};
ghost use Rattle.fd_program.specs.Loops.{range_of};

use fd_words::{Memory, Numbers};
use std::alloc::Global;

/// The iterations from `low` to `high`, both included.
pub fn iterations(alloc: Global, low: i64, high: i64) -> Result<Numbers, Memory>
    ensures { IfOk result (λ list. list ≡ range_of low high) }
{
    let mut list = Numbers::new(alloc);
    let mut i = i128::from(low);
    while i <= i128::from(high) {
        list.push(i as i64)?;
        i += 1;
    }
    Ok(list)
}
