ghost use Rattle.std.specs.Prelude.{◌≡◌, map, string_bytes};
ghost use Rattle.fd_outside.specs.Causes.{NoneFell};
ghost use Rattle.fd_edge.specs.Readings.{files_read};
ghost use Rattle.chaos_rcb.specs.Columns.{IsColumnEnd, IsColumnsEnd};

use fd_edge::{Stop, read_numbers, stop_for};
use fd_outside::Files;
use fd_words::{NumberLists, Numbers};
use std::alloc::Global;

/// The coordinates on one axis: the numbers of its file.
fn column<F: Files>(alloc: Global, files: &mut F, name: &str, count: u64) -> Result<Numbers, Stop>
    ensures read { IsColumnEnd (files_read F.contents F.faults files.old files.new) count name.now result }
    ensures contents { F.contents files.new ≡ F.contents files.old }
    ensures faults { NoneFell (F.faults files.old) (F.faults files.new) }
{
    match read_numbers(alloc, files, name, count) {
        Ok(column) => Ok(column),
        Err(stop) => Err(stop_for(alloc, name, stop)),
    }
}

/// The coordinates on all axes, one list for each: reads the files in their order, up to the first that can't be read or
/// has a fault.
pub(crate) fn columns<F: Files>(
    alloc: Global,
    files: &mut F,
    names: &[String],
    count: u64,
) -> Result<NumberLists, Stop>
    ensures read { IsColumnsEnd (files_read F.contents F.faults files.old files.new) count (map string_bytes names.now) result }
    ensures contents { F.contents files.new ≡ F.contents files.old }
    ensures faults { NoneFell (F.faults files.old) (F.faults files.new) }
{
    let mut columns = NumberLists::new(alloc);
    for name in names {
        let column = column(alloc, files, name.as_str(), count)?;
        let Ok(()) = columns.push(column) else {
            return Err(Stop::Memory);
        };
    }
    Ok(columns)
}
