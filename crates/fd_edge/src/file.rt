ghost use Rattle.std.specs.Prelude.{◌≡◌, ◌+◌, ◌≤◌};
ghost use Rattle.fd_outside.specs.Causes.{NoneFell};
ghost use Rattle.fd_edge.specs.Readings.{files_read};
ghost use Rattle.fd_edge.specs.Files.{IsNumbersEnd, IsFileEnd};

use fd_data::{DataFault, read_array};
use fd_outside::{Files, ReadStop, read_whole};
use fd_words::Numbers;
use std::alloc::Global;

/// A data file has at most so many bytes.
const DATA_LIMIT: u64 = 33_554_432;

/// Why a data file gave no numbers: it couldn't be read, or it has a fault.
#[derive(Clone, Copy, Debug, PartialEq, Eq)]
pub enum FileStop {
    Unread,
    Fault(DataFault),
    Memory,
}

/// The numbers of a file's bytes.
fn numbers_of(alloc: Global, bytes: &[u8], count: u64) -> Result<Numbers, FileStop>
    ensures { IsNumbersEnd bytes.now count result }
{
    match read_array(alloc, bytes, count) {
        Ok(values) => Ok(values),
        Err(DataFault::Memory) => Err(FileStop::Memory),
        Err(fault) => Err(FileStop::Fault(fault)),
    }
}

/// Reads a data file of `count` numbers, one a record. A file of more than 33,554,432 bytes has the fault `TooLong`.
pub fn read_numbers<F: Files>(
    alloc: Global,
    files: &mut F,
    name: &str,
    count: u64,
) -> Result<Numbers, FileStop>
    ensures read { IsFileEnd (files_read F.contents F.faults files.old files.new) name.now count result }
    ensures contents { F.contents files.new ≡ F.contents files.old }
    ensures faults { NoneFell (F.faults files.old) (F.faults files.new) }
    ensures reads { F.reads files.new ≤ F.reads files.old + 33554434 }
{
    match read_whole(alloc, files, name, DATA_LIMIT) {
        Ok(bytes) => numbers_of(alloc, bytes.as_slice(), count),
        Err(ReadStop::TooLong) => Err(FileStop::Fault(DataFault::TooLong)),
        Err(ReadStop::Failed) => Err(FileStop::Unread),
        Err(ReadStop::Memory) => Err(FileStop::Memory),
    }
}
