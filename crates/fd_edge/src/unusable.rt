ghost use Rattle.std.specs.Prelude.{◌≡◌, ℕ, Err};
ghost use Rattle.fd_edge.specs.Endings.{StopsAs};
ghost use Rattle.fd_edge.specs.Files.{IsFileEnd};
ghost use Rattle.fd_edge.specs.Readings.{Reading};
ghost use Rattle.fd_edge.specs.Unusable.{IsUnusable};

use crate::ending::Stop;
use crate::file::FileStop;
use crate::line::{fault_line, unread_line};
use std::alloc::Global;

/// The line for a file that gave no numbers, with its status.
pub fn stop_for(alloc: Global, name: &str, stop: FileStop) -> Stop
    ensures { (r : Reading) (count : ℕ) → IsFileEnd r name.now count (Err stop) → StopsAs (IsUnusable r count name.now) result }
{
    match stop {
        FileStop::Unread => Stop::of(69, unread_line(alloc, name)),
        FileStop::Fault(fault) => Stop::of(66, fault_line(alloc, name.as_bytes(), fault)),
        FileStop::Memory => Stop::Memory,
    }
}
