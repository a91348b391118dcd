use crate::text::append_lines;
use fd_front::{fault_line, read_source};
use fd_words::{Bytes, Memory, SourceStop};
use std::alloc::Global;

/// Why a source is refused, if it is.
fn stop_of(alloc: Global, source: &[u8]) -> Option<SourceStop> {
    if source.len() > 1_048_576 {
        return None;
    }
    read_source(alloc, source).err()
}

fn append_stop(alloc: Global, stop: SourceStop, told: &mut String) -> Result<(), Memory> {
    match stop {
        SourceStop::Fault(fault) => {
            let line = fault_line(alloc, fault)?;
            told.push_str(str::from_utf8(line.as_slice()).unwrap_or("no text\n"))?;
            Ok(())
        }
        SourceStop::Memory => Err(Memory),
    }
}

/// The line that refuses a source, or that it is accepted.
pub(crate) fn refusal(alloc: Global, lines: &str, told: &mut String) -> Result<(), Memory> {
    let mut source = Bytes::new(alloc);
    append_lines(alloc, &mut source, lines)?;
    match stop_of(alloc, source.as_slice()) {
        Some(stop) => append_stop(alloc, stop, told),
        None => {
            told.push_str("accepted\n")?;
            Ok(())
        }
    }
}
