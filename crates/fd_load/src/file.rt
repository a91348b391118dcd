ghost use Rattle.std.specs.Prelude.{◌≡◌, ◌+◌, ◌≤◌, string_bytes, IfOk};
ghost use Rattle.fd_outside.specs.Causes.{NoneFell};
ghost use Rattle.fd_edge.specs.Readings.{files_read};
ghost use Rattle.fd_edge.specs.Files.{IsFileEnd};
ghost use Rattle.fd_load.specs.Files.{file_name, file_of};

use fd_edge::{FileStop, read_numbers};
use fd_outside::Files;
use fd_program::ArrayFacts;
use fd_words::{Memory, Name, Numbers};
use std::alloc::Global;

/// The file of an array: its name in lower case, and `.csv`.
pub fn file_name(alloc: Global, name: &Name) -> Result<String, Memory>
    ensures { IfOk result (λ text. string_bytes text ≡ file_name name.now) }
{
    let mut text = String::new(alloc);
    let bytes = name.as_slice();
    for byte in bytes {
        text.push(char::from(byte.to_ascii_lowercase()))?;
    }
    text.push_str(".csv")?;
    Ok(text)
}

/// Reads the file of an array.
pub(crate) fn read_file<F: Files>(
    alloc: Global,
    files: &mut F,
    facts: &ArrayFacts,
) -> Result<Numbers, FileStop>
    ensures read { IsFileEnd (files_read F.contents F.faults files.old files.new) (file_of facts.now) facts.now.extent result }
    ensures contents { F.contents files.new ≡ F.contents files.old }
    ensures faults { NoneFell (F.faults files.old) (F.faults files.new) }
    ensures reads { F.reads files.new ≤ F.reads files.old + 33554434 }
{
    let Ok(name) = file_name(alloc, &facts.name) else {
        return Err(FileStop::Memory);
    };
    read_numbers(alloc, files, name.as_str(), facts.extent)
}
