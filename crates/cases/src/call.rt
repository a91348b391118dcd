//! What the top calls are given, and what they wrote. Data files have commas between; each is written as its name, a
//! blank, and its lines with `/` between.

use crate::text::{append_line, append_lines, first_line};
use fd_outside::{MemoryFiles, MemorySink};
use fd_words::{Bytes, Memory, Numbers};
use std::alloc::{AllocError, Global};

/// Words with blanks between.
pub(crate) fn words_of(alloc: Global, text: &str) -> Result<Vec<String>, AllocError> {
    let mut words = Vec::new(alloc);
    for word in text.split_whitespace() {
        words.push(String::from_str(alloc, word)?)?;
    }
    Ok(words)
}

fn add_data(alloc: Global, files: &mut MemoryFiles, text: &str) -> Result<(), Memory> {
    if let Some((name, lines)) = text.split_once(' ') {
        let mut bytes = Bytes::new(alloc);
        for line in lines.split('/') {
            append_line(alloc, &mut bytes, line)?;
        }
        files.add(alloc, name, bytes)?;
    }
    Ok(())
}

/// The data files, and the source, if there is one.
fn files_of(alloc: Global, lines: &str) -> Result<MemoryFiles, Memory> {
    let (data, source) = first_line(lines);
    let mut files = MemoryFiles::new(alloc, Numbers::new(alloc));
    if !source.is_empty() {
        let mut bytes = Bytes::new(alloc);
        append_lines(alloc, &mut bytes, source)?;
        files.add(alloc, "a.fd", bytes)?;
    }
    for file in data.split(", ") {
        add_data(alloc, &mut files, file)?;
    }
    Ok(files)
}

/// The files, and a sink that takes so few bytes in a call that each line is cut.
pub(crate) fn outside_of(alloc: Global, lines: &str) -> Result<(MemoryFiles, MemorySink), Memory> {
    let files = files_of(alloc, lines)?;
    let out = MemorySink::new(alloc, 65536, 5, Numbers::new(alloc))?;
    Ok((files, out))
}

/// Ends a line that stood so many times.
fn append_times(alloc: Global, told: &mut String, times: u32) -> Result<(), Memory> {
    if times > 1 {
        told.push_str(format!(in alloc; " ({times} times)")?.as_str())?;
    }
    if times > 0 {
        told.push_str("\n")?;
    }
    Ok(())
}

/// Lines, where one that stands several times in a row is told once.
pub(crate) fn append_text(alloc: Global, told: &mut String, text: &str) -> Result<(), Memory> {
    let mut last = "";
    let mut times = 0u32;
    for line in text.strip_suffix('\n').unwrap_or(text).split('\n') {
        if times == 0 || line != last {
            append_times(alloc, told, times)?;
            told.push_str(line)?;
            times = 0;
        }
        last = line;
        times = times.saturating_add(1);
    }
    append_times(alloc, told, times)
}

/// What was written.
pub(crate) fn append_written(
    alloc: Global,
    told: &mut String,
    written: &[u8],
) -> Result<(), Memory> {
    match str::from_utf8(written) {
        Ok("") => Ok(()),
        Ok(text) => append_text(alloc, told, text),
        Err(_) => {
            told.push_str("no text\n")?;
            Ok(())
        }
    }
}
