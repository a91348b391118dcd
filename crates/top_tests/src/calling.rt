//! The top calls over words and files that are written as one text each.

use bsp_core::Played;
use bsp_mail::Mail;
use fd_outside::{MemoryFiles, MemorySink, OpenGate};
use fd_top::{play_program, run_program};
use fd_words::{Bytes, Memory, Numbers};
use std::alloc::{AllocError, Global};
use std::process::Abort;
use std::sync::Wait;
use std::test::Fail;
use std::thread::Threads;

/// Words with blanks between.
pub(crate) fn words_of(alloc: Global, text: &str) -> Result<Vec<String>, AllocError> {
    let mut words = Vec::new(alloc);
    for word in text.split_whitespace() {
        words.push(String::from_str(alloc, word)?)?;
    }
    Ok(words)
}

pub(crate) fn bytes_of(alloc: Global, text: &str) -> Result<Bytes, Memory> {
    let mut bytes = Bytes::new(alloc);
    bytes.append(text.as_bytes())?;
    Ok(bytes)
}

/// A text, then a piece so many times, then another text.
pub(crate) fn repeated(
    alloc: Global,
    before: &str,
    piece: &str,
    times: u32,
    after: &str,
) -> Result<String, AllocError> {
    let mut text = String::from_str(alloc, before)?;
    for _ in 0..times {
        text.push_str(piece)?;
    }
    text.push_str(after)?;
    Ok(text)
}

/// The numbers of the calls that fail: this one alone, or none.
fn only(alloc: Global, call: Option<i64>) -> Result<Numbers, Memory> {
    let mut failing = Numbers::new(alloc);
    if let Some(number) = call {
        failing.push(number)?;
    }
    Ok(failing)
}

/// Adds a file that is written as its name, a blank, and its lines with `/` between.
fn add(alloc: Global, files: &mut MemoryFiles, text: &str) -> Result<(), Memory> {
    if let Some((name, lines)) = text.split_once(' ') {
        let mut bytes = Bytes::new(alloc);
        for line in lines.split('/') {
            bytes.append(line.as_bytes())?;
            bytes.append(b"\n")?;
        }
        files.add(alloc, name, bytes)?;
    }
    Ok(())
}

/// A source, if there is one, and data files with commas between; the read with this number fails.
pub(crate) fn files_of(
    alloc: Global,
    source: &str,
    data: &str,
    read_fails: Option<i64>,
) -> Result<MemoryFiles, Memory> {
    let mut files = MemoryFiles::new(alloc, only(alloc, read_fails)?);
    if !source.is_empty() {
        files.add(alloc, "a.fd", bytes_of(alloc, source)?)?;
    }
    for file in data.split(", ") {
        add(alloc, &mut files, file)?;
    }
    Ok(files)
}

/// A sink that takes so few bytes in a call that each line is cut; the write with this number fails.
pub(crate) fn sink(alloc: Global, write_fails: Option<i64>) -> Result<MemorySink, Memory> {
    MemorySink::new(alloc, 65536, 5, only(alloc, write_fails)?)
}

/// What comes of words and files by turns.
pub(crate) fn comes(
    rt: &impl Abort,
    alloc: Global,
    text: &str,
    mut files: MemoryFiles,
    mut out: MemorySink,
    status: u8,
    written: &str,
) -> Result<(), Fail> {
    let words = words_of(alloc, text)?;
    let mut played = Played::new(alloc);
    let ended = play_program(alloc, words.as_slice(), &mut files, &mut out, &mut played);
    assert_eq!(rt; ended, status);
    assert_eq!(rt; out.written(), written.as_bytes());
    Ok(())
}

/// What comes of words and files by threads.
pub(crate) fn comes_by_threads<R: Threads + Wait + Sync + Abort>(
    rt: &R,
    alloc: Global,
    text: &str,
    mut files: MemoryFiles,
    mut out: MemorySink,
    status: u8,
    written: &str,
) -> Result<(), Fail> {
    let words = words_of(alloc, text)?;
    let mut mail = Mail::new(alloc)?;
    let ended = run_program(
        rt,
        alloc,
        words.as_slice(),
        &mut files,
        &mut out,
        &OpenGate,
        &mut mail,
    );
    assert_eq!(rt; ended, status);
    assert_eq!(rt; out.written(), written.as_bytes());
    Ok(())
}
