//! Texts as they are written in a case: `\n`, `\t` and `\r` stand for a line end, a tab and a carriage return, `\` at the
//! end of a line says that no line end follows, and `{FIRST LAST PIECE}` is the piece for each number from the first to
//! the last, where `#` stands for the number.

use fd_words::{Bytes, Memory};
use std::alloc::Global;

/// The first line of a text, and the lines behind it.
pub(crate) fn first_line(text: &str) -> (&str, &str) {
    text.split_once('\n').unwrap_or((text, ""))
}

/// The byte that a letter behind a `\` stands for.
fn meant(letter: u8) -> u8 {
    match letter {
        b'n' => b'\n',
        b't' => b'\t',
        b'r' => b'\r',
        _ => letter,
    }
}

fn append_plain(bytes: &mut Bytes, text: &str) -> Result<(), Memory> {
    let mut is_meant = false;
    for letter in text.as_bytes() {
        if is_meant {
            bytes.push(meant(*letter))?;
            is_meant = false;
        } else if *letter == b'\\' {
            is_meant = true;
        } else {
            bytes.push(*letter)?;
        }
    }
    Ok(())
}

/// A piece with a number for each `#`.
fn append_numbered(
    alloc: Global,
    bytes: &mut Bytes,
    piece: &str,
    number: u32,
) -> Result<(), Memory> {
    let number = format!(in alloc; "{number}")?;
    let mut is_first = true;
    for part in piece.split('#') {
        if !is_first {
            bytes.append(number.as_bytes())?;
        }
        append_plain(bytes, part)?;
        is_first = false;
    }
    Ok(())
}

/// A number of a repeated piece, and what stands behind it.
fn number_and_rest(text: &str) -> (u32, &str) {
    match text.split_once(' ') {
        Some((number, rest)) => (number.parse::<u32>().unwrap_or(0), rest),
        None => (0, text),
    }
}

fn append_repeated(alloc: Global, bytes: &mut Bytes, text: &str) -> Result<(), Memory> {
    let (first, rest) = number_and_rest(text);
    let (last, piece) = number_and_rest(rest);
    for number in first..last.saturating_add(1) {
        append_numbered(alloc, bytes, piece, number)?;
    }
    Ok(())
}

/// What stands behind a `{`: a repeated piece, and a plain text.
fn append_part(alloc: Global, bytes: &mut Bytes, part: &str) -> Result<(), Memory> {
    match part.split_once('}') {
        Some((repeated, plain)) => {
            append_repeated(alloc, bytes, repeated)?;
            append_plain(bytes, plain)
        }
        None => append_plain(bytes, part),
    }
}

fn append_parts(alloc: Global, bytes: &mut Bytes, line: &str) -> Result<(), Memory> {
    for part in line.split('{') {
        append_part(alloc, bytes, part)?;
    }
    Ok(())
}

/// Appends a line and its end.
pub(crate) fn append_line(alloc: Global, bytes: &mut Bytes, line: &str) -> Result<(), Memory> {
    match line.strip_suffix('\\') {
        Some(open) => append_parts(alloc, bytes, open),
        None => {
            append_parts(alloc, bytes, line)?;
            bytes.push(b'\n')
        }
    }
}

/// Appends lines that each have an end in the case.
pub(crate) fn append_lines(alloc: Global, bytes: &mut Bytes, lines: &str) -> Result<(), Memory> {
    let whole = lines.strip_suffix('\n').unwrap_or(lines);
    for line in whole.split('\n') {
        append_line(alloc, bytes, line)?;
    }
    Ok(())
}
