use crate::call::{append_written, outside_of, words_of};
use crate::letters::{append_count, append_letters, append_moves};
use crate::text::first_line;
use chaos_append::append_program;
use chaos_rcb::bisect_program;
use fd_outside::{MemoryFiles, MemorySink};
use fd_top::{Mail, OpenGate, Played, play_program, run_program};
use fd_words::Memory;
use std::alloc::Global;
use std::sync::Wait;
use std::thread::Threads;

/// What is told of a run beside its status and text.
#[derive(Clone, Copy)]
pub(crate) enum Shown {
    Text,
    Count,
    Moves,
    Letters,
}

fn append_end(alloc: Global, told: &mut String, status: u8, written: &[u8]) -> Result<(), Memory> {
    told.push_str(format!(in alloc; "status {status}\n")?.as_str())?;
    append_written(alloc, told, written)
}

fn append_played(
    alloc: Global,
    told: &mut String,
    shown: Shown,
    played: &Played,
) -> Result<(), Memory> {
    match shown {
        Shown::Text => Ok(()),
        Shown::Count => append_count(alloc, told, played),
        Shown::Moves => append_moves(alloc, told, played),
        Shown::Letters => append_letters(alloc, told, played),
    }
}

/// What comes of nodes in turns, or of one machine.
pub(crate) fn play(
    alloc: Global,
    lines: &str,
    shown: Shown,
    told: &mut String,
) -> Result<(), Memory> {
    let (words, rest) = first_line(lines);
    let words = words_of(alloc, words)?;
    let (mut files, mut out) = outside_of(alloc, rest)?;
    let mut played = Played::new(alloc);
    let status = play_program(alloc, words.as_slice(), &mut files, &mut out, &mut played);
    append_end(alloc, told, status, out.written())?;
    append_played(alloc, told, shown, &played)
}

/// A program whose nodes are driven by threads.
#[derive(Clone, Copy)]
pub(crate) enum Program {
    Run,
    Append,
    Bisect,
}

/// The status of a program's call.
fn called<R: Threads + Wait + Sync>(
    rt: &R,
    alloc: Global,
    program: Program,
    words: &[String],
    files: &mut MemoryFiles,
    out: &mut MemorySink,
) -> Result<u8, Memory> {
    let mut mail = Mail::new(alloc)?;
    let gate = &OpenGate;
    Ok(match program {
        Program::Run => run_program(rt, alloc, words, files, out, gate, &mut mail),
        Program::Append => append_program(rt, alloc, words, files, out, gate, &mut mail),
        Program::Bisect => bisect_program(rt, alloc, words, files, out, gate, &mut mail),
    })
}

/// What comes of nodes by threads.
pub(crate) fn run<R: Threads + Wait + Sync>(
    rt: &R,
    alloc: Global,
    program: Program,
    lines: &str,
    told: &mut String,
) -> Result<(), Memory> {
    let (words, rest) = first_line(lines);
    let words = words_of(alloc, words)?;
    let (mut files, mut out) = outside_of(alloc, rest)?;
    let status = called(rt, alloc, program, words.as_slice(), &mut files, &mut out)?;
    append_end(alloc, told, status, out.written())
}
