ghost use Rattle.std.specs.Prelude.{◌≡◌, ◌≤◌, MatchResult};
ghost use Rattle.fd_edge.specs.Lines.{unread_line};
ghost use Rattle.fd_edge.specs.Endings.{IsLine, IsStopped, IsWritten, stop_of};

use crate::line::unread_line;
use fd_outside::{Sink, write_whole};
use fd_words::{Bytes, Memory};
use std::alloc::Global;

/// Why a program has no run: a line is written in its place, or memory is wanting.
#[derive(Debug, Drop)]
pub enum Stop {
    Line { status: u8, line: Bytes },
    Memory,
}

impl Stop {
    /// The stop with this status and this line, if memory sufficed for the line.
    pub fn of(status: u8, line: Result<Bytes, Memory>) -> Stop
        ensures { result ≡ stop_of status line }
    {
        match line {
            Ok(line) => Stop::Line { status, line },
            Err(Memory) => Stop::Memory,
        }
    }
}

/// Writes the bytes and answers the status, or 74 where the sink failed.
pub fn end<S: Sink>(out: &mut S, status: u8, bytes: &[u8]) -> u8
    ensures ends { IsWritten status bytes.now result (S.faults out.old) (S.faults out.new) (S.written out.old) (S.written out.new) }
    ensures later { S.faults out.old ≤ S.faults out.new }
{
    match write_whole(out, bytes) {
        Ok(()) => status,
        Err(_) => 74,
    }
}

/// Writes that a file can't be read, and answers 69; 70 where memory is wanting for the line.
pub fn end_unread<S: Sink>(alloc: Global, name: &str, out: &mut S) -> u8
    ensures line { IsLine 69 (unread_line name.now) result (S.faults out.old) (S.faults out.new) (S.written out.old) (S.written out.new) }
    ensures later { S.faults out.old ≤ S.faults out.new }
{
    match unread_line(alloc, name) {
        Ok(line) => end(out, 69, line.as_slice()),
        Err(Memory) => 70,
    }
}

/// Writes the line of a stop and answers its status; 70 where memory is wanting.
pub fn end_stop<S: Sink>(out: &mut S, stop: Stop) -> u8
    ensures ends { IsStopped stop result (S.faults out.old) (S.faults out.new) (S.written out.old) (S.written out.new) }
    ensures later { S.faults out.old ≤ S.faults out.new }
{
    match stop {
        Stop::Line { status, line } => end(out, status, line.as_slice()),
        Stop::Memory => 70,
    }
}

/// Writes the text of a run and answers 0; 70 where memory was wanting for it.
pub fn end_run<S: Sink>(out: &mut S, run: Result<Bytes, Memory>) -> u8
    ensures ends { MatchResult run
        (λ text. IsWritten 0 text result (S.faults out.old) (S.faults out.new) (S.written out.old) (S.written out.new))
        (λ memory. (result ≡ 70) × (S.written out.new ≡ S.written out.old)) }
    ensures later { S.faults out.old ≤ S.faults out.new }
{
    match run {
        Ok(text) => end(out, 0, text.as_slice()),
        Err(Memory) => 70,
    }
}
