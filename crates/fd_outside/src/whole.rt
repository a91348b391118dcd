ghost use Rattle.std.specs.Prelude.{◌≡◌, ◌≢◌, ◌+◌, ◌≤◌, ◌<◌, length, IfOk, OnOk, OnErr, IfSome};
ghost use Rattle.fd_outside.specs.Causes.{Rose, HasCause, GrowsBy, NoneFell, appended, WrittenInPart};

use crate::within::{Failed, Files, Sink};
use fd_words::Bytes;
use std::alloc::Global;
use thiserror::Error;

/// Why a file could not be read whole.
#[derive(Clone, Copy, Debug, PartialEq, Eq, Error)]
pub enum ReadStop {
    #[error("a read failed")]
    Failed,
    #[error("the file is too long")]
    TooLong,
    #[error("out of memory")]
    Memory,
}

/// Reads all that a file holds, if that is at most `limit` bytes, by at most `limit + 2` reads. It
/// fails only where the count of the name rose.
pub fn read_whole<F: Files>(
    alloc: Global,
    files: &mut F,
    name: &str,
    limit: u64,
) -> Result<Bytes, ReadStop>
    ensures whole { IfOk result (λ b. IfSome (F.contents files.old name.now) (λ held. b ≡ held)) }
    ensures short { IfOk result (λ b. length b ≤ limit) }
    ensures long { result ≡ Err ReadStop.TooLong → IfSome (F.contents files.old name.now) (λ held. limit < length held) }
    ensures failed { result ≡ Err ReadStop.Failed → Rose (F.faults files.old name.now) (F.faults files.new name.now) }
    ensures same { F.contents files.new ≡ F.contents files.old }
    ensures later { NoneFell (F.faults files.old) (F.faults files.new) }
    ensures counted { F.reads files.new ≤ F.reads files.old + limit + 2 }
{
    let Ok(mut piece) = vec![in alloc; 0u8; 65536] else {
        return Err(ReadStop::Memory);
    };
    read_on(alloc, files, name, limit, piece.as_mut_slice())
}

/// Reads by pieces as large as the buffer.
fn read_on<F: Files>(
    alloc: Global,
    files: &mut F,
    name: &str,
    limit: u64,
    piece: &mut [u8],
) -> Result<Bytes, ReadStop>
    requires { 1 ≤ length piece.old }
    ensures whole { IfOk result (λ b. IfSome (F.contents files.old name.now) (λ held. b ≡ held)) }
    ensures short { IfOk result (λ b. length b ≤ limit) }
    ensures long { result ≡ Err ReadStop.TooLong → IfSome (F.contents files.old name.now) (λ held. limit < length held) }
    ensures failed { result ≡ Err ReadStop.Failed → Rose (F.faults files.old name.now) (F.faults files.new name.now) }
    ensures files { (F.contents files.new ≡ F.contents files.old) × NoneFell (F.faults files.old) (F.faults files.new) }
    ensures counted { F.reads files.new ≤ F.reads files.old + limit + 2 }
{
    let mut whole = Bytes::new(alloc);
    while whole.len() <= limit {
        if read_piece(files, name, piece, &mut whole)? == 0 {
            return Ok(whole);
        }
    }
    Err(ReadStop::TooLong)
}

/// Reads the bytes behind those that were read, as many as one read gives.
fn read_piece<F: Files>(
    files: &mut F,
    name: &str,
    piece: &mut [u8],
    whole: &mut Bytes,
) -> Result<usize, ReadStop>
    requires { 1 ≤ length piece.old }
    ensures grown { IfOk result (λ n. IfSome (F.contents files.old name.now) (λ held. GrowsBy held n whole.old whole.new)) }
    ensures more { IfOk result (λ n. length whole.new ≡ length whole.old + n) }
    ensures failed { result ≡ Err ReadStop.Failed → Rose (F.faults files.old name.now) (F.faults files.new name.now) }
    ensures long { result ≢ Err ReadStop.TooLong }
    ensures same { F.contents files.new ≡ F.contents files.old }
    ensures later { NoneFell (F.faults files.old) (F.faults files.new) }
    ensures counted { F.reads files.new ≤ F.reads files.old + 1 }
{
    let at = whole.len();
    let Ok(count) = files.read_at(name, at, piece) else {
        return Err(ReadStop::Failed);
    };
    if whole.append(&piece[..count]).is_err() {
        return Err(ReadStop::Memory);
    }
    Ok(count)
}

/// Writes the whole piece, by at most as many writes as it has bytes. Where it fails the sink's count
/// rose, and less than the piece was written.
pub fn write_whole<S: Sink>(sink: &mut S, piece: &[u8]) -> Result<(), Failed>
    ensures whole { OnOk result (S.written sink.new ≡ appended (S.written sink.old) piece.now) }
    ensures part { OnErr result (WrittenInPart (S.written sink.old) (S.written sink.new) piece.now) }
    ensures cause { HasCause (S.faults sink.old) (S.faults sink.new) result }
    ensures counted { S.writes sink.new ≤ S.writes sink.old + length piece.now }
{
    let mut done = 0;
    while done < piece.len() {
        done += sink.write(&piece[done..])?;
    }
    Ok(())
}
