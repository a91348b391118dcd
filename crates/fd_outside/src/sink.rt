ghost use Rattle.std.specs.Prelude.{◌≡◌, ◌+◌, ◌-◌, ◌≤◌, ◌⊎◌, ◌↔◌, min, length, take, drop, IfOk, OnOk, OnErr, IsErr, [], ◌++◌};
ghost use Rattle.fd_outside.specs.Causes.{HasCause, appended, taken, risen};
ghost use Rattle.fd_outside.specs.Memory.{sink_bytes, sink_faults, next_call, failing_calls, sink_room, sink_step, CannotTake};

use crate::count::one_more;
use crate::within::{Failed, Sink};
use fd_words::{Memory, Numbers};
use std::alloc::Global;

/// A sink in memory, with room for so many bytes.
#[derive(Debug, Drop)]
pub struct MemorySink {
    bytes: Vec<u8>,
    len: usize,
    per_call: u64,
    failing: Numbers,
    calls: u64,
    faults: u64,
}

impl MemorySink {
    /// A sink with `room` for so many bytes, of which a call takes `per_call` at most. The calls
    /// whose numbers, from 0, are in `failing` fail.
    pub fn new(
        alloc: Global,
        room: u64,
        per_call: u64,
        failing: Numbers,
    ) -> Result<MemorySink, Memory>
        requires { 1 ≤ per_call }
        ensures bytes { IfOk result (λ s. sink_bytes s ≡ []) }
        ensures faults { IfOk result (λ s. sink_faults s ≡ 0) }
        ensures calls { IfOk result (λ s. next_call s ≡ 0) }
        ensures failing { IfOk result (λ s. failing_calls s ≡ failing) }
        ensures room { IfOk result (λ s. sink_room s ≡ room) }
        ensures step { IfOk result (λ s. sink_step s ≡ per_call) }
    {
        let bytes = vec![in alloc; 0u8; room as usize]?;
        Ok(MemorySink {
            bytes,
            len: 0,
            per_call,
            failing,
            calls: 0,
            faults: 0,
        })
    }

    /// The bytes that were written.
    pub fn written(&self) -> &[u8]
        ensures { result.now ≡ sink_bytes self.now }
    {
        &self.bytes[..self.len.min(self.bytes.len())]
    }
}

impl Sink for MemorySink {
    ghost use Rattle.std.specs.Prelude.{Some};

    ghost written = { λ s. Some (sink_bytes s) };

    ghost faults = { sink_faults };

    ghost writes = { next_call };

    /// It fails where its number is among the failing ones, or where it has bytes and there is no
    /// room.
    fn write(&mut self, piece: &[u8]) -> Result<usize, Failed>
        ensures most { IfOk result (λ n. n ≤ length piece.now) }
        ensures some { IfOk result (λ n. 1 ≤ length piece.now → 1 ≤ n) }
        ensures bytes { Some (sink_bytes self.new) ≡ appended (Some (sink_bytes self.old)) (taken result piece.now) }
        ensures cause { HasCause (sink_faults self.old) (sink_faults self.new) result }
        ensures counted { next_call self.new ≤ next_call self.old + 1 }

        ensures fails { IsErr result ↔ CannotTake self.old piece.now }
        ensures takes { IfOk result (λ n. n ≡ min (min (length piece.now) (sink_step self.old)) (sink_room self.old)) }
        ensures rose { OnErr result (sink_faults self.new ≡ risen (sink_faults self.old)) }
        ensures kept { OnOk result (sink_faults self.new ≡ sink_faults self.old) }
        ensures call { next_call self.new ≡ risen (next_call self.old) }
        ensures left { sink_room self.new ≡ sink_room self.old - length (taken result piece.now) }
        ensures step { sink_step self.new ≡ sink_step self.old }
        ensures failing { failing_calls self.new ≡ failing_calls self.old }
    {
        let call = self.calls;
        self.calls = one_more(self.calls);
        let left = self.bytes.len().saturating_sub(self.len);
        if self.failing.has(call) || (left == 0 && !piece.is_empty()) {
            self.faults = one_more(self.faults);
            return Err(Failed);
        }
        let most = self.per_call.max(1) as usize;
        let count = piece.len().min(most).min(left);
        if count == 0 {
            return Ok(0);
        }
        put_at(self.bytes.as_mut_slice(), self.len, &piece[..count]);
        self.len += count;
        Ok(count)
    }
}

/// Writes a piece over what stands there.
fn put_at(bytes: &mut [u8], at: usize, piece: &[u8])
    requires { at + length piece.now ≤ length bytes.old }
    ensures { take (at + length piece.now) bytes.new ≡ take at bytes.old ++ piece.now }
{
    bytes[at..at + piece.len()].copy_from_slice(piece);
}
