ghost use Rattle.std.specs.Prelude.{◌≡◌, ℕ, ◌+◌, ◌≤◌, List, Option, length, IfOk, IfSome};
ghost use Rattle.fd_outside.specs.Causes.{HasCause, GivesFrom, NoneFell, appended, taken};

/// The outside failed, and counted it.
#[derive(Clone, Copy, Debug, PartialEq, Eq)]
pub struct Failed;

/// Files that are read by name. Each name has a count of faults that never falls; at its last value,
/// the greatest `u64`, it counts as risen.
pub trait Files {
    /// What the file of each name holds, where it is told.
    ghost contents: { Self → List ℕ → Option (List ℕ) };
    /// How often a read of each name has failed.
    ghost faults: { Self → List ℕ → ℕ };
    /// How many reads are counted.
    ghost reads: { Self → ℕ };

    /// Reads from a place, from 0, into the first places of `into`, as many bytes as the answer says.
    /// No byte into a place that isn't empty means that the contents end there or before. A read
    /// changes no contents, and fails only where the count of its name rises.
    fn read_at(&mut self, name: &str, at: u64, into: &mut [u8]) -> Result<usize, Failed>
        ensures most { IfOk result (λ n. n ≤ length into.old) }
        ensures bytes { IfOk result (λ n. IfSome (contents self.old name.now) (λ held. GivesFrom held at n into.new)) }
        ensures same { contents self.new ≡ contents self.old }
        ensures cause { HasCause (faults self.old name.now) (faults self.new name.now) result }
        ensures later { NoneFell (faults self.old) (faults self.new) }
        ensures counted { reads self.new ≤ reads self.old + 1 };
}

/// Where bytes go. Its count of faults never falls; at its last value, the greatest `u64`, it counts
/// as risen.
pub trait Sink {
    /// What was written, where it is told.
    ghost written: { Self → Option (List ℕ) };
    /// How often a write has failed.
    ghost faults: { Self → ℕ };
    /// How many writes are counted.
    ghost writes: { Self → ℕ };

    /// Appends the first bytes of the piece, as many as the answer says: one at least where the piece
    /// isn't empty. A write that fails appends nothing, and comes only where the count rises.
    fn write(&mut self, piece: &[u8]) -> Result<usize, Failed>
        ensures most { IfOk result (λ n. n ≤ length piece.now) }
        ensures some { IfOk result (λ n. 1 ≤ length piece.now → 1 ≤ n) }
        ensures bytes { written self.new ≡ appended (written self.old) (taken result piece.now) }
        ensures cause { HasCause (faults self.old) (faults self.new) result }
        ensures counted { writes self.new ≤ writes self.old + 1 };
}
