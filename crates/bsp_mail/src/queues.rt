ghost use Rattle.std.specs.Prelude.{◌≡◌, ◌<◌, ◌∷◌, [], ◌++◌, IfOk};
ghost use Rattle.bsp_mail.specs.Seats.{below, place};

use crate::line::Line;
use fd_words::Memory;

/// A line, which is ended where it is dropped.
pub struct Queue {
    pub line: Line,
}

impl Drop for Queue {
    fn drop(self) {
        let Self { line } = self;
        line.destroy();
    }
}

/// The lines of all ordered pairs of seats: first those from seat 0, in the order of the seats that
/// they lead to, then those from seat 1, and so on.
#[derive(Drop)]
pub struct Queues {
    pub lines: Vec<Queue>,
}

/// How many of the seats below `to` aren't `me`: the place of seat `to` among the others.
pub(crate) fn below_of(me: u32, to: u32) -> usize
    ensures { result ≡ below me to }
{
    if me < to {
        to as usize - 1
    } else {
        to as usize
    }
}

/// The place of a pair's line.
pub(crate) fn place_of(from: u32, to: u32) -> usize
    requires { (from < 16) × (to < 16) }
    ensures { result ≡ place from to }
{
    15 * from as usize + below_of(from, to)
}

impl Queues {
    /// Adds the next line.
    pub(crate) fn push(&mut self, line: Line) -> Result<(), Memory>
        ensures { IfOk result (λ _. self.new.lines.items ≡ self.old.lines.items ++ (record { line = line }) ∷ []) }
    {
        self.lines.push(Queue { line })?;
        Ok(())
    }
}
