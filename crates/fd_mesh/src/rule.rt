ghost use Rattle.std.specs.Prelude.{◌≡◌, ◌<◌, ◌≤◌, ◌^◌};
ghost use Rattle.fd_mesh.specs.Mesh.{number_at};

/// How a line's number follows from j, which counts the elements from 1.
#[derive(Clone, Copy)]
pub enum Rule {
    /// The element's own number.
    Place,
    /// The number that chooses the element's owner.
    Mapped,
    /// The next element, and the first after the last.
    Ring,
    /// The element that the square of j chooses.
    Chord,
}

impl Rule {
    /// The number at j. Products stay far below 2 ^ 64.
    pub fn number(self, seed: u64, size: u64, j: u64) -> u64
        requires seed_fits { seed < 2 ^ 32 }
        requires some { 0 < size }
        requires within { j ≤ 100000 }
        ensures { result ≡ number_at self seed size j }
    {
        match self {
            Rule::Place => j,
            Rule::Mapped => 7 * j + seed,
            Rule::Ring => j % size + 1,
            Rule::Chord => (j * j + seed) % size + 1,
        }
    }
}
