use chaos_letter::{Letter, Wanted};

/// How a drive ended that met no fault: the node is done, or waits for a letter.
#[derive(Clone, Copy, Debug, PartialEq, Eq)]
pub enum Drove {
    Finished,
    Waiting,
}

/// Why a drive stopped: a letter that was taken isn't as wanted, or memory is wanting.
#[derive(Debug, Drop)]
pub enum DriveFault {
    Stray { wanted: Wanted, got: Letter },
    Memory,
}
