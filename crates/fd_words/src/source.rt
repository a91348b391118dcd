ghost use Rattle.std.specs.Prelude.{◌≡◌};

use crate::{Memory, Name};
use std::alloc::{AllocError, AllocFailed};

/// A place in a source: line and column from 1, the column in bytes.
#[derive(Clone, Copy, Debug, PartialEq, Eq)]
pub struct SourcePlace {
    pub line: u32,
    pub column: u32,
}

/// Why a source is refused.
#[derive(Clone, Copy, Debug, PartialEq, Eq)]
pub enum SourceCause {
    BadByte,
    NumberTooLarge,
    NameTooLong,
    NoEnd,
    Unexpected,
    TooDeep,
    TooManyNames,
    Unknown(Name),
    NotIndex(Name),
    Twice(Name),
    ScalarTooLarge,
    BadExtent,
    AlignOutside,
    MapLength,
    AssignThroughIndex,
    TwoAssigns(Name),
    AssignAndReduce(Name),
    TwoOperators(Name),
    TooManyReferences,
    TooManyStamps,
    TooManyLoops,
    TraceTooLong,
    LoopTooLarge,
    TextTooLong,
}

/// The first fault of a source, and its place.
#[derive(Clone, Copy, Debug, PartialEq, Eq)]
pub struct SourceFault {
    pub at: SourcePlace,
    pub cause: SourceCause,
}

/// Why a pass over a source ended early.
#[derive(Clone, Copy, Debug, PartialEq, Eq)]
pub enum SourceStop {
    Fault(SourceFault),
    Memory,
}

impl From<Memory> for SourceStop {
    ghost use Rattle.fd_words.specs.declared.source.SourceStop.TheVariants.{Memory};

    ghost from_gives = { λ _ stop. stop ≡ Memory };

    fn from(_memory: Memory) -> SourceStop {
        SourceStop::Memory
    }
}

impl From<AllocError> for SourceStop {
    ghost use Rattle.fd_words.specs.declared.source.SourceStop.TheVariants.{Memory};

    ghost from_gives = { λ _ stop. stop ≡ Memory };

    fn from(_error: AllocError) -> SourceStop {
        SourceStop::Memory
    }
}

impl<T: Drop> From<AllocFailed<T>> for SourceStop {
    ghost use Rattle.fd_words.specs.declared.source.SourceStop.TheVariants.{Memory};

    ghost from_gives = { λ _ stop. stop ≡ Memory };

    fn from(_failed: AllocFailed<T>) -> SourceStop {
        SourceStop::Memory
    }
}
