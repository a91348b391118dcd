ghost use Rattle.std.specs.Prelude.{◌≡◌};
ghost use Rattle.fd_grammar.specs.Machine.{heading_of, opening_by, inner_opening_of, closing_of};

use crate::mark::Fixed;
use crate::sort::Sort;
use fd_words::Name;

/// What a line of the head begins with.
#[derive(Clone, Copy, Debug, PartialEq, Eq)]
pub enum Heading {
    Blank,
    Parameters,
    Integers,
    Decompositions,
    Aligns,
    Reads,
    Outputs,
    Distributes,
}

pub fn heading_of(sort: Sort) -> Option<Heading>
    ensures { result ≡ heading_of sort }
{
    match sort {
        Sort::LineEnd => Some(Heading::Blank),
        Sort::ParameterWord => Some(Heading::Parameters),
        Sort::IntegerWord => Some(Heading::Integers),
        Sort::DecompositionWord => Some(Heading::Decompositions),
        Sort::AlignWord => Some(Heading::Aligns),
        Sort::ReadWord => Some(Heading::Reads),
        Sort::OutputWord => Some(Heading::Outputs),
        Sort::DistributeWord => Some(Heading::Distributes),
        _ => None,
    }
}

/// What a line of the body begins with.
#[derive(Clone, Copy, Debug, PartialEq, Eq)]
pub enum Opening {
    Blank,
    Distributes,
    Prints,
    Repeats,
    Ranges,
}

pub fn opening_of(sort: Sort) -> Option<Opening>
    ensures { result ≡ opening_by sort }
{
    match sort {
        Sort::LineEnd => Some(Opening::Blank),
        Sort::DistributeWord => Some(Opening::Distributes),
        Sort::PrintWord => Some(Opening::Prints),
        Sort::DoWord => Some(Opening::Repeats),
        Sort::ForallWord => Some(Opening::Ranges),
        _ => None,
    }
}

/// What a line in a FORALL begins with.
#[derive(Clone, Copy, Debug, PartialEq, Eq)]
pub enum InnerOpening {
    Blank,
    Assigns(Name),
    Reduces,
}

pub fn inner_opening_of(sort: Sort) -> Option<InnerOpening>
    ensures { result ≡ inner_opening_of sort }
{
    match sort {
        Sort::LineEnd => Some(InnerOpening::Blank),
        Sort::Named(name) => Some(InnerOpening::Assigns(name)),
        Sort::ReduceWord => Some(InnerOpening::Reduces),
        _ => None,
    }
}

/// What has statements that something ends.
#[derive(Clone, Copy, Debug, PartialEq, Eq)]
pub enum Closer {
    EndOfProgram,
    EndOfDo,
    EndOfForall,
}

/// What has to follow a word that ends such statements, if anything.
pub fn closing_of(closer: Closer, sort: Sort) -> Option<Option<Fixed>>
    ensures { result ≡ closing_of closer sort }
{
    match (closer, sort) {
        (Closer::EndOfDo, Sort::EndDoWord) => Some(None),
        (Closer::EndOfDo, Sort::EndWord) => Some(Some(Fixed::Do)),
        (Closer::EndOfForall, Sort::EndForallWord) => Some(None),
        (Closer::EndOfForall, Sort::EndWord) => Some(Some(Fixed::Forall)),
        (Closer::EndOfProgram, Sort::EndWord) => Some(None),
        _ => None,
    }
}
