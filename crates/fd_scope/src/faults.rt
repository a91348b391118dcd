ghost use Rattle.std.specs.Prelude.{◌≡◌, [], ◌++◌, length, OnOk, None, fold};
ghost use Rattle.fd_scope.specs.Faults.{fault_if, row_of, is_before_by, is_fault_before, is_new_least, lesser, IsFirst};

use fd_words::{List, Memory, SourceCause, SourceFault, SourcePlace};
use std::alloc::Global;
use std::marker::Model;

/// All faults found so far, seen as a list.
#[derive(Drop)]
pub struct Faults {
    items: List<SourceFault>,
}

impl Model for Faults {
    ghost use Rattle.std.specs.Prelude.{List};
    ghost use Rattle.fd_words.specs.declared.source.SourceFault.{SourceFault};

    ghost Value = { List SourceFault };

    ghost view = { λ n. n.items };
}

impl Faults {
    /// No fault, which takes no memory.
    pub fn new(alloc: Global) -> Faults
        ensures { result ≡ [] }
    {
        Faults {
            items: List::new(alloc),
        }
    }

    /// Notes a fault where a test holds.
    pub fn note_if(&mut self, test: bool, at: SourcePlace, cause: SourceCause) -> Result<(), Memory>
        ensures noted { OnOk result (self.new ≡ self.old ++ fault_if test at cause) }
    {
        if test {
            self.items.push(SourceFault { at, cause })
        } else {
            Ok(())
        }
    }

    pub fn len(&self) -> usize
        ensures { result ≡ length self.now }
    {
        self.items.as_slice().len()
    }

    /// The first fault, by place and by row of the table of faults.
    pub fn first(&self) -> Option<SourceFault>
        ensures { IsFirst result self.now }
    {
        least_of(self.items.as_slice())
    }
}

fn row(cause: &SourceCause) -> u32
    ensures { result ≡ row_of cause.now }
{
    match cause {
        SourceCause::BadByte => 0,
        SourceCause::NumberTooLarge => 1,
        SourceCause::NameTooLong => 2,
        SourceCause::NoEnd => 3,
        SourceCause::Unexpected => 4,
        SourceCause::TooDeep => 5,
        SourceCause::TooManyNames => 6,
        SourceCause::Unknown(_) => 7,
        SourceCause::NotIndex(_) => 8,
        SourceCause::Twice(_) => 9,
        SourceCause::ScalarTooLarge => 10,
        SourceCause::BadExtent => 11,
        SourceCause::AlignOutside => 12,
        SourceCause::MapLength => 13,
        SourceCause::AssignThroughIndex => 14,
        SourceCause::TwoAssigns(_) => 15,
        SourceCause::AssignAndReduce(_) => 16,
        SourceCause::TwoOperators(_) => 17,
        SourceCause::TooManyReferences => 18,
        SourceCause::TooManyStamps => 19,
        SourceCause::TooManyLoops => 20,
        SourceCause::TraceTooLong => 21,
        SourceCause::LoopTooLarge => 22,
        SourceCause::TextTooLong => 23,
    }
}

fn less(
    line: u32,
    column: u32,
    row: u32,
    other_line: u32,
    other_column: u32,
    other_row: u32,
) -> bool
    ensures { result ≡ is_before_by line column row other_line other_column other_row }
{
    line < other_line
        || (line == other_line
            && (column < other_column || (column == other_column && row < other_row)))
}

fn comes_before(fault: &SourceFault, other: &SourceFault) -> bool
    ensures { result ≡ is_fault_before fault.now other.now }
{
    less(
        fault.at.line,
        fault.at.column,
        row(&fault.cause),
        other.at.line,
        other.at.column,
        row(&other.cause),
    )
}

fn replaces(fault: &SourceFault, least: &Option<SourceFault>) -> bool
    ensures { result ≡ is_new_least fault.now least.now }
{
    match least {
        Some(least) => comes_before(fault, least),
        None => true,
    }
}

fn least_of(faults: &[SourceFault]) -> Option<SourceFault>
    ensures { result ≡ fold lesser None faults.now }
{
    let mut least = None;
    for fault in faults {
        if replaces(fault, &least) {
            least = Some(*fault);
        }
    }
    least
}
