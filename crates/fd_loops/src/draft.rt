ghost use Rattle.std.specs.Prelude.{◌≡◌, ◌++◌, ◌∷◌, [], OnOk, IfOk, slice_set};
ghost use Rattle.fd_loops.specs.Drafts.{start_draft, is_crowded, is_nearly_crowded, with_reference, next_number, crowd_faults, same_marks};
ghost use Rattle.fd_loops.specs.Drafts.{is_stamped, stamp_in, used_at, stamp_for, with_stamp, after_stamp, stamp_faults, after_target};

use fd_program::{CheckedBodyList, CheckedScalars, Reference, References};
use fd_resolve::{Mark, Marks};
use fd_scope::Faults;
use fd_words::{Combine, Memory, Name, SourceCause, SourcePlace};
use sqlite_items::Items;
use std::alloc::Global;

/// The most references of a FORALL.
const MOST_REFERENCES: usize = 64;

/// The most stamps of a decomposition.
const MOST_STAMPS: u32 = 128;

/// The stamp of a reference: of arrays with this decomposition and offset, and of this subscript.
#[derive(Drop)]
pub struct Stamped {
    pub decomposition: u32,
    pub offset: i64,
    pub marks: Marks,
    pub stamp: u32,
}

/// The stamps of a FORALL in the order in which they are needed.
pub type StampedList = Items<Stamped>;

/// A target of a FORALL: assigned, or reduced with an operator.
#[derive(Clone, Copy, Debug, PartialEq, Eq)]
pub struct Target {
    pub name: Name,
    pub operator: Option<Combine>,
}

/// The targets of a FORALL in order.
pub type TargetList = Items<Target>;

/// How many stamps of each decomposition are used.
pub type UsedStamps = Items<u32>;

/// A FORALL as far as its body is through.
#[derive(Drop)]
pub struct Draft {
    pub references: References,
    pub terms: CheckedScalars,
    pub body: CheckedBodyList,
    pub targets: TargetList,
    pub stamped: StampedList,
    pub used: UsedStamps,
}

fn same_key(marks: &[Mark], other: &[Mark]) -> bool
    ensures { result ≡ same_marks marks.now other.now }
{
    marks == other
}

fn is_same(stamped: &Stamped, decomposition: u32, offset: i64, marks: &[Mark]) -> bool
    ensures { result ≡ is_stamped decomposition offset marks.now stamped.now }
{
    stamped.decomposition == decomposition
        && stamped.offset == offset
        && same_key(stamped.marks.as_slice(), marks)
}

fn stamp_among(stamps: &[Stamped], decomposition: u32, offset: i64, marks: &[Mark]) -> Option<u32>
    ensures { result ≡ stamp_in stamps.now decomposition offset marks.now }
{
    for stamped in stamps {
        if is_same(stamped, decomposition, offset, marks) {
            return Some(stamped.stamp);
        }
    }
    None
}

fn used_of(used: &UsedStamps, decomposition: u32) -> u32
    ensures { result ≡ used_at used.now decomposition }
{
    used.get(decomposition as usize).copied().unwrap_or(0)
}

fn set_used(used: &mut UsedStamps, decomposition: u32, count: u32)
    ensures { used.new ≡ slice_set used.old decomposition count }
{
    if (decomposition as usize) < used.len() {
        used.set(decomposition as usize, count);
    }
}

impl Draft {
    /// Nothing of the body is through.
    pub fn new(alloc: Global, used: UsedStamps) -> Draft
        ensures { result ≡ start_draft used }
    {
        Draft {
            references: Items::new(alloc),
            terms: Items::new(alloc),
            body: Items::new(alloc),
            targets: Items::new(alloc),
            stamped: Items::new(alloc),
            used,
        }
    }

    /// No more references are taken.
    pub fn is_full(&self) -> bool
        ensures { result ≡ is_crowded self.now }
    {
        MOST_REFERENCES <= self.references.len()
    }

    /// At most one more reference is taken.
    pub fn is_nearly_full(&self) -> bool
        ensures { result ≡ is_nearly_crowded self.now }
    {
        MOST_REFERENCES - 1 <= self.references.len()
    }

    /// Notes a reference that is one too many.
    pub fn note_crowd(&self, faults: &mut Faults, at: SourcePlace) -> Result<(), Memory>
        ensures noted { OnOk result (faults.new ≡ faults.old ++ crowd_faults self.now at) }
    {
        faults.note_if(self.is_full(), at, SourceCause::TooManyReferences)
    }

    /// The number of the next reference, from 1; 0 where it is one too many.
    pub fn number_next(&self) -> u32
        ensures { result ≡ next_number self.now }
    {
        let count = self.references.len();
        if MOST_REFERENCES <= count {
            0
        } else {
            count as u32 + 1
        }
    }

    /// Adds a reference, unless there are too many.
    pub fn add_reference(&mut self, reference: Reference) -> Result<(), Memory>
        ensures { OnOk result (self.new ≡ with_reference self.old reference) }
    {
        if self.is_full() {
            return Ok(());
        }
        match self.references.push(reference) {
            Ok(()) => Ok(()),
            Err(_) => Err(Memory),
        }
    }

    fn found_stamp(&self, decomposition: u32, offset: i64, marks: &Marks) -> Option<u32>
        ensures { result ≡ stamp_in self.now.stamped decomposition offset marks.now }
    {
        stamp_among(
            self.stamped.as_slice(),
            decomposition,
            offset,
            marks.as_slice(),
        )
    }

    /// The stamp of a reference: that of an earlier one, or the next.
    pub fn stamp(&self, decomposition: u32, offset: i64, marks: &Marks) -> u32
        ensures { result ≡ stamp_for self.now decomposition offset marks.now }
    {
        match self.found_stamp(decomposition, offset, marks) {
            Some(stamp) => stamp,
            None => {
                let used = used_of(&self.used, decomposition);
                if MOST_STAMPS <= used { 0 } else { used }
            }
        }
    }

    /// Notes that a new stamp is one too many.
    pub fn note_stamp(
        &self,
        faults: &mut Faults,
        decomposition: u32,
        offset: i64,
        marks: &Marks,
        at: SourcePlace,
    ) -> Result<(), Memory>
        ensures noted { OnOk result (faults.new ≡ faults.old ++ stamp_faults self.now decomposition offset marks.now at) }
    {
        let is_found = self.found_stamp(decomposition, offset, marks).is_some();
        let is_worn = MOST_STAMPS <= used_of(&self.used, decomposition);
        faults.note_if(!is_found && is_worn, at, SourceCause::TooManyStamps)
    }

    fn push_stamp(&mut self, stamped: Stamped) -> Result<(), Memory>
        ensures { OnOk result (self.new ≡ record self.old { stamped = self.old.stamped ++ stamped ∷ [] }) }
    {
        match self.stamped.push(stamped) {
            Ok(()) => Ok(()),
            Err(_) => Err(Memory),
        }
    }

    fn new_stamp(&mut self, decomposition: u32, offset: i64, marks: Marks) -> Result<(), Memory>
        ensures { OnOk result (self.new ≡ with_stamp self.old decomposition offset marks) }
    {
        let stamp = used_of(&self.used, decomposition);
        if MOST_STAMPS <= stamp {
            return Ok(());
        }
        self.push_stamp(Stamped {
            decomposition,
            offset,
            marks,
            stamp,
        })?;
        set_used(&mut self.used, decomposition, stamp + 1);
        Ok(())
    }

    /// Takes the stamp of a reference, unless an earlier one has it.
    pub fn take_stamp(
        &mut self,
        decomposition: u32,
        offset: i64,
        marks: Marks,
    ) -> Result<(), Memory>
        ensures { OnOk result (self.new ≡ after_stamp self.old decomposition offset marks) }
    {
        if self.found_stamp(decomposition, offset, &marks).is_some() {
            Ok(())
        } else {
            self.new_stamp(decomposition, offset, marks)
        }
    }

    /// Adds a target, unless there are too many references.
    pub fn add_target(&mut self, name: Name, operator: Option<Combine>) -> Result<(), Memory>
        ensures { OnOk result (self.new ≡ after_target self.old name operator) }
    {
        if self.is_full() {
            return Ok(());
        }
        let target = Target { name, operator };
        match self.targets.push(target) {
            Ok(()) => Ok(()),
            Err(_) => Err(Memory),
        }
    }
}
