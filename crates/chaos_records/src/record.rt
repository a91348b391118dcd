ghost use Rattle.std.specs.Prelude.{◌≡◌, ◌<◌, ◌^◌, true, false, if◌then◌else◌, length, map, replicate, slice_set, ◌++◌, IfOk, OnOk};
ghost use Rattle.fd_program.specs.Past.{decompositions_of, index_arrays_of};
ghost use Rattle.fd_program.specs.Stores.{number_at};
ghost use Rattle.fd_words.specs.Roles.{is_index};
ghost use Rattle.chaos_records.specs.Keeping.{given_if, is_marked, mark, marked, marked_below, named_decomposition, named_index, record_in};
ghost use Rattle.chaos_records.specs.Keeping.{setting_in};

use crate::Records;
use fd_program::{ArrayFacts, Checked, LoopRecord, LoopTurn, Reference, Site, decomposition};
use fd_words::{Memory, Numbers, Role};
use std::alloc::Global;

impl Records {
    /// The record of an execution of a FORALL now: its range and the numbers of its subscripts, the
    /// versions of the decompositions of its references, and the change numbers of its index arrays.
    /// Linear in the references, arrays and decompositions.
    pub fn record_of(
        &self,
        alloc: Global,
        checked: &Checked,
        site: u32,
        turn: &LoopTurn,
    ) -> Result<LoopRecord, Memory>
        requires site { site < length checked.now.sites }
        requires arrays { length checked.now.arrays < 2 ^ 32 }
        requires layouts { length checked.now.layouts < 2 ^ 32 }
        ensures { IfOk result (λ r. r ≡ record_in self.now checked.now site turn.now) }
    {
        let site = &checked.sites.as_slice()[site as usize];
        let adds = turn.adds.copy(alloc)?;
        let versions = self.versions(alloc, checked, site)?;
        let changes = self.changes_of(alloc, checked, site)?;
        Ok(LoopRecord {
            low: turn.low,
            high: turn.high,
            adds,
            versions,
            changes,
        })
    }

    /// The versions of the decompositions of a FORALL's references.
    #[tactic(auto, using(crate::proofs::Marks::marked_decompositions))]
    fn versions(&self, alloc: Global, checked: &Checked, site: &Site) -> Result<Numbers, Memory>
        requires { length checked.now.layouts < 2 ^ 32 }
        ensures { IfOk result (λ v. v ≡ map (λ d. (setting_in self.now d).version) (decompositions_of checked.now site.now)) }
    {
        let count = checked.layouts.len();
        let arrays = checked.arrays.as_slice();
        let marks = decompositions(alloc, count, arrays, site.references.as_slice())?;
        self.versions_marked(alloc, count as u32, marks.as_slice())
    }

    /// The change numbers of a FORALL's index arrays.
    #[tactic(auto, using(crate::proofs::Marks::marked_indexes))]
    fn changes_of(&self, alloc: Global, checked: &Checked, site: &Site) -> Result<Numbers, Memory>
        requires { length checked.now.arrays < 2 ^ 32 }
        ensures { IfOk result (λ v. v ≡ map (number_at self.now.changes) (index_arrays_of checked.now site.now)) }
    {
        let count = checked.arrays.len();
        let marks = index_arrays(alloc, count, site.references.as_slice())?;
        self.changes_marked(alloc, count as u32, marks.as_slice())
    }

    fn versions_marked(&self, alloc: Global, count: u32, marks: &[bool]) -> Result<Numbers, Memory>
        ensures { IfOk result (λ v. v ≡ map (λ d. (setting_in self.now d).version) (marked_below marks.now count)) }
    {
        let mut versions = Numbers::new(alloc);
        for d in 0..count {
            add_if(&mut versions, is_marked(marks, d), self.setting(d).version)?;
        }
        Ok(versions)
    }

    fn changes_marked(&self, alloc: Global, count: u32, marks: &[bool]) -> Result<Numbers, Memory>
        ensures { IfOk result (λ v. v ≡ map (number_at self.now.changes) (marked_below marks.now count)) }
    {
        let mut changes = Numbers::new(alloc);
        for array in 0..count {
            add_if(&mut changes, is_marked(marks, array), self.change(array))?;
        }
        Ok(changes)
    }
}

fn add_if(numbers: &mut Numbers, is: bool, value: i64) -> Result<(), Memory>
    ensures { OnOk result (numbers.new ≡ numbers.old ++ given_if is value) }
{
    if is {
        numbers.push(value)?;
    }
    Ok(())
}

/// For each decomposition whether a reference's array is of it.
fn decompositions(
    alloc: Global,
    count: usize,
    arrays: &[ArrayFacts],
    references: &[Reference],
) -> Result<Vec<bool>, Memory>
    ensures { IfOk result (λ marks. marks.items ≡ marked (named_decomposition arrays.now) (replicate count false) references.now) }
{
    let mut marks = vec![in alloc; false; count]?;
    for reference in references {
        let name = Some(decomposition(arrays, reference.array));
        put(&mut marks, name);
    }
    Ok(marks)
}

/// For each array whether it is an index array.
fn index_arrays(alloc: Global, count: usize, references: &[Reference]) -> Result<Vec<bool>, Memory>
    ensures { IfOk result (λ marks. marks.items ≡ marked named_index (replicate count false) references.now) }
{
    let mut marks = vec![in alloc; false; count]?;
    for reference in references {
        put(&mut marks, index_of(reference.role, reference.array));
    }
    Ok(marks)
}

fn index_of(role: Role, array: u32) -> Option<u32>
    ensures { result ≡ (if is_index role then Some array else None) }
{
    match role {
        Role::Index => Some(array),
        Role::Read => None,
        Role::Target => None,
    }
}

/// Marks a number that is named.
fn put(marks: &mut Vec<bool>, name: Option<u32>)
    ensures { marks.new.items ≡ mark marks.old.items name }
{
    if let Some(at) = name {
        put_at(marks, at);
    }
}

fn put_at(marks: &mut Vec<bool>, at: u32)
    ensures { marks.new.items ≡ slice_set marks.old.items at true }
{
    if (at as usize) < marks.len() {
        marks[at as usize] = true;
    }
}

fn is_marked(marks: &[bool], at: u32) -> bool
    ensures { result ≡ is_marked marks.now at }
{
    marks.get(at as usize).copied().unwrap_or(false)
}
