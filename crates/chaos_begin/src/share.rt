ghost use Rattle.std.specs.Prelude.{◌≡◌, ◌<◌, ◌≤◌, ◌++◌, ◌∷◌, [], ◌==◌, true, false, if◌then◌else◌, length, IfOk, OnOk};
ghost use Rattle.std.specs.Prelude.{MatchOption};
ghost use Rattle.std.specs.List.{list_all};
ghost use Rattle.fd_words.specs.Lists.{list_at};
ghost use Rattle.chaos_begin.specs.Begins.{IsShareOf, IsSoundBetween, has_share, is_within_extent, lists_of};
ghost use Rattle.fd_program.specs.Checks.{layout_extent};

use crate::Between;
use chaos_moving::Share;
use fd_program::{ArrayFacts, array_at};
use fd_words::{Memory, NumberLists, Numbers};
use std::alloc::Global;

/// A copy of the list at a place; no number from the end on.
pub fn copy_at(alloc: Global, lists: &NumberLists, at: u32) -> Result<Numbers, Memory>
    ensures { IfOk result (λ list. list ≡ list_at lists.now at) }
{
    match lists.get(u64::from(at)) {
        Some(list) => list.copy(alloc),
        None => Ok(Numbers::new(alloc)),
    }
}

fn is_element(extent: u64, number: i64) -> bool
    ensures { result ≡ is_within_extent extent number }
{
    1 <= number && i128::from(number) <= i128::from(extent)
}

fn are_elements(extent: u64, numbers: &[i64]) -> bool
    ensures { result ≡ list_all (is_within_extent extent) numbers.now }
{
    numbers.iter().all(|number| is_element(extent, *number))
}

fn add_if(
    alloc: Global,
    pieces: &mut NumberLists,
    is: bool,
    lists: &NumberLists,
    array: u32,
) -> Result<(), Memory>
    ensures { OnOk result (pieces.new ≡ pieces.old ++ (if is then list_at lists.now array ∷ [] else [])) }
{
    if is {
        pieces.push(copy_at(alloc, lists, array)?)?;
    }
    Ok(())
}

/// The lists of the arrays of a decomposition.
fn pieces(
    alloc: Global,
    arrays: &[ArrayFacts],
    count: u32,
    lists: &NumberLists,
    d: u32,
) -> Result<NumberLists, Memory>
    ensures { IfOk result (λ pieces. pieces ≡ lists_of arrays.now count lists.now d) }
{
    let mut pieces = NumberLists::new(alloc);
    for array in 0..count {
        let is = array_at(arrays, array).decomposition == d;
        add_if(alloc, &mut pieces, is, lists, array)?;
    }
    Ok(pieces)
}

impl<'a> Between<'a> {
    fn share(&self, alloc: Global, d: u32, extent: u64, elements: Numbers) -> Result<Share, Memory>
        requires sound { IsSoundBetween self.now }
        requires there { d < length self.now.checked.now.layouts }
        requires some { 1 ≤ extent }
        requires few { extent ≤ 1048576 }
        requires elements { elements ≡ list_at self.now.elements.now d }
        requires within { list_all (is_within_extent extent) elements ≡ true }
        ensures { IfOk result (IsShareOf self.now d extent) }
    {
        let arrays = self.checked.arrays.as_slice();
        let pieces = pieces(alloc, arrays, arrays.len() as u32, self.parts, d)?;
        Ok(Share {
            me: self.me,
            nodes: self.nodes,
            decomposition: d,
            extent,
            elements,
            pieces,
        })
    }

    fn share_within(&self, alloc: Global, d: u32, extent: u64) -> Result<Option<Share>, Memory>
        requires sound { IsSoundBetween self.now }
        requires there { d < length self.now.checked.now.layouts }
        requires some { 1 ≤ extent }
        requires few { extent ≤ 1048576 }
        ensures { IfOk result (λ o. MatchOption o (list_all (is_within_extent extent) (list_at self.now.elements.now d) ≡ false)
            (IsShareOf self.now d extent)) }
    {
        let elements = copy_at(alloc, self.elements, d)?;
        if !are_elements(extent, elements.as_slice()) {
            return Ok(None);
        }
        let share = self.share(alloc, d, extent, elements)?;
        Ok(Some(share))
    }

    /// What the node has of a decomposition; none where there is no such decomposition, or what is held of it
    /// aren't elements. Linear in what is held of it, and in the arrays.
    pub(crate) fn share_of(&self, alloc: Global, d: u32) -> Result<Option<Share>, Memory>
        requires { IsSoundBetween self.now }
        ensures { IfOk result (λ o. MatchOption o (has_share self.now d ≡ false)
            (IsShareOf self.now d (layout_extent self.now.checked.now.layouts d))) }
    {
        match self.checked.layouts.get(d as usize) {
            None => Ok(None),
            Some(layout) => self.share_within(alloc, d, layout.extent),
        }
    }
}
