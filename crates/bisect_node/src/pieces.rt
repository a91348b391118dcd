//! What a node has of the regions of a level, and how they are cut.
ghost use Rattle.std.specs.Prelude.{◌≡◌, ◌≤◌, ◌<◌, ◌+◌, ◌++◌, ◌∷◌, [], OnOk, IfOk};
ghost use Rattle.bisect_node.specs.Steps.{cut_pieces, halves_by, first_piece, second_piece, goes, kept, kept_lists};

use crate::cuts::{Cut, found_at};
use fd_words::{Memory, NumberLists, Numbers};
use sqlite_items::Items;
use std::alloc::Global;

/// What a node has of a region: the region's first part, how many parts and how many elements it has in all,
/// and the node's own elements in it, ascending, with their coordinates on each axis.
#[derive(Debug, Drop)]
pub struct Piece {
    pub first: u32,
    pub parts: u32,
    pub size: u64,
    pub elements: Numbers,
    pub coordinates: NumberLists,
}

impl Piece {
    /// An equal piece.
    fn copy(&self, alloc: Global) -> Result<Piece, Memory>
        ensures { IfOk result (λ piece. piece ≡ self.now) }
    {
        let elements = self.elements.copy(alloc)?;
        let coordinates = self.coordinates.copy(alloc)?;
        Ok(Piece {
            first: self.first,
            parts: self.parts,
            size: self.size,
            elements,
            coordinates,
        })
    }
}

/// Whether the k-th element goes to the first half, or to the second: by its key.
fn goes_to(first: bool, keys: &[u128], found: u128, k: usize) -> bool
    ensures { result ≡ goes first keys.now found k }
{
    match keys.get(k) {
        Some(key) => { if first { *key <= found } else { found < *key } }
        None => !first,
    }
}

/// Of numbers of elements those whose element goes to a half.
fn kept_of(
    alloc: Global,
    first: bool,
    keys: &[u128],
    found: u128,
    numbers: &[i64],
) -> Result<Numbers, Memory>
    ensures { IfOk result (λ list. list ≡ kept first keys.now found numbers.now) }
{
    let mut list = Numbers::new(alloc);
    for (k, number) in numbers.iter().enumerate() {
        if goes_to(first, keys, found, k) {
            list.push(*number)?;
        }
    }
    Ok(list)
}

/// The same of each of several lists.
fn kept_lists_of(
    alloc: Global,
    first: bool,
    keys: &[u128],
    found: u128,
    lists: &NumberLists,
) -> Result<NumberLists, Memory>
    ensures { IfOk result (λ all. all ≡ kept_lists first keys.now found lists.now) }
{
    let mut all = NumberLists::new(alloc);
    let axes = lists.as_slice();
    for axis in axes {
        all.push(kept_of(alloc, first, keys, found, axis.as_slice())?)?;
    }
    Ok(all)
}

/// The first half of a region that is cut at a key.
fn first_of(alloc: Global, cut: &Cut, found: u128, piece: &Piece) -> Result<Piece, Memory>
    ensures { IfOk result (λ half. half ≡ first_piece cut.now found piece.now) }
{
    let keys = cut.keys.as_slice();
    Ok(Piece {
        first: piece.first,
        parts: piece.parts / 2,
        size: cut.goal,
        elements: kept_of(alloc, true, keys, found, piece.elements.as_slice())?,
        coordinates: kept_lists_of(alloc, true, keys, found, &piece.coordinates)?,
    })
}

/// The second half.
fn second_of(alloc: Global, cut: &Cut, found: u128, piece: &Piece) -> Result<Piece, Memory>
    ensures { IfOk result (λ half. half ≡ second_piece cut.now found piece.now) }
{
    let keys = cut.keys.as_slice();
    Ok(Piece {
        first: piece.first.saturating_add(piece.parts / 2),
        parts: piece.parts - piece.parts / 2,
        size: piece.size.saturating_sub(cut.goal),
        elements: kept_of(alloc, false, keys, found, piece.elements.as_slice())?,
        coordinates: kept_lists_of(alloc, false, keys, found, &piece.coordinates)?,
    })
}

/// Appends both halves of a region.
fn push_halves(
    alloc: Global,
    cut: &Cut,
    found: u128,
    piece: &Piece,
    pieces: &mut Items<Piece>,
) -> Result<(), Memory>
    ensures { OnOk result (pieces.new ≡ pieces.old ++ (first_piece cut.now found piece.now ∷ second_piece cut.now found piece.now ∷ [])) }
{
    let first = first_of(alloc, cut, found, piece)?;
    pieces.push(first)?;
    let second = second_of(alloc, cut, found, piece)?;
    pieces.push(second)?;
    Ok(())
}

/// Appends both halves of a region, whose cut and key stand at a place; a cut that isn't there has no key.
fn push_cut(
    alloc: Global,
    cuts: &Items<Cut>,
    found: &[u128],
    at: usize,
    piece: &Piece,
    pieces: &mut Items<Piece>,
) -> Result<(), Memory>
    ensures { OnOk result (pieces.new ≡ pieces.old ++ halves_by cuts.now found.now at piece.now) }
{
    let key = found_at(found, at);
    match cuts.get(at) {
        Some(cut) => push_halves(alloc, cut, key, piece, pieces),
        None => {
            let none = Cut {
                goal: 0,
                keys: Items::new(alloc),
            };
            push_halves(alloc, &none, key, piece, pieces)
        }
    }
}

/// The pieces of the next level: both halves of each region that is cut, and the others as they are. The
/// regions that are cut have their cuts and keys in the order of the pieces.
pub fn cut_all(
    alloc: Global,
    pieces: &[Piece],
    cuts: &Items<Cut>,
    found: &[u128],
) -> Result<Items<Piece>, Memory>
    ensures { IfOk result (λ halves. halves ≡ cut_pieces cuts.now found.now 0 pieces.now) }
{
    let mut halves = Items::new(alloc);
    let mut at = 0usize;
    for piece in pieces {
        if piece.parts > 1 {
            push_cut(alloc, cuts, found, at, piece, &mut halves)?;
            at += 1;
        } else {
            halves.push(piece.copy(alloc)?)?;
        }
    }
    Ok(halves)
}
