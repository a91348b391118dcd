//! The cuts of a level: how many elements of a region go first, and the keys of a node's own elements in it.
ghost use Rattle.std.specs.Prelude.{◌≡◌, ◌≤◌, ◌<◌, ◌++◌, ◌∷◌, [], IfOk, OnOk};
ghost use Rattle.chaos_cut.specs.Bisection.{first_size};
ghost use Rattle.bisect_node.specs.Steps.{count_under, counted, found_or_none, cut_by, cuts_from, key_at as the_key, keys_by};

use crate::numbers::number_at;
use crate::pieces::Piece;
use crate::spread::widest_of;
use chaos_cut::key;
use chaos_letter::Letter;
use fd_words::{Memory, NumberLists, Numbers};
use sqlite_items::Items;
use std::alloc::Global;

/// A region that is cut: so many of its elements go first, and these are the keys of a node's own.
#[derive(Debug, Drop)]
pub struct Cut {
    pub goal: u64,
    pub keys: Items<u128>,
}

/// Of so many elements for so many parts so many go to the first half of the parts.
fn goal_of(size: u64, parts: u32) -> u64
    requires { 1 < parts }
    ensures { result ≡ first_size size parts }
{
    let parts = u64::from(parts);
    let half = parts / 2;
    half * (size / parts) + half.min(size % parts)
}

/// The key of an element with a coordinate; 0 where it can't be one.
fn key_at(x: i64, element: i64) -> u128
    ensures { result ≡ the_key x element }
{
    if 1 <= element && element <= 1_048_576 {
        key(x, element as u64)
    } else {
        0
    }
}

/// The keys of elements with these coordinates.
fn keys_of(alloc: Global, axis: &Numbers, elements: &Numbers) -> Result<Items<u128>, Memory>
    ensures { IfOk result (λ keys. keys ≡ keys_by axis.now elements.now) }
{
    let mut keys = Items::new(alloc);
    let all = elements.as_slice();
    for (k, element) in all.iter().enumerate() {
        keys.push(key_at(number_at(axis, k as u64), *element))?;
    }
    Ok(keys)
}

/// The cut of a region whose numbers begin at a place, from what all have told.
fn cut_of(
    alloc: Global,
    axes: u32,
    told: &Numbers,
    got: &[Letter],
    base: u64,
    piece: &Piece,
) -> Result<Cut, Memory>
    requires { 1 < piece.now.parts }
    ensures { IfOk result (λ cut. cut ≡ cut_by axes told.now got.now base piece.now) }
{
    let goal = goal_of(piece.size, piece.parts);
    let none = Numbers::new(alloc);
    let at = widest_of(axes, told, got, base);
    let axis = piece.coordinates.get(u64::from(at)).unwrap_or(&none);
    let keys = keys_of(alloc, axis, &piece.elements)?;
    Ok(Cut { goal, keys })
}

/// The cuts of all regions that are cut.
pub fn cuts_of(
    alloc: Global,
    axes: u32,
    told: &Numbers,
    got: &[Letter],
    pieces: &[Piece],
) -> Result<Items<Cut>, Memory>
    ensures { IfOk result (λ cuts. cuts ≡ cuts_from axes told.now got.now 0 pieces.now) }
{
    let mut cuts = Items::new(alloc);
    let mut base = 0u64;
    for piece in pieces {
        if piece.parts > 1 {
            let cut = cut_of(alloc, axes, told, got, base, piece)?;
            cuts.push(cut)?;
            base = base.saturating_add(2 * u64::from(axes));
        }
    }
    Ok(cuts)
}

/// The number found at a place; 0 from the end on.
pub fn found_at(found: &[u128], at: usize) -> u128
    ensures { result ≡ found_or_none found.now at }
{
    found.get(at).copied().unwrap_or(0)
}

/// How many keys are below a number.
fn count_below(keys: &[u128], under: u128) -> i64
    ensures { result ≡ count_under keys.now under }
{
    keys.iter().filter(|key| **key < under).count() as i64
}

/// For each cut how many of a node's keys are below its candidate.
pub fn counts_of(
    alloc: Global,
    power: u128,
    cuts: &[Cut],
    found: &[u128],
) -> Result<Numbers, Memory>
    ensures { IfOk result (λ told. told ≡ counted power cuts.now found.now) }
{
    let mut told = Numbers::new(alloc);
    for (at, cut) in cuts.iter().enumerate() {
        let candidate = found_at(found, at).saturating_add(power);
        told.push(count_below(cut.keys.as_slice(), candidate))?;
    }
    Ok(told)
}
