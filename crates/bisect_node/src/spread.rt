//! The spread of coordinates: what a node tells of its own, and the axis that all have told.
ghost use Rattle.std.specs.Prelude.{◌≡◌, ◌≤◌, ◌<◌, ◌++◌, OnOk, IfOk};
ghost use Rattle.chaos_cut.specs.Choices.{extent_of};
ghost use Rattle.bisect_node.specs.Steps.{greatest_in, least_in, spread_if, spread_told, told_of_pieces, told_of_piece, widest};

use crate::numbers::{greatest_at, least_at};
use crate::pieces::Piece;
use chaos_cut::{Extent, extent_on, wider};
use chaos_letter::Letter;
use fd_words::{Memory, NumberLists, Numbers};
use std::alloc::Global;

/// The least coordinate; of none the greatest number.
fn least_of(coordinates: &[i64]) -> i64
    ensures { result ≡ least_in coordinates.now }
{
    let mut least = i64::MAX;
    for x in coordinates {
        least = least.min(*x);
    }
    least
}

/// The greatest coordinate; of none the least number.
fn greatest_of(coordinates: &[i64]) -> i64
    ensures { result ≡ greatest_in coordinates.now }
{
    let mut greatest = i64::MIN;
    for x in coordinates {
        greatest = greatest.max(*x);
    }
    greatest
}

/// Appends the least and the greatest coordinate on each axis.
fn push_spread(told: &mut Numbers, coordinates: &NumberLists) -> Result<(), Memory>
    ensures { OnOk result (told.new ≡ told.old ++ told_of_piece coordinates.now) }
{
    let axes = coordinates.as_slice();
    for axis in axes {
        told.push(least_of(axis.as_slice()))?;
        told.push(greatest_of(axis.as_slice()))?;
    }
    Ok(())
}

/// Appends those of a region that is cut.
fn push_if_open(told: &mut Numbers, piece: &Piece) -> Result<(), Memory>
    ensures { OnOk result (told.new ≡ told.old ++ spread_if piece.now) }
{
    if piece.parts > 1 {
        return push_spread(told, &piece.coordinates);
    }
    Ok(())
}

/// For each region that is cut the least and the greatest coordinate that a node has on each axis.
pub fn spread_of(alloc: Global, pieces: &[Piece]) -> Result<Numbers, Memory>
    ensures { IfOk result (λ told. told ≡ told_of_pieces pieces.now) }
{
    let mut told = Numbers::new(alloc);
    for piece in pieces {
        push_if_open(&mut told, piece)?;
    }
    Ok(told)
}

/// The extent on an axis, as all have told it of the region whose numbers begin at a place.
fn extent_at(told: &Numbers, got: &[Letter], base: u64, axis: u32) -> Extent
    ensures { result ≡ extent_of axis (spread_told told.now got.now base axis) }
{
    let at = base.saturating_add(2 * u64::from(axis));
    let least = least_at(told, got, at);
    let greatest = greatest_at(told, got, at.saturating_add(1));
    extent_on(axis, least, greatest)
}

/// The axis of the greatest spread, the first on a tie.
pub fn widest_of(axes: u32, told: &Numbers, got: &[Letter], base: u64) -> u32
    ensures { result ≡ widest axes told.now got.now base }
{
    let mut best = extent_at(told, got, base, 0);
    for axis in 1..axes {
        let next = extent_at(told, got, base, axis);
        best = wider(best, next);
    }
    best.axis
}
