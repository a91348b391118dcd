//! The letters by which the values of index arrays are fetched.
ghost use Rattle.std.specs.Prelude.{◌≡◌, map, replicate, IfOk};
ghost use Rattle.list_laws.specs.Rows.{deals};
ghost use Rattle.chaos_inspect.specs.Dealing.{numbers_drawn};
ghost use Rattle.chaos_inspect.specs.Walking.{piece_value, piece_values, spot_ask};

use crate::dealing::draw;
use crate::spot::Spot;
use crate::votes::behind;
use chaos_dist::MOST_NODES;
use fd_words::{Memory, NumberLists, Numbers};
use std::alloc::Global;

/// The asks for these elements: to the owner of each its array and local address.
pub fn asks(alloc: Global, nodes: u32, spots: &[Spot]) -> Result<NumberLists, Memory>
    ensures { IfOk result (λ lists. lists ≡ deals (λ s. s.owner) spot_ask nodes spots.now) }
{
    let mut lists = NumberLists::empty(alloc, nodes)?;
    for spot in spots {
        let row = [i64::from(spot.array), spot.local.cast_signed()];
        lists.append_to(u64::from(spot.owner), row.as_slice())?;
    }
    Ok(lists)
}

/// The number of a node's part of an array at a local address; 0 where there is none.
fn value(pieces: &NumberLists, array: i64, local: i64) -> i64
    ensures { result ≡ piece_value pieces.now array local }
{
    match (u64::try_from(array), u64::try_from(local)) {
        (Ok(array), Ok(local)) => pieces.value_at(array, local),
        (Ok(_), Err(_)) => 0,
        (Err(_), _) => 0,
    }
}

/// The values that are asked for, in the order of the asks.
fn answer(alloc: Global, pieces: &NumberLists, asked: &[i64]) -> Result<Numbers, Memory>
    ensures { IfOk result (λ values. values ≡ piece_values pieces.now asked.now) }
{
    let mut values = Numbers::new(alloc);
    let mut rest = asked;
    while rest.len() >= 2 {
        values.push(value(pieces, rest[0], rest[1]))?;
        rest = behind(rest, 2);
    }
    Ok(values)
}

/// The answers to each node's asks.
pub fn told(alloc: Global, pieces: &NumberLists, asked: &[Numbers]) -> Result<NumberLists, Memory>
    ensures { IfOk result (λ lists. lists ≡ map (piece_values pieces.now) asked.now) }
{
    let mut lists = NumberLists::new(alloc);
    for numbers in asked {
        lists.push(answer(alloc, pieces, numbers.as_slice())?)?;
    }
    Ok(lists)
}

/// The values that were asked for, in the order of iterations and references.
pub fn values(alloc: Global, spots: &[Spot], answers: &NumberLists) -> Result<Numbers, Memory>
    ensures { IfOk result (λ values. values ≡ numbers_drawn answers.now (replicate 16 0) (map (λ s. s.owner) spots.now)) }
{
    let mut drawn = [0usize; MOST_NODES];
    let mut values = Numbers::new(alloc);
    for spot in spots {
        values.push(draw(answers, &mut drawn, spot.owner))?;
    }
    Ok(values)
}
