use chaos_letter::Letter;
use fd_top::Played;
use fd_words::Memory;
use std::alloc::Global;

/// The number of moves.
pub(crate) fn append_count(
    alloc: Global,
    told: &mut String,
    played: &Played,
) -> Result<(), Memory> {
    let count = played.moved.len();
    told.push_str(format!(in alloc; "{count} moves\n")?.as_str())?;
    Ok(())
}

/// The node of each move.
pub(crate) fn append_moves(
    alloc: Global,
    told: &mut String,
    played: &Played,
) -> Result<(), Memory> {
    told.push_str("moves")?;
    for node in played.moved.as_slice() {
        told.push_str(format!(in alloc; " {node}")?.as_str())?;
    }
    told.push_str("\n")?;
    Ok(())
}

/// A letter: its sender and receiver, its kind, execution and site, and its numbers.
fn append_letter(
    alloc: Global,
    told: &mut String,
    pair: (u64, u64),
    letter: &Letter,
) -> Result<(), Memory> {
    let (from, to) = pair;
    let kind = letter.kind();
    let execution = letter.execution();
    let site = letter.site();
    let head = format!(in alloc; "{from} to {to}: {kind:?} {execution} {site}:")?;
    told.push_str(head.as_str())?;
    for number in letter.numbers().as_slice() {
        told.push_str(format!(in alloc; " {number}")?.as_str())?;
    }
    told.push_str("\n")?;
    Ok(())
}

/// The letters of one pair of nodes, in the order in which they were sent.
fn append_pair(
    alloc: Global,
    told: &mut String,
    pair: (u64, u64),
    letters: &[Letter],
) -> Result<(), Memory> {
    for letter in letters {
        append_letter(alloc, told, pair, letter)?;
    }
    Ok(())
}

/// How many nodes there are, where there are so many pairs.
fn nodes_of(pairs: u64) -> u64 {
    (1..17u64)
        .find(|nodes| nodes.saturating_mul(*nodes) == pairs)
        .unwrap_or(1)
}

/// All letters, by sender and by receiver.
pub(crate) fn append_letters(
    alloc: Global,
    told: &mut String,
    played: &Played,
) -> Result<(), Memory> {
    let nodes = nodes_of(played.sent.len());
    for from in 0..nodes {
        for to in 0..nodes {
            let pair = from.saturating_mul(nodes).saturating_add(to);
            append_pair(alloc, told, (from, to), played.sent.list(pair))?;
        }
    }
    Ok(())
}
