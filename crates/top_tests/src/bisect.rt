//! Bisections on two nodes, whose letters are passed by hand, and on one.
use bisect_node::{BisectNode, Job, bisect_nodes};
use bsp_core::{NodeList, Phased, Want};
use chaos_letter::Letter;
use fd_words::{Memory, NumberLists, Numbers};
use std::alloc::Global;
use std::test::Fail;

/// These coordinates on the axis that comes next.
fn push_axis(alloc: Global, axes: &mut NumberLists, numbers: &[i64]) -> Result<(), Memory> {
    let mut axis = Numbers::new(alloc);
    axis.append(numbers)?;
    axes.push(axis)
}

/// The letter that a node has to send, if it has one.
fn posted(node: &mut BisectNode) -> Option<Letter> {
    match node.next() {
        Want::Send(_) => Some(node.post()),
        _ => None,
    }
}

/// Gives a node a letter that it wants, and says whether it was taken.
fn given(node: &mut BisectNode, letter: Letter) -> bool {
    match node.next() {
        Want::Take(_) => node.take(letter).is_ok(),
        _ => false,
    }
}

/// Whether a letter, if there is one, was taken.
fn passed(node: &mut BisectNode, letter: Option<Letter>) -> bool {
    match letter {
        Some(letter) => given(node, letter),
        None => true,
    }
}

/// Whether a node worked; a node that has nothing to work didn't.
fn worked(node: &mut BisectNode) -> bool {
    match node.next() {
        Want::Work => node.work().is_ok(),
        _ => false,
    }
}

/// One phase of two nodes: how many moves there were, or none where something failed.
fn phase(first: &mut BisectNode, second: &mut BisectNode) -> Option<u32> {
    let there = posted(first);
    let back = posted(second);
    let letters = u32::from(there.is_some()) + u32::from(back.is_some());
    let all = passed(second, there) && passed(first, back) && worked(first) && worked(second);
    if all { Some(2 * letters + 2) } else { None }
}

/// All phases of two nodes: how many moves there were.
fn moves(first: &mut BisectNode, second: &mut BisectNode) -> u64 {
    let mut moves = 0u64;
    for _phase in 0..511 {
        match phase(first, second) {
            Some(more) => moves = moves.saturating_add(u64::from(more)),
            None => return moves,
        }
    }
    moves
}

/// The moves and the text of a job on two nodes; no text where a node is missing.
fn on_two(nodes: NodeList<BisectNode>, want: &[u8]) -> (u64, bool) {
    let mut nodes = nodes.into_vec();
    match nodes.as_mut_slice() {
        [first, second] => {
            let moves = moves(first, second);
            (
                moves,
                first.text().as_slice() == want && second.text().is_empty(),
            )
        }
        _ => (0, false),
    }
}

/// Eight elements on a line, in four parts.
fn line(alloc: Global) -> Result<NodeList<BisectNode>, Memory> {
    let mut axes = NumberLists::new(alloc);
    push_axis(alloc, &mut axes, &[5, 1, 5, 3, 9, 2, 5, 5])?;
    let job = Job {
        parts: 4,
        count: 8,
        nodes: 2,
        axes: 1,
    };
    bisect_nodes(alloc, &job, &axes)
}

#[test]
fn a_line_in_four(rt: HostRuntime) -> Result<(), Fail> {
    let nodes = line(rt.alloc())?;
    let (moves, written) = on_two(nodes, b"1\n0\n2\n1\n3\n0\n2\n3\n");
    assert!(rt; written);
    assert_eq!(rt; moves, 1024);
    Ok(())
}

/// Four elements, whose second axis has a spread over 64 bits.
fn wide(alloc: Global) -> Result<NodeList<BisectNode>, Memory> {
    let mut axes = NumberLists::new(alloc);
    push_axis(alloc, &mut axes, &[1, 0, 5, 4])?;
    push_axis(alloc, &mut axes, &[3, i64::MIN, i64::MAX, 1])?;
    let job = Job {
        parts: 2,
        count: 4,
        nodes: 2,
        axes: 2,
    };
    bisect_nodes(alloc, &job, &axes)
}

#[test]
fn a_wide_spread(rt: HostRuntime) -> Result<(), Fail> {
    let nodes = wide(rt.alloc())?;
    let (moves, written) = on_two(nodes, b"1\n0\n1\n0\n");
    assert!(rt; written);
    assert_eq!(rt; moves, 514);
    Ok(())
}
