ghost use Rattle.std.specs.Prelude.{◌≡◌, ◌≤◌, [], length, vec_capacity, IfOk};
ghost use Rattle.fd_words.specs.Lists.{list_at};
ghost use Rattle.bsp_core.specs.Views.{Ascends, nodes_in};
ghost use Rattle.bsp_desk.specs.Picks.{picked};
ghost use Rattle.bsp_desk.specs.Ways.{letter_as, sends};

use crate::{Phase, Way};
use chaos_letter::{Letter, Wanted};
use fd_words::{Memory, NumberLists, Numbers};
use std::alloc::Global;
use std::collections::VecDeque;

/// The same letter to each node that a node sends to.
pub fn out_of(
    alloc: Global,
    way: Way,
    me: u32,
    count: u32,
    letter: &Letter,
) -> Result<VecDeque<(u32, Letter)>, Memory>
    ensures is { IfOk result (λ out. out.items ≡ picked (λ q. letter.now) (λ q. sends way me q) 0 count) }
    ensures up { IfOk result (λ out. Ascends me count 0 (nodes_in out.items)) }
{
    let mut out = VecDeque::new(alloc);
    for q in 0..count {
        if way.sends(me, q) {
            let copy = letter.copy(alloc)?;
            out.push_back((q, copy))?;
        }
    }
    Ok(out)
}

/// The numbers of a node, of the kind, execution and site that are wanted; none where it has no list.
fn letter_for(
    alloc: Global,
    wanted: Wanted,
    lists: &NumberLists,
    node: u32,
) -> Result<Letter, Memory>
    ensures { IfOk result (λ letter. letter ≡ letter_as wanted (list_at lists.now node)) }
{
    let Wanted {
        kind,
        execution,
        site,
        ..
    } = wanted;
    match lists.get(u64::from(node)) {
        Some(list) => Ok(Letter::new(kind, execution, site, list.copy(alloc)?)),
        None => Ok(Letter::new(kind, execution, site, Numbers::new(alloc))),
    }
}

/// To each node that a node sends to the numbers of that node's list, of the kind, execution and site
/// that are wanted.
pub fn each_out(
    alloc: Global,
    way: Way,
    me: u32,
    count: u32,
    wanted: Wanted,
    lists: &NumberLists,
) -> Result<VecDeque<(u32, Letter)>, Memory>
    ensures is { IfOk result (λ out.
        out.items ≡ picked (λ q. letter_as wanted (list_at lists.now q)) (λ q. sends way me q) 0 count) }
    ensures up { IfOk result (λ out. Ascends me count 0 (nodes_in out.items)) }
{
    let mut out = VecDeque::new(alloc);
    for q in 0..count {
        if way.sends(me, q) {
            let letter = letter_for(alloc, wanted, lists, q)?;
            out.push_back((q, letter))?;
        }
    }
    Ok(out)
}

/// The same want of each node that sends to a node.
pub fn due_of(
    alloc: Global,
    way: Way,
    me: u32,
    count: u32,
    wanted: Wanted,
) -> Result<VecDeque<(u32, Wanted)>, Memory>
    ensures is { IfOk result (λ due. due.items ≡ picked (λ q. wanted) (λ q. sends way q me) 0 count) }
    ensures up { IfOk result (λ due. Ascends me count 0 (nodes_in due.items)) }
{
    let mut due = VecDeque::new(alloc);
    for q in 0..count {
        if way.sends(q, me) {
            due.push_back((q, wanted))?;
        }
    }
    Ok(due)
}

/// A phase with these letters and wants, and room for what is wanted.
pub fn phase_of(
    alloc: Global,
    left: u32,
    out: VecDeque<(u32, Letter)>,
    due: VecDeque<(u32, Wanted)>,
) -> Result<Phase, Memory>
    ensures left { IfOk result (λ f. f.left ≡ left) }
    ensures out { IfOk result (λ f. f.out.items ≡ out.items) }
    ensures due { IfOk result (λ f. f.due.items ≡ due.items) }
    ensures got { IfOk result (λ f. f.got.items ≡ []) }
    ensures room { IfOk result (λ f. length f.due.items ≤ vec_capacity f.got) }
{
    let got = Vec::with_capacity(alloc, due.len())?;
    Ok(Phase {
        left,
        out,
        due,
        got,
    })
}

/// The phase in which all that send tell the same, and want the same.
pub fn same_phase(
    alloc: Global,
    left: u32,
    way: Way,
    me: u32,
    count: u32,
    letter: &Letter,
    wanted: Wanted,
) -> Result<Phase, Memory>
    ensures left { IfOk result (λ f. f.left ≡ left) }
    ensures out { IfOk result (λ f. f.out.items ≡ picked (λ q. letter.now) (λ q. sends way me q) 0 count) }
    ensures due { IfOk result (λ f. f.due.items ≡ picked (λ q. wanted) (λ q. sends way q me) 0 count) }
    ensures got { IfOk result (λ f. f.got.items ≡ []) }
    ensures room { IfOk result (λ f. length f.due.items ≤ vec_capacity f.got) }
    ensures out_up { IfOk result (λ f. Ascends me count 0 (nodes_in f.out.items)) }
    ensures due_up { IfOk result (λ f. Ascends me count 0 (nodes_in f.due.items)) }
{
    let out = out_of(alloc, way, me, count, letter)?;
    let due = due_of(alloc, way, me, count, wanted)?;
    phase_of(alloc, left, out, due)
}

/// What a node has where no phase is left, which takes no memory.
pub fn no_phase(alloc: Global) -> Phase
    ensures left { result.left ≡ 0 }
    ensures out { result.out.items ≡ [] }
    ensures due { result.due.items ≡ [] }
    ensures got { result.got.items ≡ [] }
    ensures room { length result.due.items ≤ vec_capacity result.got }
{
    Phase {
        left: 0,
        out: VecDeque::new(alloc),
        due: VecDeque::new(alloc),
        got: Vec::new(alloc),
    }
}
