ghost use Rattle.std.specs.Prelude.{◌≡◌, ◌/◌, ◌<◌, ◌≤◌, ◌^◌, length, IfOk};
ghost use Rattle.fd_words.specs.Lists.{list_at};
ghost use Rattle.bsp_core.specs.Views.{Ascends, nodes_in};
ghost use Rattle.bsp_desk.specs.Picks.{picked};
ghost use Rattle.bsp_desk.specs.Ways.{sends};
ghost use Rattle.bsp_desk.specs.declared.way.Way.TheVariants.{ToAll, ToFirst};
ghost use Rattle.chaos_bins.specs.Plan.{append_wanted as append_is_wanted, print_wanted as print_is_wanted};
ghost use Rattle.chaos_bins.specs.Plan.{sizes_wanted as sizes_are_wanted};
ghost use Rattle.chaos_bins.specs.Coming.{told as the_told};
ghost use Rattle.append_node.specs.Begins.{PrintBegins, RoundBegins};
ghost use Rattle.append_node.specs.Telling.{rows_told, size_in, size_told};

use crate::parts::told;
use bsp_desk::{Phase, Way, due_of, phase_of};
use chaos_bins::at;
use chaos_letter::{Kind, Letter, Wanted};
use fd_words::{Memory, NumberLists, Numbers};
use std::alloc::Global;
use std::collections::VecDeque;

/// Which node of how many it is.
#[derive(Clone, Copy, Debug)]
pub struct Seat {
    pub me: u32,
    pub count: u32,
}

/// What a phase begins with on a node, what the node keeps, and what it tells in the phase after it.
#[derive(Drop)]
pub struct Begun {
    pub phase: Phase,
    pub own: Numbers,
    pub next: VecDeque<(u32, Letter)>,
}

/// What a node keeps of the lists for all nodes, and what it tells the others.
#[derive(Drop)]
struct Handed {
    own: Numbers,
    next: VecDeque<(u32, Letter)>,
}

/// How many pairs a list has, as a letter of a round.
fn size_letter(alloc: Global, round: u64, pairs: u64) -> Result<Letter, Memory>
    requires { pairs < 2 ^ 63 }
    ensures { IfOk result (λ letter. letter ≡ size_told round pairs) }
{
    let mut numbers = Numbers::new(alloc);
    numbers.push(pairs as i64)?;
    Ok(Letter::new(Kind::Sizes, round, 0, numbers))
}

/// How many pairs the list for a node has.
fn pairs_for(lists: &NumberLists, node: u32) -> u64
    ensures is { result ≡ length (list_at lists.now node) / 2 }
    ensures few { result < 2 ^ 63 }
{
    match lists.get(u64::from(node)) {
        Some(list) => list.len() / 2,
        None => 0,
    }
}

/// Tells each other node how many pairs its list has.
fn sizes_out(
    alloc: Global,
    seat: Seat,
    round: u64,
    lists: &NumberLists,
) -> Result<VecDeque<(u32, Letter)>, Memory>
    ensures is { IfOk result (λ out.
        out.items ≡ picked (λ q. size_told round (length (list_at lists.now q) / 2)) (λ q. sends ToAll seat.me q) 0 seat.count) }
    ensures up { IfOk result (λ out. Ascends seat.me seat.count 0 (nodes_in out.items)) }
{
    let mut out = VecDeque::new(alloc);
    for q in 0..seat.count {
        if Way::ToAll.sends(seat.me, q) {
            let letter = size_letter(alloc, round, pairs_for(lists, q))?;
            out.push_back((q, letter))?;
        }
    }
    Ok(out)
}

/// Hands each list on as a letter to its node, and keeps that of node `me`. No list is copied.
fn hand_on(alloc: Global, me: u32, round: u64, lists: NumberLists) -> Result<Handed, Memory>
    requires few { length lists ≤ 16 }
    requires me { me < length lists }
    ensures own { IfOk result (λ handed. handed.own ≡ list_at lists me) }
    ensures next { IfOk result (λ handed.
        handed.next.items ≡ picked (λ q. rows_told round (list_at lists q)) (λ q. sends ToAll me q) 0 (length lists)) }
{
    let mut rest = lists.into_vec();
    let mut own = Numbers::new(alloc);
    let mut next = VecDeque::new(alloc);
    while let Some(list) = rest.pop() {
        let q = rest.len() as u32;
        if Way::ToAll.sends(me, q) {
            next.push_front((q, Letter::new(Kind::Append, round, 0, list)))?;
        } else {
            own = list;
        }
    }
    Ok(Handed { own, next })
}

fn sizes_wanted(round: u64) -> Wanted
    ensures { result ≡ sizes_are_wanted round }
{
    Wanted {
        kind: Kind::Sizes,
        execution: round,
        site: 0,
        group: 1,
        least: 1,
        most: 1,
    }
}

/// The beginning of a round in which each node is to get the pairs of its list.
pub fn begin_round(
    alloc: Global,
    seat: Seat,
    round: u64,
    left: u32,
    lists: NumberLists,
) -> Result<Begun, Memory>
    requires count { length lists ≡ seat.count }
    requires me { seat.me < seat.count }
    requires few { seat.count ≤ 16 }
    ensures { IfOk result (RoundBegins seat round left lists) }
{
    let out = sizes_out(alloc, seat, round, &lists)?;
    let wanted = sizes_wanted(round);
    let due = due_of(alloc, Way::ToAll, seat.me, seat.count, wanted)?;
    let phase = phase_of(alloc, left, out, due)?;
    let handed = hand_on(alloc, seat.me, round, lists)?;
    let Handed { own, next } = handed;
    Ok(Begun { phase, own, next })
}

fn append_wanted(round: u64, pairs: u64) -> Wanted
    requires { pairs < 2 ^ 63 }
    ensures { result ≡ append_is_wanted round pairs }
{
    Wanted {
        kind: Kind::Append,
        execution: round,
        site: 0,
        group: 2,
        least: 2 * pairs,
        most: 2 * pairs,
    }
}

/// How many pairs a node told that it sends; none where it told no number, or one below 0.
fn size_from(me: u32, got: &[Letter], node: u32) -> u64
    ensures is { result ≡ size_in (the_told me got.now node) }
    ensures few { result < 2 ^ 63 }
{
    let size = at(told(me, got, node), 0);
    if size < 0 { 0 } else { size as u64 }
}

/// What is wanted of each other node behind the sizes that they told: just so many pairs.
pub fn appends_due(
    alloc: Global,
    seat: Seat,
    round: u64,
    got: &[Letter],
) -> Result<VecDeque<(u32, Wanted)>, Memory>
    ensures is { IfOk result (λ due.
        due.items ≡ picked (λ q. append_is_wanted round (size_in (the_told seat.me got.now q))) (λ q. sends ToAll q seat.me) 0 seat.count) }
    ensures up { IfOk result (λ due. Ascends seat.me seat.count 0 (nodes_in due.items)) }
{
    let mut due = VecDeque::new(alloc);
    for q in 0..seat.count {
        if Way::ToAll.sends(q, seat.me) {
            let wanted = append_wanted(round, size_from(seat.me, got, q));
            due.push_back((q, wanted))?;
        }
    }
    Ok(due)
}

fn print_wanted(steps: u64) -> Wanted
    requires { steps ≤ 1000 }
    ensures { result ≡ print_is_wanted steps }
{
    Wanted {
        kind: Kind::Print,
        execution: steps + 1,
        site: 0,
        group: 2,
        least: 0,
        most: 4_294_967_296,
    }
}

/// A letter to node 0, or none where it is node 0 that tells it.
fn first_out(alloc: Global, seat: Seat, letter: Letter) -> Result<VecDeque<(u32, Letter)>, Memory>
    requires me { seat.me < seat.count }
    ensures is { IfOk result (λ out. out.items ≡ picked (λ q. letter) (λ q. sends ToFirst seat.me q) 0 seat.count) }
    ensures up { IfOk result (λ out. Ascends seat.me seat.count 0 (nodes_in out.items)) }
{
    let mut out = VecDeque::new(alloc);
    if seat.me != 0 {
        out.push_back((0, letter))?;
    }
    Ok(out)
}

/// The beginning of the last phase: these rows go to node 0, which keeps its own.
pub fn begin_print(
    alloc: Global,
    seat: Seat,
    steps: u64,
    left: u32,
    rows: Numbers,
) -> Result<Begun, Memory>
    requires me { seat.me < seat.count }
    requires few { steps ≤ 1000 }
    ensures { IfOk result (PrintBegins seat steps left rows) }
{
    let none = Numbers::new(alloc);
    let (own, told) = if seat.me == 0 {
        (rows, none)
    } else {
        (none, rows)
    };
    let letter = Letter::new(Kind::Print, steps + 1, 0, told);
    let out = first_out(alloc, seat, letter)?;
    let due = due_of(
        alloc,
        Way::ToFirst,
        seat.me,
        seat.count,
        print_wanted(steps),
    )?;
    let phase = phase_of(alloc, left, out, due)?;
    Ok(Begun {
        phase,
        own,
        next: VecDeque::new(alloc),
    })
}
