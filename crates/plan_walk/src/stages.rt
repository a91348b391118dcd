ghost use Rattle.std.specs.Prelude.{◌≡◌, ◌+◌, ℕ, IfOk};
ghost use Rattle.fd_words.specs.Lists.{list_at};
ghost use Rattle.plan_run.specs.Phases.{is_free, is_sent, most_in};
ghost use Rattle.plan_walk.specs.Letters.{letter_in, number_in, wanted_in};
ghost use Rattle.plan_run.specs.Picks.{picked};

use chaos_letter::{Letter, Wanted};
use fd_words::{Memory, NumberLists, Numbers};
use plan_loop::LoopPhase;
use plan_run::Stage;
use std::alloc::Global;
use std::collections::VecDeque;

/// Whether p sends to q: all to all, but the letters of a print go to node 0 alone.
fn sends_to(stage: Stage, p: u32, q: u32) -> bool
    ensures { result ≡ is_sent stage p q }
{
    match stage {
        Stage::Print | Stage::Output(_) => p != q && q == 0,
        _ => p != q,
    }
}

/// Whether the receiver doesn't know a letter's length.
fn is_open(stage: Stage) -> bool
    ensures { result ≡ is_free stage }
{
    match stage {
        Stage::PageCounts | Stage::MovingAnswer => false,
        Stage::InLoop(phase) => match phase {
            LoopPhase::DerefAnswer(_)
            | LoopPhase::IndexValues(_)
            | LoopPhase::Gather
            | LoopPhase::Scatter => false,
            _ => true,
        },
        _ => true,
    }
}

/// The most numbers that are taken where the length isn't known.
fn most(stage: Stage) -> u64
    ensures { result ≡ most_in stage }
{
    match stage {
        Stage::InLoop(LoopPhase::Vote) => 4,
        _ => 4_294_967_296,
    }
}

/// What the letters of a phase name, and in which groups their numbers come.
#[derive(Clone, Copy, Debug, PartialEq, Eq)]
pub struct Naming {
    pub stage: Stage,
    pub execution: u64,
    pub site: u32,
    pub group: u64,
}

impl Naming {
    /// A letter with these numbers.
    fn letter(self, numbers: Numbers) -> Letter
        ensures { result ≡ letter_in self numbers }
    {
        Letter::new(self.stage.kind(), self.execution, self.site, numbers)
    }

    /// What is wanted of a letter with so many numbers.
    fn wanted(self, count: u64) -> Wanted
        ensures { result ≡ wanted_in self count }
    {
        let open = is_open(self.stage);
        Wanted {
            kind: self.stage.kind(),
            execution: self.execution,
            site: self.site,
            group: self.group,
            least: if open { 0 } else { count },
            most: if open { most(self.stage) } else { count },
        }
    }
}

fn list_for(alloc: Global, lists: &NumberLists, node: u32) -> Result<Numbers, Memory>
    ensures { IfOk result (λ list. list ≡ list_at lists.now node) }
{
    match lists.get(u64::from(node)) {
        Some(list) => list.copy(alloc),
        None => Ok(Numbers::new(alloc)),
    }
}

/// The letters that a node sends in a phase, by ascending receiver; list q is for node q.
pub fn sends(
    alloc: Global,
    naming: Naming,
    me: u32,
    nodes: u32,
    lists: &NumberLists,
) -> Result<VecDeque<(u32, Letter)>, Memory>
    ensures { IfOk result (λ out. out.items ≡ picked (λ q. letter_in naming (list_at lists.now q)) (λ q. is_sent naming.stage me q) 0
        nodes) }
{
    let mut out = VecDeque::new(alloc);
    for q in 0..nodes {
        if sends_to(naming.stage, me, q) {
            let list = list_for(alloc, lists, q)?;
            out.push_back((q, naming.letter(list)))?;
        }
    }
    Ok(out)
}

fn count_for(counts: &[u64], node: u32) -> u64
    ensures { result ≡ number_in counts.now node }
{
    counts.get(node as usize).copied().unwrap_or(0)
}

/// What a node wants in a phase, by ascending sender; where a length is known, count q is that of the
/// letter from node q.
pub fn takes(
    alloc: Global,
    naming: Naming,
    me: u32,
    nodes: u32,
    counts: &[u64],
) -> Result<VecDeque<(u32, Wanted)>, Memory>
    ensures { IfOk result (λ due. due.items ≡ picked (λ q. wanted_in naming (number_in counts.now q)) (λ q. is_sent naming.stage q me) 0
        nodes) }
{
    let mut due = VecDeque::new(alloc);
    for q in 0..nodes {
        if sends_to(naming.stage, q, me) {
            due.push_back((q, naming.wanted(count_for(counts, q))))?;
        }
    }
    Ok(due)
}
