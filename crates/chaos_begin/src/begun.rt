ghost use Rattle.std.specs.Prelude.{◌≡◌, ◌<◌, ◌≤ℤ◌, [], List, length, IfOk, IfSome, IsSomeAnd, MatchOption};
ghost use Rattle.std.specs.Option.{option_map};
ghost use Rattle.chaos_begin.specs.declared.begun.Begun.TheVariants as begun;
ghost use Rattle.fd_program.specs.StepLaws.{IsStepIn};
ghost use Rattle.plan_run.specs.Held.{Held};
ghost use Rattle.plan_run.specs.Phases.{stages_of};
ghost use Rattle.fd_program.specs.Layouts.{Scene};
ghost use Rattle.fd_program.specs.Trace.{is_empty_turn};
ghost use Rattle.fd_program.specs.declared.trace.Step.{Step};
ghost use Rattle.fd_program.specs.declared.trace.Step.TheVariants.{Distribute, Forall};
ghost use Rattle.chaos_begin.specs.Begins.{IsBegun, IsBetween, IsLoopAt, IsFitBegun, IsSoundBetween};

use crate::Between;
use chaos_dist::StepForm;
use chaos_moving::Moving;
use fd_program::{LoopFacts, LoopTurn, Step};
use fd_words::Memory;
use std::alloc::Global;

/// What a step begins with: the array with this number, to print; a decomposition, to move; the facts of a
/// FORALL, to inspect; or a FORALL that is executed by the inspection that is kept of it.
#[derive(Drop)]
pub enum Begun {
    Print(u32),
    Move(Moving),
    Inspect(LoopFacts),
    Execute,
}

fn move_begun(moving: Option<Moving>) -> Option<Begun>
    ensures { result ≡ option_map begun.Move moving }
{
    match moving {
        None => None,
        Some(moving) => Some(Begun::Move(moving)),
    }
}

/// Whether the range is empty.
fn is_empty(turn: &LoopTurn) -> bool
    ensures { result ≡ is_empty_turn turn.now }
{
    turn.high < turn.low
}

impl<'a> Between<'a> {
    fn distribute(&self, alloc: Global, d: u32, form: StepForm) -> Result<Option<Begun>, Memory>
        requires { IsSoundBetween self.now }
        ensures begun { IfOk result (λ o. (s : Scene) (past : List Step) (v : Held) → IsBetween s past v self.now
            → IsStepIn s.checked (Distribute d form)
            → MatchOption o (stages_of s.checked s.nodes s.rule past (Distribute d form) ≡ [])
            (IsBegun s past (Distribute d form) self.now.me)) }
        ensures plain { IfOk result (λ o. IfSome o (IsFitBegun self.now)) }
    {
        if self.records.is_repeat(d, form) {
            return Ok(None);
        }
        let moving = self.move_to(alloc, d, form)?;
        Ok(move_begun(moving))
    }

    fn execute(&self, alloc: Global, site: u32, turn: &LoopTurn) -> Result<Option<Begun>, Memory>
        requires { IsSoundBetween self.now }
        ensures begun { IfOk result (λ o. (s : Scene) (past : List Step) (v : Held) → IsBetween s past v self.now
            → IsStepIn s.checked (Forall site turn.now)
            → MatchOption o (stages_of s.checked s.nodes s.rule past (Forall site turn.now) ≡ [])
            (IsBegun s past (Forall site turn.now) self.now.me)) }
        ensures plain { IfOk result (λ o. IfSome o (IsFitBegun self.now)) }
    {
        if self.checked.sites.len() <= site as usize {
            return Ok(None);
        }
        if is_empty(turn) {
            return Ok(None);
        }
        let does = self.inspects(alloc, site, turn)?;
        self.loop_begun(alloc, site, turn, does)
    }

    /// An execution of a FORALL, which inspects or doesn't.
    fn loop_begun(
        &self,
        alloc: Global,
        site: u32,
        turn: &LoopTurn,
        does: bool,
    ) -> Result<Option<Begun>, Memory>
        requires sound { IsSoundBetween self.now }
        requires site { site < length self.now.checked.now.sites }
        requires range { turn.now.low ≤ℤ turn.now.high }
        ensures begun { IfOk result (λ o. (s : Scene) (past : List Step) (v : Held) → IsBetween s past v self.now
            → IsLoopAt s past site turn.now does
            → IsSomeAnd o (IsBegun s past (Forall site turn.now) self.now.me)) }
        ensures plain { IfOk result (λ o. IfSome o (IsFitBegun self.now)) }
    {
        if does {
            let facts = self.loop_facts(alloc, site, turn)?;
            Ok(Some(Begun::Inspect(facts)))
        } else {
            Ok(Some(Begun::Execute))
        }
    }
}

/// What a step begins with on a node; none where it has no phases, as a repeat of a form and a FORALL
/// with an empty range. Linear in what is held of the decomposition, or in the program.
pub fn begin(alloc: Global, between: &Between, step: &Step) -> Result<Option<Begun>, Memory>
    requires { IsSoundBetween between.now }
    ensures begun { IfOk result (λ o. (s : Scene) (past : List Step) (v : Held) → IsBetween s past v between.now
        → IsStepIn s.checked step.now
        → MatchOption o (stages_of s.checked s.nodes s.rule past step.now ≡ []) (IsBegun s past step.now between.now.me)) }
    ensures plain { IfOk result (λ o. IfSome o (IsFitBegun between.now)) }
{
    match step {
        Step::Distribute {
            decomposition,
            form,
        } => between.distribute(alloc, *decomposition, *form),
        Step::Print { array } => Ok(Some(Begun::Print(*array))),
        Step::Forall { site, turn } => between.execute(alloc, *site, turn),
    }
}
