ghost use Rattle.std.specs.Prelude.{◌≡◌, ◌≤◌, ◌<◌, ◌^◌, true, false, IfOk};
ghost use Rattle.chaos_begin.specs.Begins.{BeginsInspection, BeginsLoop, BeginsMove, IsBegun, IsFit, IsFitBegun, IsSoundBetween};
ghost use Rattle.chaos_entering.specs.Coming.{CanStand, EntersStep};
ghost use Rattle.chaos_entering.specs.Enters.{EntersNext};

use crate::ahead::Ahead;
use crate::enter_prints::{enter_end, enter_output, enter_print};
use crate::entered::Entered;
use crate::found::{Found, find};
use crate::loops::{enter_gather, enter_inspection, enter_move};
use chaos_begin::{Begun, Between};
use chaos_holdings::{Session, kept_of};
use chaos_inspect::Inspection;
use chaos_moving::Moving;
use fd_program::LoopFacts;
use fd_words::Memory;
use inspect_places::PageSet;
use std::alloc::Global;

/// A FORALL is inspected from here on.
fn begin_inspection(ahead: &Ahead, facts: LoopFacts) -> Result<Entered, Memory>
    requires { IsFit ahead.now.between.now facts }
    ensures made { IfOk result (CanStand ahead.now.between.now.me ahead.now.session.now.nodes) }
    ensures falls { IfOk result (λ e. e.left ≤ ahead.now.left) }
    ensures right { IfOk result (EntersStep ahead.now (λ s past step. BeginsInspection s past step facts)) }
{
    let between = ahead.between;
    let inspection = Inspection::begin(ahead.alloc, facts, between.me)?;
    let entered = enter_inspection(
        ahead.alloc,
        ahead.session,
        between.me,
        ahead.number,
        ahead.site,
        inspection,
        between.parts,
        ahead.pages,
        &[],
        ahead.left,
    )?;
    Ok(begins(entered))
}

/// The same phase, with which an inspection begins.
fn begins(entered: Entered) -> Entered
    ensures { result ≡ record entered { begins = true } }
{
    let mut entered = entered;
    entered.begins = true;
    entered
}

/// A FORALL is executed by the inspection that is kept of it.
fn execute_kept(ahead: &Ahead) -> Result<Entered, Memory>
    ensures made { IfOk result (CanStand ahead.now.between.now.me ahead.now.session.now.nodes) }
    ensures falls { IfOk result (λ e. e.left ≤ ahead.now.left) }
    ensures right { IfOk result (EntersStep ahead.now (λ s past step. BeginsLoop s past step false)) }
{
    let between = ahead.between;
    match kept_of(between.kept, ahead.site) {
        Some(prepared) => enter_gather(
            ahead.alloc,
            ahead.session,
            between.me,
            ahead.number,
            ahead.site,
            prepared,
            between.parts,
            ahead.left,
        ),
        None => Ok(enter_end(ahead.alloc, ahead.number)),
    }
}

/// The move of a decomposition begins.
fn begin_move(ahead: &Ahead, moving: Moving) -> Result<Entered, Memory>
    ensures made { IfOk result (CanStand ahead.now.between.now.me ahead.now.session.now.nodes) }
    ensures falls { IfOk result (λ e. e.left ≤ ahead.now.left) }
    ensures right { IfOk result (EntersStep ahead.now (λ s past step. BeginsMove s past step ahead.now.between.now.me moving)) }
{
    enter_move(
        ahead.alloc,
        ahead.session,
        ahead.between.me,
        ahead.number,
        moving,
        &[],
        ahead.left,
    )
}

/// The first phase of a step.
fn enter_step(ahead: &Ahead, begun: Begun) -> Result<Entered, Memory>
    requires { IsFitBegun ahead.now.between.now begun }
    ensures made { IfOk result (CanStand ahead.now.between.now.me ahead.now.session.now.nodes) }
    ensures falls { IfOk result (λ e. e.left ≤ ahead.now.left) }
    ensures right { IfOk result (EntersStep ahead.now (λ s past step. IsBegun s past step ahead.now.between.now.me begun)) }
{
    match begun {
        Begun::Print(array) => enter_print(ahead, array),
        Begun::Move(moving) => begin_move(ahead, moving),
        Begun::Inspect(facts) => begin_inspection(ahead, facts),
        Begun::Execute => execute_kept(ahead),
    }
}

/// The first phase behind the steps before `from`: that of the next step with phases, or else of OUTPUT.
pub fn enter_next(
    alloc: Global,
    session: &Session,
    between: &Between,
    pages: &PageSet,
    from: u64,
    left: u32,
) -> Result<Entered, Memory>
    requires sound { IsSoundBetween between.now }
    requires left { left < 2 ^ 31 }
    ensures made { IfOk result (CanStand between.now.me session.now.nodes) }
    ensures falls { IfOk result (λ e. e.left ≤ left) }
    ensures right { IfOk result (EntersNext session.now between.now pages.now from left) }
{
    match find(alloc, between, &session.trace, from)? {
        Found::Step {
            number,
            site,
            begun,
        } => {
            let ahead = Ahead {
                alloc,
                session,
                between,
                pages,
                number,
                site,
                left,
            };
            enter_step(&ahead, begun)
        }
        Found::Over => enter_output(
            alloc,
            session,
            between.me,
            0,
            between.elements,
            between.parts,
            left,
        ),
    }
}
