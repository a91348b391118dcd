ghost use Rattle.std.specs.Prelude.{◌≡◌, List, length, IfOk};
ghost use Rattle.fd_program.specs.Trace.{trace_of};
ghost use Rattle.fd_program.specs.declared.trace.Step.{Step as AStep};
ghost use Rattle.chaos_begin.specs.Begins.{IsSoundBetween};
ghost use Rattle.plan_run.specs.Held.{Held};
ghost use Rattle.plan_run.specs.Phases.{site_of as the_site};
ghost use Rattle.plan_run.specs.Rows.{IsRunPlan, RunPlan};
ghost use Rattle.chaos_entering.specs.Coming.{HasFound, IsHere, IsPlainFound};
ghost use Rattle.chaos_entering.specs.Standing.{HasCome};

use chaos_begin::{Begun, Between, begin};
use fd_program::{Step, Trace};
use fd_words::Memory;
use std::alloc::Global;

/// The step that comes next.
#[derive(Drop)]
pub enum Found {
    /// The step with this number begins; it is for this array, decomposition or FORALL.
    Step {
        number: u64,
        site: u32,
        begun: Begun,
    },
    /// No step with phases is left.
    Over,
}

/// The array, decomposition or FORALL of a step.
fn site_of(step: &Step) -> u32
    ensures { result ≡ the_site step.now }
{
    match step {
        Step::Distribute {
            decomposition,
            form: _,
        } => *decomposition,
        Step::Print { array } => *array,
        Step::Forall { site, turn: _ } => *site,
    }
}

/// The first step with phases from a number on: repeats and FORALLs with an empty range are passed over.
pub fn find(alloc: Global, between: &Between, trace: &Trace, from: u64) -> Result<Found, Memory>
    requires { IsSoundBetween between.now }
    ensures plain { IfOk result (IsPlainFound between.now) }
    ensures found { IfOk result (λ f. (plan : RunPlan) (past rest : List AStep) (v : Held) → IsRunPlan plan
        → trace.now ≡ trace_of plan.checked → from ≡ length past
        → IsHere plan between.now v → HasCome plan past rest between.now.me v → HasFound plan past rest between.now.me v f) }
{
    let steps = trace.as_slice();
    for number in (from as usize)..steps.len() {
        let step = &steps[number];
        match begin(alloc, between, step)? {
            Some(begun) => {
                return Ok(Found::Step {
                    number: number as u64,
                    site: site_of(step),
                    begun,
                });
            }
            None => {}
        }
    }
    Ok(Found::Over)
}
