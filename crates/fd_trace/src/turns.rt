ghost use Rattle.std.specs.Prelude.{◌≡◌, ◌≤◌, ◌^◌, ◌++◌, ◌∷◌, [], OnOk, IfErr, IfOk, All, ◌≤ℤ◌, ◌+ℤ◌, ◌-ℤ◌, pos};
ghost use Rattle.chaos_dist.specs.Homes.{natural};
ghost use Rattle.fd_program.specs.{Loops.count_between, Scalars.scalar_value, Terms.HasTerms, Trace.turn_between, Trace.turn_of};
ghost use Rattle.fd_trace.specs.Events.{bad, Goes};
ghost use Rattle.fd_trace.specs.Sizes.{IsSmall, scalar_faults, adds_faults};
ghost use Rattle.fd_trace.specs.Way.{adds_by, loop_way, work_way};
ghost use Rattle.fd_words.specs.declared.source.SourceStop.TheVariants.{Memory};

use crate::budget::Left;
use crate::scalars::value;
use crate::subscripts::{adds, terms};
use fd_program::{CheckedScalar, LoopTurn, Reference, Site, Step, Trace};
use fd_words::{Numbers, SourceStop};
use std::alloc::Global;

/// The value of a scalar on the way.
pub fn passed_value(
    left: &Left,
    variables: &Numbers,
    scalar: &CheckedScalar,
) -> Result<i64, SourceStop>
    requires { All IsSmall variables.now }
    ensures value { IfOk result (λ v. v ≡ scalar_value variables.now scalar.now) }
    ensures small { IfOk result IsSmall }
    ensures way { Goes left.now left.now result (bad (scalar_faults variables.now scalar.now)) }
{
    value(variables, scalar)
}

fn passed_adds(
    alloc: Global,
    left: &Left,
    variables: &Numbers,
    references: &[Reference],
) -> Result<Numbers, SourceStop>
    requires { All IsSmall variables.now }
    ensures value { IfOk result (λ v. v ≡ adds_by variables.now references.now) }
    ensures way { Goes left.now left.now result (bad (adds_faults variables.now references.now)) }
{
    adds(alloc, variables, references)
}

fn natural_of(number: i128) -> u128
    ensures { result ≡ natural number }
{
    if number < 0 { 0 } else { number as u128 }
}

fn width(low: i64, high: i64) -> i128
    ensures width { result ≡ high -ℤ low +ℤ pos 1 }
    ensures most { result ≤ℤ pos (2 ^ 64) }
{
    i128::from(high) - i128::from(low) + 1
}

/// How many iterations a range has.
fn iterations(low: i64, high: i64) -> u128
    ensures count { result ≡ count_between low high }
    ensures most { result ≤ 2 ^ 64 }
{
    natural_of(width(low, high))
}

pub fn append(steps: &mut Trace, step: Step) -> Result<(), SourceStop>
    ensures ok { OnOk result (steps.new ≡ steps.old ++ step ∷ []) }
    ensures err { IfErr result (λ e. e ≡ Memory) }
{
    match steps.push(step) {
        Ok(()) => Ok(()),
        Err(_) => Err(SourceStop::Memory),
    }
}

/// An execution of a FORALL, behind its bounds.
fn turn_from(
    alloc: Global,
    site: &Site,
    variables: &Numbers,
    left: &Left,
    low: i64,
    high: i64,
) -> Result<LoopTurn, SourceStop>
    requires small { All IsSmall variables.now }
    requires named { HasTerms site.now }
    ensures way { Goes left.now left.now result (work_way variables.now site.now low high) }
    ensures turn { IfOk result (λ t. t ≡ turn_between variables.now site.now low high) }
{
    if high < low {
        return Ok(LoopTurn {
            low,
            high,
            adds: Numbers::new(alloc),
            terms: Numbers::new(alloc),
        });
    }
    let terms = match terms(alloc, variables, site.terms.as_slice()) {
        Ok(terms) => terms,
        Err(_) => return Err(SourceStop::Memory),
    };
    let references = site.references.as_slice();
    match passed_adds(alloc, left, variables, references) {
        Ok(adds) => match left.work(site.at, iterations(low, high), references.len()) {
            Ok(()) => Ok(LoopTurn {
                low,
                high,
                adds,
                terms,
            }),
            Err(stop) => Err(stop),
        },
        Err(stop) => Err(stop),
    }
}

/// One execution of a FORALL, by its number.
pub fn run_loop(
    alloc: Global,
    site: &Site,
    number: u32,
    variables: &Numbers,
    left: &mut Left,
    steps: &mut Trace,
) -> Result<(), SourceStop>
    requires small { All IsSmall variables.now }
    requires named { HasTerms site.now }
    ensures way { Goes left.old left.new result (loop_way variables.now site.now) }
    ensures steps { OnOk result (steps.new ≡ steps.old ++ Step.Forall number (turn_of variables.now site.now) ∷ []) }
{
    match left.begin(site.at) {
        Ok(()) => {}
        Err(stop) => return Err(stop),
    }
    let low = match passed_value(left, variables, &site.low) {
        Ok(low) => low,
        Err(stop) => return Err(stop),
    };
    let high = match passed_value(left, variables, &site.high) {
        Ok(high) => high,
        Err(stop) => return Err(stop),
    };
    let turn = match turn_from(alloc, site, variables, left, low, high) {
        Ok(turn) => turn,
        Err(stop) => return Err(stop),
    };
    append(steps, Step::Forall { site: number, turn })
}
