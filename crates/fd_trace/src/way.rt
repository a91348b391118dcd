ghost use Rattle.std.specs.Prelude.{◌≡◌, ◌++◌, ◌∷◌, [], drop, map, OnOk, IfErr, IfOk, All, slice_get};
ghost use Rattle.std.specs.Option.{option_copied};
ghost use Rattle.fd_program.specs.Scalars.{scalar_value};
ghost use Rattle.fd_program.specs.Terms.{HaveTerms};
ghost use Rattle.fd_program.specs.Trace.{no_site, inside_of, steps_of_turns, steps_of_statement, steps_of};
ghost use Rattle.fd_trace.specs.Events.{Event, bad, Goes};
ghost use Rattle.fd_trace.specs.Sizes.{IsSmall, scalar_faults};
ghost use Rattle.fd_trace.specs.Way.{extent_of, output_event, turn_way, turns_way, way_of_statement, way_of, IsUnrolled};
ghost use Rattle.fd_words.specs.declared.source.SourceStop.TheVariants.{Memory};

use crate::budget::Left;
use crate::turns::{append, passed_value, run_loop};
use chaos_dist::StepForm;
use fd_program::{Checked, CheckedScalar, CheckedStatement, OutputName, Site, Step, Trace};
use fd_words::{Numbers, SourcePlace, SourceStop};
use sqlite_items::Items;
use std::alloc::Global;

fn site_of(sites: &[Site], number: u32) -> Option<&Site>
    ensures { option_copied result ≡ slice_get sites.now number }
{
    sites.get(number as usize)
}

/// The extent of an array.
fn extent(checked: &Checked, array: u32) -> u64
    ensures { result ≡ extent_of checked.now array }
{
    match checked.arrays.as_slice().get(array as usize) {
        Some(facts) => facts.extent,
        None => 0,
    }
}

/// How many of the statements behind it are the body of a statement.
fn inside_number(statement: &CheckedStatement) -> u64
    ensures { result ≡ inside_of statement.now }
{
    match statement {
        CheckedStatement::Distribute {
            at: _,
            decomposition: _,
            form: _,
        } => 0,
        CheckedStatement::Print { at: _, array: _ } => 0,
        CheckedStatement::Forall(_) => 0,
        CheckedStatement::Do {
            at: _,
            low: _,
            high: _,
            inside,
        } => u64::from(*inside),
    }
}

fn skip(statements: &[CheckedStatement], count: u64) -> &[CheckedStatement]
    ensures { result.now ≡ drop count statements.now }
{
    if count <= statements.len() as u64 {
        &statements[count as usize..]
    } else {
        &statements[statements.len()..]
    }
}

fn distribute(
    at: SourcePlace,
    decomposition: u32,
    form: StepForm,
    left: &mut Left,
    steps: &mut Trace,
) -> Result<(), SourceStop>
    ensures way { Goes left.old left.new result (Event.Begins at ∷ []) }
    ensures steps { OnOk result (steps.new ≡ steps.old ++ Step.Distribute decomposition form ∷ []) }
{
    match left.begin(at) {
        Ok(()) => {}
        Err(stop) => return Err(stop),
    }
    append(
        steps,
        Step::Distribute {
            decomposition,
            form,
        },
    )
}

fn print(
    checked: &Checked,
    at: SourcePlace,
    array: u32,
    left: &mut Left,
    steps: &mut Trace,
) -> Result<(), SourceStop>
    ensures way { Goes left.old left.new result (Event.Begins at ∷ (Event.Prints at (extent_of checked.now array) ∷ [])) }
    ensures steps { OnOk result (steps.new ≡ steps.old ++ Step.Print array ∷ []) }
{
    match left.begin(at) {
        Ok(()) => {}
        Err(stop) => return Err(stop),
    }
    match left.print(at, extent(checked, array)) {
        Ok(()) => {}
        Err(stop) => return Err(stop),
    }
    append(steps, Step::Print { array })
}

/// The variables with one more: at most one for each enclosing DO.
fn with_variable(alloc: Global, variables: &Numbers, number: i64) -> Result<Numbers, SourceStop>
    ensures ok { IfOk result (λ v. v ≡ variables.now ++ number ∷ []) }
    ensures err { IfErr result (λ e. e ≡ Memory) }
{
    match variables.copy(alloc) {
        Ok(copy) => {
            let mut more = copy;
            match more.push(number) {
                Ok(()) => Ok(more),
                Err(_) => Err(SourceStop::Memory),
            }
        }
        Err(_) => Err(SourceStop::Memory),
    }
}

fn empty_site(alloc: Global) -> Site
    ensures { result ≡ no_site }
{
    let at = SourcePlace { line: 0, column: 0 };
    Site {
        at,
        low: CheckedScalar::Number { value: 0, at },
        high: CheckedScalar::Number { value: 0, at },
        body: Items::new(alloc),
        references: Items::new(alloc),
        terms: Items::new(alloc),
    }
}

/// One turn of a DO, whose body is the first `inside` statements of `rest`.
#[cycle(walk)]
fn turn(
    alloc: Global,
    checked: &Checked,
    variables: &Numbers,
    left: &mut Left,
    steps: &mut Trace,
    at: SourcePlace,
    number: i64,
    inside: u64,
    rest: &[CheckedStatement],
) -> Result<(), SourceStop>
    requires named { HaveTerms checked.now.sites }
    requires small { All IsSmall variables.now }
    requires number { IsSmall number }
    ensures way { Goes left.old left.new result (turn_way (λ inner count. way_of checked.now inner 0 count rest.now) variables.now at
        inside number) }
    ensures steps { OnOk result (steps.new ≡ steps.old ++ steps_of checked.now.sites (variables.now ++ number ∷ []) 0 inside rest.now) }
{
    match left.begin(at) {
        Ok(()) => {}
        Err(stop) => return Err(stop),
    }
    match with_variable(alloc, variables, number) {
        Ok(inner) => walk(alloc, checked, &inner, left, steps, rest, inside),
        Err(stop) => Err(stop),
    }
}

/// The turns of a DO.
#[cycle(walk)]
fn all_turns(
    alloc: Global,
    checked: &Checked,
    variables: &Numbers,
    left: &mut Left,
    steps: &mut Trace,
    at: SourcePlace,
    low: i64,
    high: i64,
    inside: u64,
    rest: &[CheckedStatement],
) -> Result<(), SourceStop>
    requires named { HaveTerms checked.now.sites }
    requires small { All IsSmall variables.now }
    requires low { IsSmall low }
    requires high { IsSmall high }
    ensures way { Goes left.old left.new result (turns_way (λ inner count. way_of checked.now inner 0 count rest.now) variables.now at
        inside low high) }
    ensures steps { OnOk result (steps.new ≡ steps.old ++ steps_of_turns (λ inner count. steps_of checked.now.sites inner 0 count
        rest.now) variables.now inside low high) }
{
    let mut number = i128::from(low);
    while number <= i128::from(high) {
        match turn(
            alloc,
            checked,
            variables,
            left,
            steps,
            at,
            number as i64,
            inside,
            rest,
        ) {
            Ok(()) => {}
            Err(stop) => return Err(stop),
        }
        number += 1;
    }
    Ok(())
}

/// A DO.
#[cycle(walk)]
fn run_do(
    alloc: Global,
    checked: &Checked,
    variables: &Numbers,
    left: &mut Left,
    steps: &mut Trace,
    at: SourcePlace,
    low: &CheckedScalar,
    high: &CheckedScalar,
    inside: u64,
    rest: &[CheckedStatement],
) -> Result<(), SourceStop>
    requires named { HaveTerms checked.now.sites }
    requires small { All IsSmall variables.now }
    ensures way { Goes left.old left.new result (bad (scalar_faults variables.now low.now) ++ (bad (scalar_faults variables.now high.now)
        ++ turns_way (λ inner count. way_of checked.now inner 0 count rest.now) variables.now at inside
        (scalar_value variables.now low.now) (scalar_value variables.now high.now))) }
    ensures steps { OnOk result (steps.new ≡ steps.old ++ steps_of_turns (λ inner count. steps_of checked.now.sites inner 0 count
        rest.now) variables.now inside (scalar_value variables.now low.now) (scalar_value variables.now high.now)) }
{
    let low = match passed_value(left, variables, low) {
        Ok(low) => low,
        Err(stop) => return Err(stop),
    };
    let high = match passed_value(left, variables, high) {
        Ok(high) => high,
        Err(stop) => return Err(stop),
    };
    all_turns(
        alloc, checked, variables, left, steps, at, low, high, inside, rest,
    )
}

/// One statement, with the statements behind it.
#[cycle(walk)]
fn statement(
    alloc: Global,
    checked: &Checked,
    variables: &Numbers,
    left: &mut Left,
    steps: &mut Trace,
    first: &CheckedStatement,
    rest: &[CheckedStatement],
) -> Result<(), SourceStop>
    requires named { HaveTerms checked.now.sites }
    requires small { All IsSmall variables.now }
    ensures way { Goes left.old left.new result (way_of_statement checked.now (λ inner count. way_of checked.now inner 0 count rest.now)
        variables.now first.now) }
    ensures steps { OnOk result (steps.new ≡ steps.old ++ steps_of_statement checked.now.sites
        (λ inner count. steps_of checked.now.sites inner 0 count rest.now) variables.now first.now) }
{
    match first {
        CheckedStatement::Distribute {
            at,
            decomposition,
            form,
        } => distribute(*at, *decomposition, *form, left, steps),
        CheckedStatement::Print { at, array } => print(checked, *at, *array, left, steps),
        CheckedStatement::Forall(number) => match site_of(checked.sites.as_slice(), *number) {
            Some(site) => run_loop(alloc, site, *number, variables, left, steps),
            None => {
                let site = empty_site(alloc);
                run_loop(alloc, &site, *number, variables, left, steps)
            }
        },
        CheckedStatement::Do {
            at,
            low,
            high,
            inside,
        } => run_do(
            alloc,
            checked,
            variables,
            left,
            steps,
            *at,
            low,
            high,
            u64::from(*inside),
            rest,
        ),
    }
}

/// The way through the first `count` statements.
#[cycle(walk)]
fn walk(
    alloc: Global,
    checked: &Checked,
    variables: &Numbers,
    left: &mut Left,
    steps: &mut Trace,
    statements: &[CheckedStatement],
    count: u64,
) -> Result<(), SourceStop>
    requires named { HaveTerms checked.now.sites }
    requires small { All IsSmall variables.now }
    ensures way { Goes left.old left.new result (way_of checked.now variables.now 0 count statements.now) }
    ensures steps { OnOk result (steps.new ≡ steps.old ++ steps_of checked.now.sites variables.now 0 count statements.now) }
{
    let mut behind = statements;
    let mut more = count;
    while let [first, ..] = behind {
        if more == 0 {
            return Ok(());
        }
        let rest = skip(behind, 1);
        match statement(alloc, checked, variables, left, steps, first, rest) {
            Ok(()) => {}
            Err(stop) => return Err(stop),
        }
        let inside = inside_number(first);
        behind = skip(rest, inside);
        more = (more - 1).saturating_sub(inside);
    }
    Ok(())
}

/// Counts the arrays that are written after the run.
fn count_outputs(
    checked: &Checked,
    left: &mut Left,
    outputs: &[OutputName],
) -> Result<(), SourceStop>
    ensures { Goes left.old left.new result (map (output_event checked.now) outputs.now) }
{
    for output in outputs {
        match left.print(output.at, extent(checked, output.array)) {
            Ok(()) => {}
            Err(stop) => return Err(stop),
        }
    }
    Ok(())
}

/// The steps of a program, or the first fault on the way through them: more than 20,000 steps and turns
/// of DOs, a scalar over 2^40, more than 16,777,216 iterations times references at a FORALL or printed
/// elements in all.
pub fn unroll(alloc: Global, checked: &Checked) -> Result<Trace, SourceStop>
    requires { HaveTerms checked.now.sites }
    ensures { IsUnrolled checked.now result }
{
    let mut left = Left {
        turns: 20_000,
        elements: 16_777_216,
    };
    match count_outputs(checked, &mut left, checked.outputs.as_slice()) {
        Ok(()) => {}
        Err(stop) => return Err(stop),
    }
    let mut steps = Trace::new(alloc);
    let variables = Numbers::new(alloc);
    let statements = checked.statements.as_slice();
    match walk(
        alloc,
        checked,
        &variables,
        &mut left,
        &mut steps,
        statements,
        statements.len() as u64,
    ) {
        Ok(()) => Ok(steps),
        Err(stop) => Err(stop),
    }
}
