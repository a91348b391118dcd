ghost use Rattle.std.specs.Prelude.{◌≡◌, ◌++◌, fold, OnOk, IfOk};
ghost use Rattle.fd_scope.specs.Faults.{along};
ghost use Rattle.fd_loops.specs.Drafts.{start_draft, same_operator, is_assigned, is_reduced, is_other, is_reduced_otherwise, clash_faults};
ghost use Rattle.fd_loops.specs.Bodies.{is_plain, plain_faults, checked_body, with_body, after_written, written_faults, after_body};
ghost use Rattle.fd_loops.specs.Bodies.{body_faults};

use crate::elements::add_element;
use crate::exprs::add_expr;
use crate::{Draft, Target, UsedStamps};
use fd_program::{CheckedBody, CheckedExpr};
use fd_resolve::{Around, same_name};
use fd_scope::{Faults, Head};
use fd_syntax::{BodyStatement, Element, Expr, Subscript};
use fd_words::{Combine, Memory, Name, Role, SourceCause, SourcePlace};
use std::alloc::Global;

fn one_operator(operator: Combine, other: Combine) -> bool
    ensures { result ≡ same_operator operator other }
{
    match (operator, other) {
        (Combine::Add, Combine::Add) => true,
        (Combine::Min, Combine::Min) => true,
        (Combine::Max, Combine::Max) => true,
        _ => false,
    }
}

fn differs(operator: Option<Combine>, other: Combine) -> bool
    ensures { result ≡ is_other operator other }
{
    match operator {
        Some(operator) => !one_operator(operator, other),
        None => false,
    }
}

fn assigned(targets: &[Target], name: Name) -> bool
    ensures { result ≡ is_assigned targets.now name }
{
    targets.iter().any(|target| same_name(name, target.name) && !target.operator.is_some())
}

fn reduced(targets: &[Target], name: Name) -> bool
    ensures { result ≡ is_reduced targets.now name }
{
    targets.iter().any(|target| same_name(name, target.name) && target.operator.is_some())
}

fn reduced_otherwise(targets: &[Target], name: Name, operator: Combine) -> bool
    ensures { result ≡ is_reduced_otherwise targets.now name operator }
{
    targets.iter().any(|target| same_name(name, target.name) && differs(target.operator, operator))
}

/// Notes what a target does not agree with.
fn note_clash(
    faults: &mut Faults,
    targets: &[Target],
    name: Name,
    operator: Option<Combine>,
    at: SourcePlace,
) -> Result<(), Memory>
    ensures noted { OnOk result (faults.new ≡ faults.old ++ clash_faults targets.now name operator at) }
{
    let is_assigned = assigned(targets, name);
    match operator {
        None => {
            faults.note_if(is_assigned, at, SourceCause::TwoAssigns(name))?;
            faults.note_if(
                reduced(targets, name),
                at,
                SourceCause::AssignAndReduce(name),
            )
        }
        Some(operator) => {
            let is_other = reduced_otherwise(targets, name, operator);
            faults.note_if(is_assigned, at, SourceCause::AssignAndReduce(name))?;
            faults.note_if(is_other, at, SourceCause::TwoOperators(name))
        }
    }
}

fn plain(subscript: &Subscript) -> bool
    ensures { result ≡ is_plain subscript.now }
{
    match subscript {
        Subscript::Plain { add: _ } => true,
        Subscript::Through {
            index_array: _,
            at: _,
            inner_add: _,
            add: _,
        } => false,
        Subscript::Twice {
            outer: _,
            at: _,
            inner: _,
            inner_at: _,
            first_add: _,
            second_add: _,
            add: _,
        } => false,
        Subscript::Scalar(_) => false,
    }
}

fn note_not_plain(
    faults: &mut Faults,
    operator: Option<Combine>,
    target: &Element,
) -> Result<(), Memory>
    ensures noted { OnOk result (faults.new ≡ faults.old ++ plain_faults operator target.now) }
{
    match operator {
        None => {
            let is_plain = plain(&target.subscript);
            faults.note_if(!is_plain, target.at, SourceCause::AssignThroughIndex)
        }
        Some(_) => Ok(()),
    }
}

fn statement_of(operator: Option<Combine>, target: u32, value: CheckedExpr) -> CheckedBody
    ensures { result ≡ checked_body operator target value }
{
    match operator {
        None => CheckedBody::Assign { target, value },
        Some(operator) => CheckedBody::Reduce {
            operator,
            target,
            value,
        },
    }
}

fn push_statement(draft: &mut Draft, statement: CheckedBody) -> Result<(), Memory>
    ensures { OnOk result (draft.new ≡ with_body draft.old statement) }
{
    match draft.body.push(statement) {
        Ok(()) => Ok(()),
        Err(_) => Err(Memory),
    }
}

fn add_written(
    alloc: Global,
    head: &Head,
    around: &Around,
    index: Name,
    draft: &mut Draft,
    faults: &mut Faults,
    operator: Option<Combine>,
    target: &Element,
    value: &Expr,
) -> Result<(), Memory>
    ensures draft { OnOk result (draft.new ≡ after_written head.now around.now index operator target.now value.now draft.old) }
    ensures noted { OnOk result (faults.new ≡ faults.old ++ written_faults head.now around.now index operator target.now value.now
        draft.old) }
{
    note_not_plain(faults, operator, target)?;
    note_clash(
        faults,
        draft.targets.as_slice(),
        target.name,
        operator,
        target.at,
    )?;
    draft.add_target(target.name, operator)?;
    let number = add_element(alloc, head, around, draft, faults, Role::Target, target)?;
    let value = add_expr(alloc, head, around, index, draft, faults, value)?;
    push_statement(draft, statement_of(operator, number, value))
}

fn add_statement(
    alloc: Global,
    head: &Head,
    around: &Around,
    index: Name,
    draft: &mut Draft,
    faults: &mut Faults,
    statement: &BodyStatement,
) -> Result<(), Memory>
    ensures draft { OnOk result (draft.new ≡ after_body head.now around.now index draft.old statement.now) }
    ensures noted { OnOk result (faults.new ≡ faults.old ++ body_faults head.now around.now index draft.old statement.now) }
{
    match statement {
        BodyStatement::Assign { target, value } => add_written(
            alloc, head, around, index, draft, faults, None, target, value,
        ),
        BodyStatement::Reduce {
            operator,
            target,
            value,
        } => add_written(
            alloc,
            head,
            around,
            index,
            draft,
            faults,
            Some(*operator),
            target,
            value,
        ),
    }
}

/// The body of a FORALL, where so many stamps of each decomposition are used before it.
pub fn loop_body(
    alloc: Global,
    head: &Head,
    around: &Around,
    index: Name,
    used: UsedStamps,
    faults: &mut Faults,
    statements: &[BodyStatement],
) -> Result<Draft, Memory>
    ensures draft { IfOk result (λ d. d ≡ fold (after_body head.now around.now index) (start_draft used) statements.now) }
    ensures noted { OnOk result (faults.new ≡ faults.old ++ along (after_body head.now around.now index)
        (body_faults head.now around.now index) (start_draft used) statements.now) }
{
    let mut draft = Draft::new(alloc, used);
    for statement in statements {
        add_statement(alloc, head, around, index, &mut draft, faults, statement)?;
    }
    Ok(draft)
}
