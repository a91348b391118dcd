ghost use Rattle.std.specs.Prelude.{◌≡◌, ◌++◌, ◌∷◌, [], IfOk, OnOk};

use fd_program::{
    CheckedBody, CheckedBodyList, CheckedExpr, CheckedScalar, CheckedScalars, CheckedSubscript,
    CheckedTerm, CheckedTerms, Reference, References, Site,
};
use fd_words::Memory;
use sqlite_items::Items;
use std::alloc::Global;

// ---- scalars

/// An equal scalar.
pub fn copy_scalar(alloc: Global, scalar: &CheckedScalar) -> Result<CheckedScalar, Memory>
    ensures { IfOk result (λ s. s ≡ scalar.now) }
{
    match scalar {
        CheckedScalar::Number { value, at } => Ok(CheckedScalar::Number {
            value: *value,
            at: *at,
        }),
        CheckedScalar::Variable { depth, at } => Ok(CheckedScalar::Variable {
            depth: *depth,
            at: *at,
        }),
        CheckedScalar::Negate { at, inner } => {
            let inner = copy_scalar(alloc, inner.get())?;
            CheckedScalar::negate(alloc, *at, inner)
        }
        CheckedScalar::Binary {
            op,
            at,
            left,
            right,
        } => {
            let left = copy_scalar(alloc, left.get())?;
            let right = copy_scalar(alloc, right.get())?;
            CheckedScalar::join(alloc, *op, *at, left, right)
        }
    }
}

fn copy_scalars(alloc: Global, scalars: &[CheckedScalar]) -> Result<CheckedScalars, Memory>
    ensures { IfOk result (λ s. s ≡ scalars.now) }
{
    let mut copies = Items::new(alloc);
    for scalar in scalars {
        copies.push(copy_scalar(alloc, scalar)?)?;
    }
    Ok(copies)
}

// ---- subscripts

fn copy_term(alloc: Global, term: &CheckedTerm) -> Result<CheckedTerm, Memory>
    ensures { IfOk result (λ t. t ≡ term.now) }
{
    Ok(CheckedTerm {
        minus: term.minus,
        at: term.at,
        scalar: copy_scalar(alloc, &term.scalar)?,
    })
}

fn copy_terms(alloc: Global, terms: &[CheckedTerm]) -> Result<CheckedTerms, Memory>
    ensures { IfOk result (λ t. t ≡ terms.now) }
{
    let mut copies = Items::new(alloc);
    for term in terms {
        copies.push(copy_term(alloc, term)?)?;
    }
    Ok(copies)
}

fn copy_subscript(alloc: Global, subscript: &CheckedSubscript) -> Result<CheckedSubscript, Memory>
    ensures { IfOk result (λ s. s ≡ subscript.now) }
{
    match subscript {
        CheckedSubscript::Plain { add } => {
            let add = copy_terms(alloc, add.as_slice())?;
            Ok(CheckedSubscript::Plain { add })
        }
        CheckedSubscript::Through {
            index_array,
            at,
            inner_add,
            add,
        } => {
            let inner_add = copy_terms(alloc, inner_add.as_slice())?;
            let add = copy_terms(alloc, add.as_slice())?;
            Ok(CheckedSubscript::Through {
                index_array: *index_array,
                at: *at,
                inner_add,
                add,
            })
        }
        CheckedSubscript::Twice {
            outer,
            at,
            inner,
            inner_at,
            first_add,
            second_add,
            add,
        } => {
            let first_add = copy_terms(alloc, first_add.as_slice())?;
            let second_add = copy_terms(alloc, second_add.as_slice())?;
            let add = copy_terms(alloc, add.as_slice())?;
            Ok(CheckedSubscript::Twice {
                outer: *outer,
                at: *at,
                inner: *inner,
                inner_at: *inner_at,
                first_add,
                second_add,
                add,
            })
        }
        CheckedSubscript::Scalar(scalar) => {
            let scalar = copy_scalar(alloc, scalar)?;
            Ok(CheckedSubscript::Scalar(scalar))
        }
    }
}

fn copy_reference(alloc: Global, reference: &Reference) -> Result<Reference, Memory>
    ensures { IfOk result (λ r. r ≡ reference.now) }
{
    Ok(Reference {
        role: reference.role,
        array: reference.array,
        subscript: copy_subscript(alloc, &reference.subscript)?,
        stamp: reference.stamp,
    })
}

fn copy_references(alloc: Global, references: &[Reference]) -> Result<References, Memory>
    ensures { IfOk result (λ r. r ≡ references.now) }
{
    let mut copies = Items::new(alloc);
    for reference in references {
        copies.push(copy_reference(alloc, reference)?)?;
    }
    Ok(copies)
}

// ---- bodies

fn copy_expr(alloc: Global, expr: &CheckedExpr) -> Result<CheckedExpr, Memory>
    ensures { IfOk result (λ e. e ≡ expr.now) }
{
    match expr {
        CheckedExpr::Number(value) => Ok(CheckedExpr::Number(*value)),
        CheckedExpr::Index => Ok(CheckedExpr::Index),
        CheckedExpr::Term(place) => Ok(CheckedExpr::Term(*place)),
        CheckedExpr::Read(number) => Ok(CheckedExpr::Read(*number)),
        CheckedExpr::Negate(inner) => {
            let inner = copy_expr(alloc, inner.get())?;
            CheckedExpr::negate(alloc, inner)
        }
        CheckedExpr::Binary { op, left, right } => {
            let left = copy_expr(alloc, left.get())?;
            let right = copy_expr(alloc, right.get())?;
            CheckedExpr::join(alloc, *op, left, right)
        }
    }
}

fn copy_statement(alloc: Global, statement: &CheckedBody) -> Result<CheckedBody, Memory>
    ensures { IfOk result (λ s. s ≡ statement.now) }
{
    match statement {
        CheckedBody::Assign { target, value } => {
            let value = copy_expr(alloc, value)?;
            Ok(CheckedBody::Assign {
                target: *target,
                value,
            })
        }
        CheckedBody::Reduce {
            operator,
            target,
            value,
        } => {
            let value = copy_expr(alloc, value)?;
            Ok(CheckedBody::Reduce {
                operator: *operator,
                target: *target,
                value,
            })
        }
    }
}

fn copy_body(alloc: Global, body: &[CheckedBody]) -> Result<CheckedBodyList, Memory>
    ensures { IfOk result (λ b. b ≡ body.now) }
{
    let mut copies = Items::new(alloc);
    for statement in body {
        copies.push(copy_statement(alloc, statement)?)?;
    }
    Ok(copies)
}

// ---- a FORALL

/// An equal FORALL. Linear in its text.
pub fn copy_site(alloc: Global, site: &Site) -> Result<Site, Memory>
    ensures { IfOk result (λ s. s ≡ site.now) }
{
    Ok(Site {
        at: site.at,
        low: copy_scalar(alloc, &site.low)?,
        high: copy_scalar(alloc, &site.high)?,
        body: copy_body(alloc, site.body.as_slice())?,
        references: copy_references(alloc, site.references.as_slice())?,
        terms: copy_scalars(alloc, site.terms.as_slice())?,
    })
}
