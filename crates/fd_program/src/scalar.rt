ghost use Rattle.std.specs.Prelude.{◌≡◌, IfOk};

use fd_words::{Arith, Memory, SourcePlace};
use sqlite_items::{Boxed, Items};
use std::alloc::Global;

/// A scalar expression with its names resolved. A constant is its value; a variable is that of the DO
/// with `depth` DOs around it. An operator has the place of its sign.
#[derive(Drop)]
pub enum CheckedScalar {
    Number {
        value: i64,
        at: SourcePlace,
    },
    Variable {
        depth: u32,
        at: SourcePlace,
    },
    Negate {
        at: SourcePlace,
        inner: Boxed<CheckedScalar>,
    },
    Binary {
        op: Arith,
        at: SourcePlace,
        left: Boxed<CheckedScalar>,
        right: Boxed<CheckedScalar>,
    },
}

impl CheckedScalar {
    /// The scalar with the other sign.
    pub fn negate(
        alloc: Global,
        at: SourcePlace,
        inner: CheckedScalar,
    ) -> Result<CheckedScalar, Memory>
        ensures { IfOk result (λ s. s ≡ CheckedScalar.Negate at inner) }
    {
        let inner = Boxed::new(alloc, inner)?;
        Ok(CheckedScalar::Negate { at, inner })
    }

    /// Two scalars under an operator.
    pub fn join(
        alloc: Global,
        op: Arith,
        at: SourcePlace,
        left: CheckedScalar,
        right: CheckedScalar,
    ) -> Result<CheckedScalar, Memory>
        ensures { IfOk result (λ s. s ≡ CheckedScalar.Binary op at left right) }
    {
        let left = Boxed::new(alloc, left)?;
        let right = Boxed::new(alloc, right)?;
        Ok(CheckedScalar::Binary {
            op,
            at,
            left,
            right,
        })
    }
}

/// Scalars in the order of the text.
pub type CheckedScalars = Items<CheckedScalar>;

/// A term of an offset, with its sign.
#[derive(Drop)]
pub struct CheckedTerm {
    pub minus: bool,
    pub at: SourcePlace,
    pub scalar: CheckedScalar,
}

/// The terms of an offset in order; none where there is no offset.
pub type CheckedTerms = Items<CheckedTerm>;
