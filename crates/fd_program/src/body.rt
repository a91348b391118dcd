ghost use Rattle.std.specs.Prelude.{◌≡◌, IfOk};
ghost use Rattle.fd_program.specs.Homes.{first_target as first_target_of};

use fd_words::{Arith, Combine, Memory};
use sqlite_items::{Boxed, Items};
use std::alloc::Global;

/// An expression in the body of a FORALL. `Index` is the index of the FORALL, `Term` a scalar name by its
/// place, from 0, among those of the FORALL, and `Read` a reference by its number, from 1.
#[derive(Drop)]
pub enum CheckedExpr {
    Number(i64),
    Index,
    Term(u32),
    Read(u32),
    Negate(Boxed<CheckedExpr>),
    Binary {
        op: Arith,
        left: Boxed<CheckedExpr>,
        right: Boxed<CheckedExpr>,
    },
}

impl CheckedExpr {
    /// The expression with the other sign.
    pub fn negate(alloc: Global, inner: CheckedExpr) -> Result<CheckedExpr, Memory>
        ensures { IfOk result (λ e. e ≡ CheckedExpr.Negate inner) }
    {
        let inner = Boxed::new(alloc, inner)?;
        Ok(CheckedExpr::Negate(inner))
    }

    /// Two expressions under an operator.
    pub fn join(
        alloc: Global,
        op: Arith,
        left: CheckedExpr,
        right: CheckedExpr,
    ) -> Result<CheckedExpr, Memory>
        ensures { IfOk result (λ e. e ≡ CheckedExpr.Binary op left right) }
    {
        let left = Boxed::new(alloc, left)?;
        let right = Boxed::new(alloc, right)?;
        Ok(CheckedExpr::Binary { op, left, right })
    }
}

/// A statement in the body of a FORALL. The target is a reference by its number, from 1.
#[derive(Drop)]
pub enum CheckedBody {
    Assign {
        target: u32,
        value: CheckedExpr,
    },
    Reduce {
        operator: Combine,
        target: u32,
        value: CheckedExpr,
    },
}

/// The statements of a FORALL in order.
pub type CheckedBodyList = Items<CheckedBody>;

/// The reference number of the first statement's target; 0 where there is no statement.
pub fn first_target(body: &[CheckedBody]) -> u32
    ensures { result ≡ first_target_of body.now }
{
    match body.first() {
        Some(CheckedBody::Assign { target, value: _ }) => *target,
        Some(
            CheckedBody::Reduce {
                operator: _,
                target,
                value: _,
            },
        ) => *target,
        None => 0,
    }
}
