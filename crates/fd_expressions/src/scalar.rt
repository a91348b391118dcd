ghost use Rattle.std.specs.Prelude.{◌≡◌, ◌≤◌, ℕ, List, length, IfOk};
ghost use Rattle.fd_syntax.specs.declared.scalar.Scalar.{Scalar};
ghost use Rattle.fd_syntax.specs.declared.scalar.Scalar.TheVariants.{Binary};
ghost use Rattle.fd_syntax.specs.declared.expr.Expr.{Expr};
ghost use Rattle.fd_expressions.specs.Reads.{Reads};
ghost use Rattle.fd_grammar.specs.Machine.{State, Calm, run, Then, ScalarFactor, ScalarTerm, WholeScalar, PlacedScalar, SignedScalar};
ghost use Rattle.fd_grammar.specs.Machine.{WholeExpr, SignedExpr, MoreScalarFactors, MoreScalarTerms, MoreOffset, Offset, signed};

use crate::parser::Parser;
use crate::stop::Stop;
use crate::while_some;
use fd_grammar::{Mark, Sort, sign_of, sort_of, times_of};
use fd_syntax::Scalar;
use fd_words::{Arith, SourcePlace};
use sqlite_items::Boxed;
use std::alloc::AllocError;

/// Goes on behind a first operand with operators and their operands.
macro_rules! operators {
    ($parser:ident, $first:ident, $operator_of:ident, $operand:ident) => {{
        let mut left = $first;
        while_some!($parser, token, $operator_of, op => {
            let right = $parser.$operand()?;
            left = $parser.binary(op, token.at, left, right)?;
        });
        Ok(left)
    }};
}

impl Parser<'_> {
    #[cycle(scalar)]
    pub fn scalar(&mut self) -> Result<Scalar, Stop>
        ensures shrinks { length self.new.rest.now ≤ length self.old.rest.now }
        ensures reads { Reads WholeScalar (λ x k. Then (k x)) self.old.rest.now self.new.rest.now result }
    {
        let minus = self.lead();
        let first = self.scalar_term()?;
        let left = self.signed(minus, first)?;
        let all = self.more_scalar_terms(left)?;
        Ok(all)
    }

    /// Takes a leading sign, and tells where a minus was.
    pub(crate) fn lead(&mut self) -> Option<SourcePlace>
        ensures shrinks { length self.new.rest.now ≤ length self.old.rest.now }
        ensures scalar { (k : Scalar → Calm) → run self.old.rest.now (WholeScalar k) ≡ run self.new.rest.now (SignedScalar k result) }
        ensures expr { (index : List ℕ) (k : Expr → Calm) → run self.old.rest.now (WholeExpr index k) ≡ run self.new.rest.now
            (SignedExpr index k result) }
    {
        let [token, rest @ ..] = self.rest else {
            return None;
        };
        match sign_of(sort_of(token.kind)) {
            Some(Arith::Minus) => {
                self.rest = rest;
                Some(token.at)
            }
            Some(_) => {
                self.rest = rest;
                None
            }
            None => None,
        }
    }

    fn signed(&self, minus: Option<SourcePlace>, inner: Scalar) -> Result<Scalar, AllocError>
        ensures { IfOk result (λ x. x ≡ signed minus inner) }
    {
        match minus {
            Some(at) => Ok(Scalar::Negate {
                at,
                inner: Boxed::new(self.alloc, inner)?,
            }),
            None => Ok(inner),
        }
    }

    fn binary(
        &self,
        op: Arith,
        at: SourcePlace,
        left: Scalar,
        right: Scalar,
    ) -> Result<Scalar, AllocError>
        ensures { IfOk result (λ x. x ≡ Binary op at left right) }
    {
        Ok(Scalar::Binary {
            op,
            at,
            left: Boxed::new(self.alloc, left)?,
            right: Boxed::new(self.alloc, right)?,
        })
    }

    #[cycle(scalar)]
    pub(crate) fn scalar_term(&mut self) -> Result<Scalar, Stop>
        ensures shrinks { length self.new.rest.now ≤ length self.old.rest.now }
        ensures reads { Reads ScalarTerm (λ x k. Then (k x)) self.old.rest.now self.new.rest.now result }
    {
        let first = self.scalar_factor()?;
        let all = self.more_scalar_factors(first)?;
        Ok(all)
    }

    #[cycle(scalar)]
    fn scalar_factor(&mut self) -> Result<Scalar, Stop>
        ensures shrinks { length self.new.rest.now ≤ length self.old.rest.now }
        ensures reads { Reads ScalarFactor (λ x k. Then (k x)) self.old.rest.now self.new.rest.now result }
    {
        let [token, rest @ ..] = self.rest else {
            return Err(Stop::Wrong);
        };
        match sort_of(token.kind) {
            Sort::Numbered(value) => {
                self.rest = rest;
                Ok(Scalar::Number {
                    value,
                    at: token.at,
                })
            }
            Sort::Named(name) => {
                self.rest = rest;
                Ok(Scalar::Named { name, at: token.at })
            }
            Sort::Open => {
                self.rest = rest;
                let inner = self.scalar()?;
                self.want(Mark::Close)?;
                Ok(inner)
            }
            _ => Err(Stop::Wrong),
        }
    }

    /// Goes on behind terms.
    #[cycle(scalar)]
    pub(crate) fn more_scalar_terms(&mut self, first: Scalar) -> Result<Scalar, Stop>
        ensures shrinks { length self.new.rest.now ≤ length self.old.rest.now }
        ensures reads { Reads (λ k. Then (MoreScalarTerms first k)) (λ x k. Then (k x)) self.old.rest.now self.new.rest.now result }
    {
        operators!(self, first, sign_of, scalar_term)
    }

    /// Goes on behind factors.
    #[cycle(scalar)]
    pub(crate) fn more_scalar_factors(&mut self, first: Scalar) -> Result<Scalar, Stop>
        ensures shrinks { length self.new.rest.now ≤ length self.old.rest.now }
        ensures reads { Reads (λ k. Then (MoreScalarFactors first k)) (λ x k. Then (k x)) self.old.rest.now self.new.rest.now result }
    {
        operators!(self, first, times_of, scalar_factor)
    }

    /// A scalar, and the place of its first token.
    pub fn placed_scalar(&mut self) -> Result<(SourcePlace, Scalar), Stop>
        ensures shrinks { length self.new.rest.now ≤ length self.old.rest.now }
        ensures reads { Reads PlacedScalar (λ x k. Then (k x.0 x.1)) self.old.rest.now self.new.rest.now result }
    {
        let at = self.place()?;
        let scalar = self.scalar()?;
        Ok((at, scalar))
    }

    /// The place of the next token.
    fn place(&self) -> Result<SourcePlace, Stop>
        ensures { Reads PlacedScalar (λ at k. WholeScalar (k at)) self.now.rest.now self.now.rest.now result }
    {
        match self.rest {
            [token, ..] => Ok(token.at),
            [] => Err(Stop::Wrong),
        }
    }
}
