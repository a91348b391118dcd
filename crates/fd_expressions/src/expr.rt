ghost use Rattle.std.specs.Prelude.{◌≡◌, ◌≤◌, length, IfOk};
ghost use Rattle.fd_syntax.specs.declared.expr.Expr.TheVariants.{Binary};
ghost use Rattle.fd_expressions.specs.Reads.{Reads};
ghost use Rattle.fd_grammar.specs.Machine.{Then, AfterName, ExprFactor, ExprTerm, WholeExpr, signed_expr};

use crate::parser::Parser;
use crate::stop::Stop;
use crate::while_some;
use fd_grammar::{Mark, Sort, opens, sign_of, sort_of, times_of};
use fd_syntax::Expr;
use fd_words::{Arith, Name, SourcePlace};
use sqlite_items::Boxed;
use std::alloc::AllocError;

impl Parser<'_> {
    /// An expression in a FORALL with this index.
    #[cycle(expr)]
    pub fn expr(&mut self, index: Name) -> Result<Expr, Stop>
        ensures shrinks { length self.new.rest.now ≤ length self.old.rest.now }
        ensures reads { Reads (WholeExpr index) (λ x k. Then (k x)) self.old.rest.now self.new.rest.now result }
    {
        let minus = self.lead();
        let first = self.expr_term(index)?;
        let mut left = self.signed_expr(minus, first)?;
        while_some!(self, token, sign_of, op => {
            let right = self.expr_term(index)?;
            left = self.binary_expr(op, left, right)?;
        });
        Ok(left)
    }

    fn signed_expr(&self, minus: Option<SourcePlace>, inner: Expr) -> Result<Expr, AllocError>
        ensures { IfOk result (λ x. x ≡ signed_expr minus inner) }
    {
        match minus {
            Some(_) => Ok(Expr::Negate(Boxed::new(self.alloc, inner)?)),
            None => Ok(inner),
        }
    }

    fn binary_expr(&self, op: Arith, left: Expr, right: Expr) -> Result<Expr, AllocError>
        ensures { IfOk result (λ x. x ≡ Binary op left right) }
    {
        Ok(Expr::Binary {
            op,
            left: Boxed::new(self.alloc, left)?,
            right: Boxed::new(self.alloc, right)?,
        })
    }

    #[cycle(expr)]
    fn expr_term(&mut self, index: Name) -> Result<Expr, Stop>
        ensures shrinks { length self.new.rest.now ≤ length self.old.rest.now }
        ensures reads { Reads (ExprTerm index) (λ x k. Then (k x)) self.old.rest.now self.new.rest.now result }
    {
        let mut left = self.expr_factor(index)?;
        while_some!(self, token, times_of, op => {
            let right = self.expr_factor(index)?;
            left = self.binary_expr(op, left, right)?;
        });
        Ok(left)
    }

    #[cycle(expr)]
    fn expr_factor(&mut self, index: Name) -> Result<Expr, Stop>
        ensures shrinks { length self.new.rest.now ≤ length self.old.rest.now }
        ensures reads { Reads (ExprFactor index) (λ x k. Then (k x)) self.old.rest.now self.new.rest.now result }
    {
        let [token, rest @ ..] = self.rest else {
            return Err(Stop::Wrong);
        };
        match sort_of(token.kind) {
            Sort::Numbered(value) => {
                self.rest = rest;
                Ok(Expr::Number(value))
            }
            Sort::Named(name) => {
                self.rest = rest;
                let expr = self.after_name(index, name, token.at)?;
                Ok(expr)
            }
            Sort::Open => {
                self.rest = rest;
                let inner = self.expr(index)?;
                self.want(Mark::Close)?;
                Ok(inner)
            }
            _ => Err(Stop::Wrong),
        }
    }

    /// An element, or a name alone.
    fn after_name(&mut self, index: Name, name: Name, at: SourcePlace) -> Result<Expr, Stop>
        ensures shrinks { length self.new.rest.now ≤ length self.old.rest.now }
        ensures reads { Reads (λ k. Then (AfterName index name at k)) (λ x k. Then (k x)) self.old.rest.now self.new.rest.now result }
    {
        match self.rest {
            [token, rest @ ..] if opens(sort_of(token.kind)) => {
                self.rest = rest;
                let element = self.in_element(index, name, at)?;
                Ok(Expr::Read(element))
            }
            _ => Ok(Expr::Named { name, at }),
        }
    }
}
