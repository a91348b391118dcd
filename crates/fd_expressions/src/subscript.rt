ghost use Rattle.std.specs.Prelude.{◌≡◌, ◌≤◌, ℕ, List, length, Err};
ghost use Rattle.fd_words.specs.declared.source.SourcePlace.{SourcePlace};
ghost use Rattle.fd_syntax.specs.declared.expr.Subscript.{Subscript};
ghost use Rattle.fd_syntax.specs.declared.statement.Form.{Form};
ghost use Rattle.fd_expressions.specs.Reads.{Reads};
ghost use Rattle.fd_expressions.specs.Begun.{BegunSubscript, BegunIndexed, OpenedSubscript, OpenedCyclic};
ghost use Rattle.fd_expressions.specs.declared.subscript.Start.TheVariants as start;
ghost use Rattle.fd_grammar.specs.Machine.{Calm, run, Then, InSubscript, InIndexed, ThroughRest, TwiceRest, AfterSubscriptName};
ghost use Rattle.fd_grammar.specs.Machine.{AfterCyclic};
ghost use Rattle.fd_grammar.specs.Machine.{Offset, InElement, term_of};

use crate::parser::Parser;
use crate::stop::Stop;
use crate::while_some;
use fd_grammar::{Fixed, Mark, is_word, name_of, opens, sign_of, sort_of};
use fd_syntax::{Element, Scalar, Subscript, Term, Terms};
use fd_words::{Arith, Name, SourcePlace};
use sqlite_items::Items;

/// What a subscript begins with: the index, another name, or something else, which isn't taken.
#[derive(Clone, Copy)]
enum Start {
    Index,
    Named(Name, SourcePlace),
    Other,
}

impl Parser<'_> {
    /// Signed terms, or none.
    pub fn offset(&mut self) -> Result<Terms, Stop>
        ensures shrinks { length self.new.rest.now ≤ length self.old.rest.now }
        ensures reads { Reads (λ k. Then (Offset k)) (λ x k. Then (k x)) self.old.rest.now self.new.rest.now result }
    {
        let mut terms = Items::new(self.alloc);
        while_some!(self, token, sign_of, op => {
            let scalar = self.scalar_term()?;
            terms.push(term(op, token.at, scalar))?;
        });
        Ok(terms)
    }

    /// A subscript in a FORALL with this index.
    fn subscript(&mut self, index: Name) -> Result<Subscript, Stop>
        ensures shrinks { length self.new.rest.now ≤ length self.old.rest.now }
        ensures reads { Reads (InSubscript index) (λ x k. Then (k x)) self.old.rest.now self.new.rest.now result }
    {
        match self.begin_subscript(index) {
            Start::Index => {
                let add = self.offset()?;
                Ok(Subscript::Plain { add })
            }
            Start::Named(name, at) => {
                let subscript = self.after_subscript_name(index, name, at)?;
                Ok(subscript)
            }
            Start::Other => {
                let scalar = self.scalar()?;
                Ok(Subscript::Scalar(scalar))
            }
        }
    }

    /// Takes a name.
    fn begin_subscript(&mut self, index: Name) -> Start
        ensures shrinks { length self.new.rest.now ≤ length self.old.rest.now }
        ensures reads { (k : Subscript → Calm) → run self.old.rest.now (InSubscript index k) ≡ run self.new.rest.now
            (BegunSubscript index result k) }
    {
        let [token, rest @ ..] = self.rest else {
            return Start::Other;
        };
        if is_word(token.kind, index) {
            self.rest = rest;
            return Start::Index;
        }
        match name_of(sort_of(token.kind)) {
            Some(name) => {
                self.rest = rest;
                Start::Named(name, token.at)
            }
            None => Start::Other,
        }
    }

    /// A subscript that began with a name other than the index.
    fn after_subscript_name(
        &mut self,
        index: Name,
        name: Name,
        at: SourcePlace,
    ) -> Result<Subscript, Stop>
        ensures shrinks { length self.new.rest.now ≤ length self.old.rest.now }
        ensures reads { Reads (λ k. Then (AfterSubscriptName index name at k)) (λ x k. Then (k x)) self.old.rest.now self.new.rest.now
            result }
    {
        if self.opened() {
            let subscript = self.indexed(index, name, at)?;
            Ok(subscript)
        } else {
            let term = self.more_scalar_factors(Scalar::Named { name, at })?;
            let scalar = self.more_scalar_terms(term)?;
            Ok(Subscript::Scalar(scalar))
        }
    }

    /// Takes an opening parenthesis, if one follows.
    pub fn opened(&mut self) -> bool
        ensures shrinks { length self.new.rest.now ≤ length self.old.rest.now }
        ensures subscript { (index name : List ℕ) (at : SourcePlace) (k : Subscript → Calm)
            → run self.old.rest.now (Then (AfterSubscriptName index name at k)) ≡ run self.new.rest.now
            (OpenedSubscript result index name at k) }
        ensures cyclic { (k : Form → Calm) → run self.old.rest.now (Then (AfterCyclic k)) ≡ run self.new.rest.now (OpenedCyclic result k) }
    {
        match self.rest {
            [token, rest @ ..] if opens(sort_of(token.kind)) => {
                self.rest = rest;
                true
            }
            _ => false,
        }
    }

    /// Takes the index, or another name.
    fn begin_indexed(&mut self, index: Name) -> Start
        ensures shrinks { length self.new.rest.now ≤ length self.old.rest.now }
        ensures reads { (name : List ℕ) (at : SourcePlace) (k : Subscript → Calm)
            → run self.old.rest.now (InIndexed index name at k) ≡ run self.new.rest.now (BegunIndexed index name at result k) }
        ensures wrong { result ≡ start.Other → (name : List ℕ) (at : SourcePlace) (k : Subscript → Calm)
            → run self.old.rest.now (InIndexed index name at k) ≡ Err self.new.rest.now }
    {
        let [token, rest @ ..] = self.rest else {
            return Start::Other;
        };
        if is_word(token.kind, index) {
            self.rest = rest;
            return Start::Index;
        }
        match name_of(sort_of(token.kind)) {
            Some(name) => {
                self.rest = rest;
                Start::Named(name, token.at)
            }
            None => Start::Other,
        }
    }

    /// What stands in the parenthesis of a subscript through index arrays, and what is added behind it.
    fn indexed(&mut self, index: Name, name: Name, at: SourcePlace) -> Result<Subscript, Stop>
        ensures shrinks { length self.new.rest.now ≤ length self.old.rest.now }
        ensures reads { Reads (InIndexed index name at) (λ x k. Then (k x)) self.old.rest.now self.new.rest.now result }
    {
        match self.begin_indexed(index) {
            Start::Index => {
                let subscript = self.through(name, at)?;
                Ok(subscript)
            }
            Start::Named(inner, inner_at) => {
                let subscript = self.twice(index, name, inner, at, inner_at)?;
                Ok(subscript)
            }
            Start::Other => Err(Stop::Wrong),
        }
    }

    /// The rest of a subscript through two index arrays, behind the second name.
    fn twice(
        &mut self,
        index: Name,
        outer: Name,
        inner: Name,
        at: SourcePlace,
        inner_at: SourcePlace,
    ) -> Result<Subscript, Stop>
        ensures shrinks { length self.new.rest.now ≤ length self.old.rest.now }
        ensures reads { Reads (TwiceRest index outer inner at inner_at) (λ x k. Then (k x)) self.old.rest.now self.new.rest.now result }
    {
        self.take(Fixed::Open)?;
        self.same_name(index)?;
        let first_add = self.offset()?;
        self.want(Mark::Close)?;
        let second_add = self.offset()?;
        self.want(Mark::Close)?;
        let add = self.offset()?;
        Ok(Subscript::Twice {
            outer,
            at,
            inner,
            inner_at,
            first_add,
            second_add,
            add,
        })
    }

    /// The rest of a subscript through an index array, behind the index.
    fn through(&mut self, name: Name, at: SourcePlace) -> Result<Subscript, Stop>
        ensures shrinks { length self.new.rest.now ≤ length self.old.rest.now }
        ensures reads { Reads (ThroughRest name at) (λ x k. Then (k x)) self.old.rest.now self.new.rest.now result }
    {
        let inner_add = self.offset()?;
        self.want(Mark::Close)?;
        let add = self.offset()?;
        Ok(Subscript::Through {
            index_array: name,
            at,
            inner_add,
            add,
        })
    }

    /// The rest of an element in a FORALL with this index, behind its name and parenthesis.
    pub fn in_element(&mut self, index: Name, name: Name, at: SourcePlace) -> Result<Element, Stop>
        ensures shrinks { length self.new.rest.now ≤ length self.old.rest.now }
        ensures reads { Reads (InElement index name at) (λ x k. k x) self.old.rest.now self.new.rest.now result }
    {
        let subscript = self.subscript(index)?;
        self.want(Mark::Close)?;
        Ok(Element {
            name,
            at,
            subscript,
        })
    }
}

/// A term of an offset behind this sign.
fn term(op: Arith, at: SourcePlace, scalar: Scalar) -> Term
    ensures { result ≡ term_of op at scalar }
{
    let minus = match op {
        Arith::Minus => true,
        _ => false,
    };
    Term { minus, at, scalar }
}
