ghost use Rattle.std.specs.Prelude.{◌≡◌, ◌≤◌, length};
ghost use Rattle.fd_expressions.specs.Reads.{Reads};
ghost use Rattle.fd_grammar.specs.Machine.{State, wanted, Take, AnyName, SameName};

use crate::stop::Stop;
use crate::take::take_if;
use fd_grammar::{Fixed, Mark, is_word, name_of, sort_of};
use fd_lexer::Token;
use fd_syntax::Listed;
use fd_words::Name;
use std::alloc::Global;

/// The tokens that are still to be read. After a fault they begin with it.
#[derive(Drop)]
pub struct Parser<'a> {
    pub alloc: Global,
    pub rest: &'a [Token],
}

impl Parser<'_> {
    /// This mark alone.
    pub fn want(&mut self, mark: Mark) -> Result<(), Stop>
        ensures shrinks { length self.new.rest.now ≤ length self.old.rest.now }
        ensures reads { Reads (wanted mark) (λ _ s. s) self.old.rest.now self.new.rest.now result }
    {
        take_if!(self, token, mark.is(sort_of(token.kind)))
    }

    /// This word, sign or number alone.
    pub fn take(&mut self, fixed: Fixed) -> Result<(), Stop>
        ensures shrinks { length self.new.rest.now ≤ length self.old.rest.now }
        ensures reads { Reads (Take fixed) (λ _ s. s) self.old.rest.now self.new.rest.now result }
    {
        take_if!(self, token, fixed.is(sort_of(token.kind)))
    }

    /// Any name, with its place.
    pub fn name(&mut self) -> Result<Listed, Stop>
        ensures shrinks { length self.new.rest.now ≤ length self.old.rest.now }
        ensures reads { Reads AnyName (λ n k. k n) self.old.rest.now self.new.rest.now result }
    {
        let [token, rest @ ..] = self.rest else {
            return Err(Stop::Wrong);
        };
        let Some(name) = name_of(sort_of(token.kind)) else {
            return Err(Stop::Wrong);
        };
        self.rest = rest;
        Ok(Listed { name, at: token.at })
    }

    /// This name alone.
    pub fn same_name(&mut self, name: Name) -> Result<(), Stop>
        ensures shrinks { length self.new.rest.now ≤ length self.old.rest.now }
        ensures reads { Reads (SameName name) (λ _ s. s) self.old.rest.now self.new.rest.now result }
    {
        take_if!(self, token, is_word(token.kind, name))
    }
}
