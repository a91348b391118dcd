//! The parser: the one program that a source's tokens spell, or their first fault.
#![tactic(auto)]

mod answer;
mod declaration;
mod depth;
mod inner;
mod program;
mod statement;

pub use answer::parse;
