//! A program with its names resolved, and its references and stamps numbered, or its first fault.
#![tactic(auto)]

mod answer;
mod statements;
mod walk;

pub use answer::check;
