//! All that a node knows of an execution of a FORALL before its first phase, from the program and the
//! forms that its records have; and copies of it.
#![tactic(auto)]

mod copies;
mod facts;
mod laws;

pub use copies::copy_site;
pub use facts::{copy_facts, copy_turn, facts_of};
pub use laws::{facts_are_known, run_has_owners};
