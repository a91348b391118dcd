//! The references of an inspection as local addresses and slots of a stamped table.
#![tactic(auto)]

mod entered;
mod references;

pub use entered::{Entered, EnteredList};
pub use references::localise;
