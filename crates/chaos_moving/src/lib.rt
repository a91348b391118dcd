//! A decomposition moved to new owners, as one node does it.
//!
//! A node begins with what it has of the decomposition, sends and takes one list of numbers per node in
//! each stage, its own list among them, and ends with what it has under the new owners.
#![tactic(auto)]

mod asks;
mod copies;
mod counts;
mod laws;
mod moving;
mod pairs;
mod regular;
mod remap;
mod share;

pub use laws::moves_are_of_run;
pub use moving::{Moved, Moving, MovingStage};
pub use share::Share;
