//! What a node asks of the others: the elements of a stamped table for each owner.
#![tactic(auto)]

mod owners;

pub use owners::{beyond, merged};
