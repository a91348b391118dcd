//! Votes: each node tells the least offence that it found, as a letter's numbers, and every node takes
//! the least of all.
#![tactic(auto)]

mod letter;
mod order;

pub use letter::{numbers_of, offence_of, vote_laws};
pub use order::least;
