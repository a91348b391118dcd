//! A small node that goes through phases, and a World of such nodes.
//!
//! Each node has a flag. In the first phase all tell all others their flag, so that all know whether
//! one of them is set. If so, in the second phase all tell all, and in a third all tell node 0. If none
//! is set, in the second phase all tell node 0, and there is no third.
#![tactic(auto)]

mod orders;
mod phase;
mod reading;
mod runs;
mod voter;

pub use orders::moves_of_two;
pub use runs::{finished, voter_list, voters};
pub use voter::Voter;
