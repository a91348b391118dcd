//! What a step of a run begins with on one node: an array to print, a decomposition to move, a FORALL to
//! inspect, or one whose inspection is kept.
#![tactic(auto)]

mod begun;
mod between;
mod laws;
mod loops;
mod moves;
mod share;

pub use begun::{Begun, begin};
pub use between::Between;
pub use laws::{kept_are_latest, stages_are_begun};
