//! The body of a FORALL: its references and stamps, its statements, and their faults.
#![tactic(auto)]

mod body;
mod draft;
mod elements;
mod exprs;

pub use body::loop_body;
pub use draft::{Draft, Stamped, StampedList, Target, TargetList, UsedStamps};
