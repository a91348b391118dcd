//! How many phases can still come as a run begins, if nothing is refused: known from the program, its
//! trace and the rule for homes, without any value.
#![tactic(auto)]

mod asking;
mod count;
mod known;
mod laws;
mod noting;

pub use count::phases_of;
pub use laws::counts_are_right;
pub use noting::note_writes;
