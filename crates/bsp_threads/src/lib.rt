//! Nodes that go through phases, each on a seat of its own with its ends of the mail, driven by
//! threads.
//!
//! A drive moves one node until it is done or has long waited for a letter. All nodes are driven at
//! once, in rounds. Whatever order the threads run in, each node ends where it ends in lockstep, with
//! the same letters.
#![tactic(auto)]

mod all;
mod driving;
mod drove;
mod law;
mod places;
mod round;
mod seat;
mod standing;
mod step;

pub use all::drive_all;
pub use driving::drive;
pub use drove::{DriveFault, Drove};
pub use law::due_law;
pub use seat::{DriveSeat, Standing};
