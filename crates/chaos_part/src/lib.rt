//! The homes of iterations: the node that inspects an iteration first, and the node that executes it.
#![tactic(auto)]

mod home;
mod provisional;

pub use home::{home_by_most, home_by_owner};
pub use provisional::provisional_home;
