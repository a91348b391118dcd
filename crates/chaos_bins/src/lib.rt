//! Particles that move between bins, and what nodes hand on to each other of them: definitions and laws, a step, and
//! particles dealt out to nodes.
#![tactic(auto)]

mod dealing;
pub mod laws;
mod stage;
mod stepping;
pub mod worked;

pub use dealing::{at, deal, deal_first};
pub use stage::Stage;
pub use stepping::step;
