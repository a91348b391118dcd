//! Recursive coordinate bisection: definitions and laws, and what decides a cut.
#![tactic(auto)]

mod choices;
mod keys;
pub mod laws;
pub mod worked;

pub use choices::{Extent, extent_on, next_found, wider};
pub use keys::key;
