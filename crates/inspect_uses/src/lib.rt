//! The references of an iteration as a node evaluates them, and where the elements that they reach stand.
#![tactic(auto)]

mod evaluate;
mod laws;
mod places;

pub use evaluate::{given, given_first, known, uses};
pub use laws::{known_laws, place_laws, reached_laws};
pub use places::{layout_of, place_by_formula, stands_at};
