//! The trace of a checked program, or the first limit that the way through it passes.
#![tactic(auto)]

mod budget;
mod scalars;
mod subscripts;
mod turns;
mod way;

pub use way::unroll;
