//! A program whose trace has no fault keeps to the limits of a run.
#![tactic(auto)]

mod laws;

pub use laws::unrolled_is_within;
