//! The phases of one execution of a loop, the letters of each, and when a kept inspection fits an
//! execution: definitions over the program, the owners of elements and the values before the loop.
#![tactic(auto)]

mod loop_phase;

pub use loop_phase::{Asking, Level, LoopPhase};
