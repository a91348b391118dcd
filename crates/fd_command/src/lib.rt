//! The words behind the program's name: what they ask for, and which are not taken.
//!
//! `clap` reads the words. What it takes and the program doesn't is refused here, and the contract of
//! `requested` is the plain reading of the words from left to right.
#![tactic(auto)]

mod command;
mod request;

pub use request::{Iterations, Manner, Origin, Refused, Request, Turns, requested};
