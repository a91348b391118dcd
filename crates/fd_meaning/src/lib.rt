//! The plain evaluator: it runs a program step by step on one machine, and gives its text.
#![tactic(auto)]

mod change;
mod elements;
mod loops;
mod offences;
mod range;
mod run;
mod step;
mod uses;
mod values;

pub use run::{PlainEnd, run_plain};
