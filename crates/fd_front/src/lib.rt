//! The front end: from the text of a source to the program that it is, or to its first fault and the line that
//! says so.
#![tactic(auto)]

mod line;
mod source;

pub use line::fault_line;
pub use source::{Source, read_source};
