//! The lines that follow a run's text: why it was refused, and how often each FORALL was executed and
//! inspected.
#![tactic(auto)]

mod append;
mod refusal;
mod report;

pub use refusal::refusal_line;
pub use report::report_of;
