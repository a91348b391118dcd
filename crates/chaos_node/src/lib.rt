//! A node of a session: it goes through the phases of a program.
//!
//! At the end of a phase the node prepares all that changes, and only then puts it in place, so that where
//! memory is wanting nothing has changed.
#![tactic(auto)]

mod change;
mod commit;
mod executions;
mod inspections;
mod laws;
mod moves;
mod node;
mod phased;
mod prints;
mod scatters;
mod starting;

pub use laws::nodes_end_with_the_run;
pub use node::Node;
