//! Recursive coordinate bisection on nodes (after Berger and Bokhari, as the partitioners of CHAOS have it): the top call of the
//! program, what a `main` hands to it, and the nodes of a job.
#![tactic(auto)]

mod asked;
mod columns;
mod program;
mod running;

pub use bisect_node::{BisectNode, Job, bisect_nodes};
pub use bsp_mail::Mail;
pub use fd_edge::words;
pub use fd_outside::{HostFiles, HostSink, OpenGate};
pub use program::bisect_program;
