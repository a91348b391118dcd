//! Particles that move between bins, on nodes that append what comes to them (light-weight schedules, as in CHAOS): the top call
//! of the program, and what a `main` hands to it.
#![tactic(auto)]

mod asked;
mod particles;
mod program;
mod running;

pub use append_node::{AppendJob, AppendNode, append_nodes, nodes_end_with_the_lines};
pub use bsp_mail::Mail;
pub use fd_edge::words;
pub use fd_outside::{HostFiles, HostSink, OpenGate};
pub use program::append_program;
