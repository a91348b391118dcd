//! All that the programs do, from the words of the command line to the status; and what a `main` hands to it.
#![tactic(auto)]

mod made;
mod ready;
mod run;
mod top;
mod ways;

pub use bsp_core::Played;
pub use bsp_mail::Mail;
pub use fd_edge::words;
pub use fd_outside::{HostFiles, HostSink, OpenGate};
pub use run::run_program;
pub use top::play_program;
