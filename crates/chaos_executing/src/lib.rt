//! One execution of a loop on one node, after the executor of PARTI and CHAOS, in its two phases.
//!
//! As Gather begins the node sends the values that others read of its parts. Once it has the letters
//! of all nodes, it puts their values into ghosts and runs its iterations over the values before the
//! loop. As Scatter begins it sends what it assigns to the elements of others or combines into them,
//! and once it has those letters, it changes its own parts.
#![tactic(auto)]

mod counts;
mod executing;
mod ghosts;
mod laws;
mod letters;
mod rows;

pub use counts::{counts_of, gather_counts, scatter_counts};
pub use executing::{Executing, apply_contributions, execute, gather_lists, scatter_lists};
pub use laws::letters_have_counts;
