//! The executor: what one loop computes on one node over a kept inspection. It gathers ghosts, runs the
//! node's iterations over the values before the loop, scatters what belongs to others, and only then
//! changes the node's own parts.
#![tactic(auto)]

mod applying;
mod block;
mod by_array;
mod columns;
mod gather;
mod hashed_rows;
mod iterate;
mod joining;
mod laws;
mod numbered_rows;
mod pending;
mod place;
mod pool;
mod row_lists;
mod rows;
mod scatter;
mod seat;
mod statements;
mod targets;

pub use applying::apply;
pub use gather::{gather_in, gather_out};
pub use iterate::compute;
pub use laws::{calls_are_met, loop_is_executed, run_makes_ready};
pub use pending::PendingValues;
pub use scatter::scatter_out;
