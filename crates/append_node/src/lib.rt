//! Particles that move between bins on several nodes: in each step every node hands on those particles whose
//! bin another node owns. The receiver appends them as they come (light-weight schedules, as in CHAOS).
#![tactic(auto)]

mod begin;
mod dealing;
mod job;
mod lines;
mod node;
mod nodes;
mod pairs;
mod parts;

pub use job::AppendJob;
pub use node::AppendNode;
pub use nodes::{append_nodes, nodes_end_with_the_lines};
