//! The phase that a node of a run enters: the next stage of a step, the first of the next step with
//! phases, or an array of OUTPUT.
#![tactic(auto)]

mod activity;
mod ahead;
mod enter_prints;
mod entered;
mod entering;
mod found;
mod groups;
mod loops;
mod sizes;

pub use activity::{Activity, At};
pub use enter_prints::{enter_end, enter_output};
pub use entered::Entered;
pub use entering::enter_next;
pub use loops::{enter_gather, enter_inspection, enter_move, enter_scatter};
