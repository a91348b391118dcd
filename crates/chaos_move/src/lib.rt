//! Values that move between nodes: packed into letters by the items of a schedule, and put in place
//! from letters.
#![tactic(auto)]

mod apply;
mod incoming;
mod laws;
mod operators;
mod outgoing;
mod rows;
mod undo;

pub use apply::apply_combined;
pub use incoming::unpack;
pub use laws::move_laws;
pub use operators::{Operators, change, operator_of};
pub use outgoing::{pack, pack_combined};
pub use undo::{Kept, Undo};
