//! Remapping: the values of a decomposition's arrays move to the nodes that own them under a new layout.
#![tactic(auto)]

mod laws;
mod numbers;
mod pack;
mod place;
mod plan;
mod rows;

pub use laws::remap_laws;
pub use pack::pack_remap;
pub use place::{Remapped, place_remap};
pub use plan::plan_remap;
