//! Conflicts: what nodes tell each other of the elements that iterations claim, and the least two iterations that claim
//! one element.
#![tactic(auto)]

mod claim;
mod claiming;
mod conflict;
mod laws;
mod least;
mod letter;
mod order;
mod reading;
mod row;

pub use claim::{Claim, Claims};
pub use claiming::claims_of;
pub use conflict::Conflict;
pub use laws::conflict_laws;
pub use least::least_conflict;
pub use letter::{clash_numbers, clash_of};
pub use order::least_clash;
