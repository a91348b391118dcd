//! Stamped tables: the elements of other nodes that references reach. Each has an entry with its place,
//! the stamps of the references that reach it, and a slot, its place in the lists of ghosts. Entries
//! are found by a hash of the element, and slots are used again.
#![tactic(auto)]

mod held;
mod pool;
mod stamp_table;
mod table;

pub use held::{Held, HeldList};
pub use stamp_table::{StampTable, stamps_stay};
