//! What decides whether an inspection can be used again: how often each decomposition was moved, and
//! when each array was last changed. A FORALL's record is made of these numbers.
#![tactic(auto)]

mod compare;
mod laws;
mod record;
mod records;
mod setting;

pub use compare::must_inspect;
pub use fd_program::LoopRecord;
pub use laws::{inspections_are_known, notes_keep_the_past, records_are_exact};
pub use records::Records;
