//! What the head of a program declares, and its faults.
#![tactic(auto)]

mod declarations;
mod faults;
mod head;
mod names;
mod scalars;
mod scope;

pub use declarations::{array_number, as_extent, note_bad_extent};
pub use faults::Faults;
pub use head::{Head, head_facts, narrow};
pub use names::{Known, LoopNames, Meaning, Names};
pub use scalars::{constant, declared_value, not_scalar, value_known};
pub use scope::{Alignment, ArrayEntries, ArrayEntry, LayoutEntries, LayoutEntry, Scope, Tables};
