//! Names, scalars and subscripts of statements: resolved, and the names in them that aren't known.
#![tactic(auto)]

mod around;
mod made;
mod marking;
mod marks;
mod names;
mod scalars;
mod subscripts;

pub use around::Around;
pub use made::Made;
pub use marking::marks_of;
pub use marks::{Mark, Marks};
pub use names::{array_named, array_or_zero, note_array, note_name, resolve_name, same_name};
pub use scalars::{note_scalar, resolve};
pub use subscripts::{note_subscript, resolve_offset, resolve_subscript};
