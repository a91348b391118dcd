//! Sections: loops whose references all stand at the index and an offset, in arrays with regular
//! distributions. Each node tells by formula which iterations are its own, and what the others ask of
//! it, without a letter, and goes through its own elements alone.
#![tactic(auto)]

mod asks;
mod counts;
mod homes;
mod iterations;
mod own;
mod section;
mod standing;

pub use asks::section_asks;
pub use iterations::section_iterations;
pub use section::{SectionHomes, SectionLoop, SectionReference, SectionReferences};
