//! Laws: what `chaos_section` tells of a loop by formula is what the loop's facts and owners say.
#![tactic(auto)]

mod laws;

pub use laws::section_laws;
