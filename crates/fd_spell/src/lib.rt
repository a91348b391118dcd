//! How a word of a command line spells a number or the name of a file.
#![tactic(auto)]

mod digits;
mod word;

pub use digits::number;
pub use word::is_name;
