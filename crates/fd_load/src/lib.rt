//! The store before a run: each array that is read has the numbers of its data file, all others are 0.
#![tactic(auto)]

mod file;
mod store;

pub use file::file_name;
pub use store::{LoadStop, array_at, load};
