//! Letters between nodes, and what a node wants of the next letter that it takes.
#![tactic(auto)]

mod kind;
mod letter;
mod letter_lists;
mod letters;
mod wanted;

pub use kind::Kind;
pub use letter::Letter;
pub use letter_lists::LetterLists;
pub use letters::Letters;
pub use wanted::Wanted;
