//! Places of elements by asking the nodes that keep their pages: each node is asked for the elements of
//! its page in order, and the answers are put together in the order of asking.
#![tactic(auto)]

mod answers;
mod asks;
mod joined;
mod laws;

pub use answers::{answer, append_place, place_of};
pub use asks::split_asks;
pub use joined::join_answers;
pub use laws::asking_laws;
