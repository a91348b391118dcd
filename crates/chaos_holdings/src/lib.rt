//! What a node of a run has between the steps, and what the end of a phase changes of it.
//!
//! All of it is prepared first and put in place then, which takes no memory.
#![tactic(auto)]

mod effect;
mod executed;
mod first;
mod holdings;
mod kept_list;
mod moved;
mod pages;
mod session;

pub use effect::{Effect, take_effect};
pub use executed::{count_at, counted, is_latest, records_of_execution, turn_at};
pub use first::{counts_of_none, first_holdings};
pub use holdings::Holdings;
pub use kept_list::{KeptList, kept_of};
pub use moved::{elements_after, parts_after, records_of_move};
pub use pages::pages_after;
pub use session::{NodeEnd, Session};
