//! The engine that runs a session: the parts of a store on its nodes, and the nodes in turns or all at
//! once.
#![tactic(auto)]

mod counts;
mod pieces;
mod threads;
mod turns;

pub use pieces::{PieceList, split};
pub use threads::run_threads;
pub use turns::{EngineEnd, Order, run_turns, world_of};
