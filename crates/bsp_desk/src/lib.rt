//! The face of a node: what it sends, takes and has taken in a phase. Any node that goes through phases
//! can have a desk for it, and tell in its own words only what it knows beside.
//!
//! A phase in which each node sends to some others what these take is a round. Where all phases of a plan
//! are rounds, its rows meet and fall, and the letters of each pair are those of the rounds, in their order.
#![tactic(auto)]

mod builds;
mod desk;
mod laws;
mod way;

pub use builds::{due_of, each_out, no_phase, out_of, phase_of, same_phase};
pub use desk::{Desk, Phase};
pub use laws::{over_meets, rounds_come_in, rounds_meet, uniform_laws};
pub use way::Way;
