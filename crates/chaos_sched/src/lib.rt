//! Schedules: which elements a node sends and takes at a gather and at a scatter, made from what each
//! node needs of the others and what they ask of it.
#![tactic(auto)]

mod asked;
mod asks;
mod in_order;
mod item;
mod laws;
mod local_ref;
mod need;
mod needed;
mod prepared;
mod schedule;

pub use asks::asks_of;
pub use item::{Item, ItemLists, Items};
pub use laws::schedule_laws;
pub use local_ref::{LocalRef, LocalRefs};
pub use need::{Need, Needs};
pub use prepared::Prepared;
pub use schedule::{Schedule, from_asks};
