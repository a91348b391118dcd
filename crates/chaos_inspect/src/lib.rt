//! The inspection of a FORALL on one node, phase by phase: the values of index arrays are fetched, the
//! nodes vote whether a subscript is out of range, iterations go to their homes, and their references are
//! prepared there. Index arrays that are read through another are fetched in a second round, once the first
//! have given their values. Where arrays have a map layout, places are first asked for of the nodes that keep its
//! pages: those of index references, of the references that tell homes, and of all others.
#![tactic(auto)]

mod dealing;
mod homes;
mod index;
mod inspection;
mod laws;
mod range;
mod round;
mod spot;
mod stage;
mod votes;
mod weave;

pub use inspection::Inspection;
pub use laws::phases_follow;
pub use spot::{Spot, Spots};
pub use stage::Stage;
