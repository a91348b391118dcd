//! What a node prepares of a loop from the rows of its own iterations: their references as local
//! addresses and slots of the stamped tables, what it asks of the others, and the schedule.
#![tactic(auto)]

mod entering;
mod entries;
mod laws;
mod needs;
mod placed;
mod placing;
mod preparing;
mod rows;

pub use entering::Entering;
pub use laws::formulas_tell_all;
pub use placing::uses_to_place;
pub use preparing::enter;
