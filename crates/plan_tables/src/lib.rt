//! What of a node's stamped tables is a loop's own, and when a kept inspection fits an execution:
//! definitions over the program, the owners of elements and the values before the loop, and laws.
#![tactic(auto)]

mod laws;

pub use laws::stamp_laws;
