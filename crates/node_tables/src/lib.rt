//! The stamped tables of a node, one for each decomposition.
#![tactic(auto)]

mod table_set;

pub use table_set::TableSet;
