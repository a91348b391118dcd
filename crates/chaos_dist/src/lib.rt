//! Regular distributions: which node holds an element, and where, by formula.
//!
//! The elements of a decomposition are numbered from 1, nodes and local addresses from 0. On each node
//! the elements stand in ascending order, and the local address of an element is the number of smaller
//! elements on the same node.
#![tactic(auto)]

mod counts;
mod regular;
mod shape;
mod step_form;

pub use counts::{MOST_NODES, tally};
pub use regular::{Regular, layout_laws};
pub use shape::Shape;
pub use step_form::StepForm;
