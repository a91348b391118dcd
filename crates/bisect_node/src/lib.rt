//! Recursive coordinate bisection over nodes: each node holds the coordinates of its block of elements, and
//! all of them find the parts of all elements together, after Berger and Bokhari and the partitioners of CHAOS.
//!
//! A level cuts all regions of more than one part. First the nodes tell one another the least and the greatest
//! coordinate that they have on each axis of each region. So all know the axis of each cut. Then the key at
//! which a region is cut is found bit by bit, from how many keys each node has below a candidate. At the end
//! node 0 is told the part of each element, and writes them.
#![tactic(auto)]

mod cuts;
mod founds;
mod job;
pub mod laws;
mod node;
mod nodes;
mod numbers;
mod phase;
mod pieces;
mod printing;
mod spread;
mod stage;
mod work;

pub use job::Job;
pub use node::BisectNode;
pub use nodes::bisect_nodes;
