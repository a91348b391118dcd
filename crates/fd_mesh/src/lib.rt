//! A mesh made from a seed and a size: a source that sweeps over its edges, and the data files.
#![tactic(auto)]

mod files;
mod generator;
mod laws;
mod rule;
mod source;

pub use files::{FileData, FileList};
pub use generator::{MeshFiles, mesh};
pub use laws::mesh_laws;
