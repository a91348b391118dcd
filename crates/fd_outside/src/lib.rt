//! The outside: files that are read by name, a sink that bytes go to, and a gate that work passes.
#![tactic(auto)]

mod count;
mod gate;
mod host;
mod memory;
mod sink;
mod whole;
mod within;

pub use gate::{Gate, OpenGate};
pub use host::{HostFiles, HostSink};
pub use memory::{MemoryFiles, copy_from};
pub use sink::MemorySink;
pub use whole::{ReadStop, read_whole, write_whole};
pub use within::{Failed, Files, Sink};
