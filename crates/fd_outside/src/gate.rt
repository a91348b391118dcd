/// What a node passes before each work, with its number and the number of works that it has done.
pub trait Gate: Sync {
    fn pass(&self, node: u32, phase: u64);
}

/// A gate that lets everyone pass.
#[derive(Clone, Copy, Debug)]
pub struct OpenGate;

impl Gate for OpenGate {
    fn pass(&self, _node: u32, _phase: u64) {}
}
