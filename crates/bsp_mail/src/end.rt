use crate::line::Pass;

/// One end of a line: the seat at the other end, and the pass. A pass has no bytes, and the number
/// beside it makes lists of ends ordinary lists.
#[derive(Drop)]
pub struct End {
    pub peer: u32,
    pub pass: Pass,
}
