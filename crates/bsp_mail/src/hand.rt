use chaos_letter::Letter;
use std::collections::LinkedList;

/// What a pass to a line knows: its role, its lists, and its empty polls since its last letter.
///
/// A pass that sends knows what was sent, one that takes what was taken and dropped. No value is ever
/// made of it; contracts alone see it, so the number of polls has no greatest value.
pub struct Hand {
    pub sends: bool,
    pub takes: bool,
    pub sent: LinkedList<Letter>,
    pub taken: LinkedList<Letter>,
    pub dropped: LinkedList<Letter>,
    pub polls: u64,
}
