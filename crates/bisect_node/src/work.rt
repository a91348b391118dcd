use crate::cuts::Cut;
use crate::pieces::Piece;
use fd_words::{Bytes, Numbers};
use sqlite_items::Items;

/// What a node knows between phases: its pieces of the regions of the level, the cuts of those that are cut
/// and the number found of each, what it tells in this phase, and what it has written.
#[derive(Debug, Drop)]
pub struct Work {
    pub pieces: Items<Piece>,
    pub cuts: Items<Cut>,
    pub found: Items<u128>,
    pub told: Numbers,
    pub text: Bytes,
}
