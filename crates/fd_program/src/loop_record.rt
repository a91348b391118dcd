use fd_words::Numbers;

/// What decides whether an inspection of a FORALL can be used again: the range and the numbers of the
/// subscripts; the versions of the decompositions of its references, ascending by decomposition; and the
/// change numbers of its index arrays, ascending by array.
#[derive(Drop)]
pub struct LoopRecord {
    pub low: i64,
    pub high: i64,
    pub adds: Numbers,
    pub versions: Numbers,
    pub changes: Numbers,
}
