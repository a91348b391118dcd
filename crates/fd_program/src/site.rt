use crate::{CheckedBodyList, CheckedScalar, CheckedScalars, References};
use fd_words::SourcePlace;
use sqlite_items::Items;

/// A FORALL: its bounds, its body, its references, and the scalar names of its expressions.
#[derive(Drop)]
pub struct Site {
    pub at: SourcePlace,
    pub low: CheckedScalar,
    pub high: CheckedScalar,
    pub body: CheckedBodyList,
    pub references: References,
    pub terms: CheckedScalars,
}

/// The FORALLs of a program in the order of the text, by number from 0.
pub type Sites = Items<Site>;
