use crate::{CheckedScalar, CheckedTerms};
use fd_words::{Role, SourcePlace};
use sqlite_items::Items;

/// A subscript: the index of the FORALL and an offset; the element of an index array at the index and
/// `inner_add`, and an offset; the element of the array `outer` at a subscript through the array `inner`, and
/// an offset; or a scalar.
#[derive(Drop)]
pub enum CheckedSubscript {
    Plain {
        add: CheckedTerms,
    },
    Through {
        index_array: u32,
        at: SourcePlace,
        inner_add: CheckedTerms,
        add: CheckedTerms,
    },
    Twice {
        outer: u32,
        at: SourcePlace,
        inner: u32,
        inner_at: SourcePlace,
        first_add: CheckedTerms,
        second_add: CheckedTerms,
        add: CheckedTerms,
    },
    Scalar(CheckedScalar),
}

/// A reference to an array. Directly before a reference through an index array stands the index
/// reference to that array, whose subscript is the index and `inner_add`; directly before one through two
/// stands the index reference to `outer`, whose subscript is through `inner`. The stamp counts within the
/// decomposition, from 0; that of an index reference is 0 and unused.
#[derive(Drop)]
pub struct Reference {
    pub role: Role,
    pub array: u32,
    pub subscript: CheckedSubscript,
    pub stamp: u32,
}

/// The references of a FORALL in the order of their numbers. The numbers count from 1, so the reference
/// numbered k stands at place k - 1.
pub type References = Items<Reference>;
