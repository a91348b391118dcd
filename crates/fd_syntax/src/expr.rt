use crate::{Scalar, Terms};
use fd_words::{Arith, Name, SourcePlace};
use sqlite_items::Boxed;

/// The subscript of an element: the index of the FORALL and an offset; an index array's element at that and
/// an offset; the element of the array `outer` at such a subscript through the array `inner`, and an offset;
/// or a scalar.
#[derive(Debug, Drop)]
pub enum Subscript {
    Plain {
        add: Terms,
    },
    Through {
        index_array: Name,
        at: SourcePlace,
        inner_add: Terms,
        add: Terms,
    },
    Twice {
        outer: Name,
        at: SourcePlace,
        inner: Name,
        inner_at: SourcePlace,
        first_add: Terms,
        second_add: Terms,
        add: Terms,
    },
    Scalar(Scalar),
}

/// An element of an array.
#[derive(Debug, Drop)]
pub struct Element {
    pub name: Name,
    pub at: SourcePlace,
    pub subscript: Subscript,
}

/// An expression in the body of a FORALL.
#[derive(Debug, Drop)]
pub enum Expr {
    Number(i64),
    Named {
        name: Name,
        at: SourcePlace,
    },
    Read(Element),
    Negate(Boxed<Expr>),
    Binary {
        op: Arith,
        left: Boxed<Expr>,
        right: Boxed<Expr>,
    },
}
