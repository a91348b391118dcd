use fd_words::{Arith, Name, SourcePlace};
use sqlite_items::{Boxed, Items};

/// A scalar expression: numbers and names, without arrays. An operator has the place of its sign.
#[derive(Debug, Drop)]
pub enum Scalar {
    Number {
        value: i64,
        at: SourcePlace,
    },
    Named {
        name: Name,
        at: SourcePlace,
    },
    Negate {
        at: SourcePlace,
        inner: Boxed<Scalar>,
    },
    Binary {
        op: Arith,
        at: SourcePlace,
        left: Boxed<Scalar>,
        right: Boxed<Scalar>,
    },
}

/// A term of an offset, with its sign.
#[derive(Debug, Drop)]
pub struct Term {
    pub minus: bool,
    pub at: SourcePlace,
    pub scalar: Scalar,
}

/// The terms of an offset in order; none where there is no offset.
pub type Terms = Items<Term>;
