use fd_words::{Arith, Name};
use sqlite_items::Items;

/// A part of a subscript without its places. `Unknown` is a name that has no meaning there.
#[derive(Clone, Copy, Debug, PartialEq, Eq)]
pub enum Mark {
    Plain,
    Through(u32),
    Scalar,
    Term(bool),
    Number(i64),
    Variable(u32),
    Unknown(Name),
    Negate,
    Binary(Arith),
}

/// A subscript without its places. Two are the same where their marks are.
pub type Marks = Items<Mark>;
