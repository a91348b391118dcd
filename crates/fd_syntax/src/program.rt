use crate::{Declaration, StatementList};
use fd_words::Name;
use sqlite_items::Items;

/// Declarations in the order of the text.
pub type DeclarationList = Items<Declaration>;

/// A program: its declarations, and its statements, the DISTRIBUTEs of the head before the body.
#[derive(Debug, Drop)]
pub struct Program {
    pub name: Name,
    pub declarations: DeclarationList,
    pub statements: StatementList,
}
