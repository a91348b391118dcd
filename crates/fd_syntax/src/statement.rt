use crate::{Element, Expr, Scalar};
use fd_words::{Combine, Name, SourcePlace};
use sqlite_items::Items;

/// A statement in the body of a FORALL.
#[derive(Debug, Drop)]
pub enum BodyStatement {
    Assign {
        target: Element,
        value: Expr,
    },
    Reduce {
        operator: Combine,
        target: Element,
        value: Expr,
    },
}

/// The statements of a FORALL in order.
pub type BodyList = Items<BodyStatement>;

/// A FORALL.
#[derive(Debug, Drop)]
pub struct Loop {
    pub at: SourcePlace,
    pub index: Name,
    pub index_at: SourcePlace,
    pub low: Scalar,
    pub high: Scalar,
    pub body: BodyList,
}

/// What a DISTRIBUTE gives a decomposition. The place of a size is that of its first token.
#[derive(Debug, Drop)]
pub enum Form {
    Block,
    Cyclic,
    BlockCyclic { size: Scalar, at: SourcePlace },
    Map { name: Name, at: SourcePlace },
}

/// An executed statement. The body of a DO is the `inside` statements that follow it in the list, where
/// the statements of a DO inside it are counted too.
#[derive(Debug, Drop)]
pub enum Statement {
    Distribute {
        at: SourcePlace,
        name: Name,
        name_at: SourcePlace,
        form: Form,
    },
    Print {
        at: SourcePlace,
        name: Name,
        name_at: SourcePlace,
    },
    Do {
        at: SourcePlace,
        variable: Name,
        variable_at: SourcePlace,
        low: Scalar,
        high: Scalar,
        inside: u32,
    },
    Forall(Loop),
}

/// Statements in the order of the text.
pub type StatementList = Items<Statement>;
