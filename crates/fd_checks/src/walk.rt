use fd_loops::UsedStamps;
use fd_program::{CheckedStatements, Sites};
use fd_words::Name;
use sqlite_items::Items;

/// A DO whose body isn't through: its variable, and how many statements of its body are left.
#[derive(Clone, Copy, Debug, PartialEq, Eq)]
pub(crate) struct Open {
    pub(crate) name: Name,
    pub(crate) left: u32,
}

/// Open DOs, the outermost first.
pub(crate) type OpenList = Items<Open>;

/// The statements that are through: the DOs that are open behind them, how many stamps of each
/// decomposition are used, and the resolved FORALLs and statements.
#[derive(Drop)]
pub(crate) struct Walk {
    pub(crate) outer: OpenList,
    pub(crate) used: UsedStamps,
    pub(crate) sites: Sites,
    pub(crate) statements: CheckedStatements,
}
