use crate::{Scalar, Terms};
use fd_words::{Name, SourcePlace};
use sqlite_items::Items;

/// A named constant.
#[derive(Debug, Drop)]
pub struct Parameter {
    pub name: Name,
    pub at: SourcePlace,
    pub value: Scalar,
}

/// An array or a decomposition with its extent. The place of the extent is that of its first token.
#[derive(Debug, Drop)]
pub struct SizedName {
    pub name: Name,
    pub at: SourcePlace,
    pub extent: Scalar,
    pub extent_at: SourcePlace,
}

/// A name in a list.
#[derive(Clone, Copy, Debug, PartialEq, Eq)]
pub struct Listed {
    pub name: Name,
    pub at: SourcePlace,
}

/// The constants of a PARAMETER line.
pub type ParameterList = Items<Parameter>;

/// The names of an INTEGER*8 or a DECOMPOSITION line.
pub type SizedNameList = Items<SizedName>;

/// The names of an ALIGN, READ or OUTPUT line.
pub type ListedList = Items<Listed>;

/// A line of the head that isn't executed.
#[derive(Debug, Drop)]
pub enum Declaration {
    Parameter(ParameterList),
    Integer(SizedNameList),
    Decomposition(SizedNameList),
    Align {
        arrays: ListedList,
        dummy: Name,
        target: Name,
        target_at: SourcePlace,
        add: Terms,
    },
    Read(ListedList),
    Output(ListedList),
}
