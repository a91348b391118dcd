use crate::{ArrayList, CheckedScalar, LayoutNames, OutputNames, Sites};
use chaos_dist::StepForm;
use fd_words::{NumberLists, Numbers, SourcePlace};
use sqlite_items::Items;

/// An executed statement; arrays, decompositions and FORALLs by number. The body of a DO is the `inside`
/// statements that follow it in the list, where the statements of a DO inside it are counted too.
#[derive(Drop)]
pub enum CheckedStatement {
    Distribute {
        at: SourcePlace,
        decomposition: u32,
        form: StepForm,
    },
    Print {
        at: SourcePlace,
        array: u32,
    },
    Do {
        at: SourcePlace,
        low: CheckedScalar,
        high: CheckedScalar,
        inside: u32,
    },
    Forall(u32),
}

/// Statements in the order of the text.
pub type CheckedStatements = Items<CheckedStatement>;

/// A program with its names resolved. `reads` has the numbers of the arrays that are filled from data
/// files before the run, in order.
#[derive(Drop)]
pub struct Checked {
    pub arrays: ArrayList,
    pub layouts: LayoutNames,
    pub reads: Numbers,
    pub outputs: OutputNames,
    pub sites: Sites,
    pub statements: CheckedStatements,
}

/// The values of all arrays: one list per array, of its extent.
pub type Store = NumberLists;
