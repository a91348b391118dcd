use chaos_dist::StepForm;
use fd_words::Numbers;
use sqlite_items::Items;

/// One execution of a FORALL: its range, both ends included; the number that each reference's subscript
/// adds, or that a scalar subscript is, by reference; and the values of the scalar names in its
/// expressions. Where the range is empty both lists are.
#[derive(Drop)]
pub struct LoopTurn {
    pub low: i64,
    pub high: i64,
    pub adds: Numbers,
    pub terms: Numbers,
}

/// An executed statement.
#[derive(Drop)]
pub enum Step {
    Distribute { decomposition: u32, form: StepForm },
    Print { array: u32 },
    Forall { site: u32, turn: LoopTurn },
}

/// The steps of a program in order, numbered from 0.
pub type Trace = Items<Step>;
