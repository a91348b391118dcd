use chaos_records::Records;
use fd_program::{Checked, HomeRule};
use fd_words::NumberLists;
use plan_run::Kept;

/// What a node holds between two steps, as far as the next one begins with it: the program, the number of
/// nodes, the rule for homes, the node's number; the elements of each decomposition that it has; the local
/// part of each array; its records; and for each FORALL what is kept.
#[derive(Clone, Copy)]
pub struct Between<'a> {
    pub checked: &'a Checked,
    pub nodes: u32,
    pub rule: HomeRule,
    pub me: u32,
    pub elements: &'a NumberLists,
    pub parts: &'a NumberLists,
    pub records: &'a Records,
    pub kept: &'a [Option<Kept>],
}
