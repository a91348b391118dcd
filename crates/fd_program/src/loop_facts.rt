use crate::{ArrayList, LoopTurn, Site};
use chaos_dist::StepForm;
use sqlite_items::Items;

/// A decomposition as it is at a step: elements 1 to `extent`, dealt by `form`.
#[derive(Clone, Copy, Debug, PartialEq, Eq)]
pub struct Layout {
    pub extent: u64,
    pub form: StepForm,
}

/// The decompositions by number, from 0.
pub type LayoutList = Items<Layout>;

/// Which node executes an iteration: the owner of the first statement's target, or the lowest of those
/// that own most of its references.
#[derive(Clone, Copy, Debug, PartialEq, Eq)]
pub enum HomeRule {
    Owner,
    Most,
}

/// All that is known of one execution of a FORALL beside the values: the program's arrays, the FORALL,
/// its turn, the decompositions as they are, the number of nodes, and the rule for homes.
#[derive(Drop)]
pub struct LoopFacts {
    pub arrays: ArrayList,
    pub site: Site,
    pub turn: LoopTurn,
    pub layouts: LayoutList,
    pub nodes: u32,
    pub rule: HomeRule,
}
