//! A checked program and its trace, as plain data, what many crates ask of them, and the definitions of
//! what a run means. Lists and boxes are seen by contracts as what they hold.
#![tactic(auto)]

mod array;
mod arrays;
mod body;
mod checked;
mod count;
mod evaluating;
pub mod laws;
mod loop_facts;
mod loop_record;
mod loop_use;
mod reference;
mod refused;
mod scalar;
mod site;
mod trace;

pub use array::{ArrayFacts, ArrayList, LayoutName, LayoutNames, OutputName, OutputNames};
pub use arrays::{array_at, decomposition, extent};
pub use body::{CheckedBody, CheckedBodyList, CheckedExpr, first_target};
pub use checked::{Checked, CheckedStatement, CheckedStatements, Store};
pub use count::{SiteCount, SiteCounts};
pub use evaluating::{first_offence, gives, is_met, is_plain, subscript, use_by};
pub use loop_facts::{HomeRule, Layout, LayoutList, LoopFacts};
pub use loop_record::LoopRecord;
pub use loop_use::{Use, Uses};
pub use reference::{CheckedSubscript, Reference, References};
pub use refused::Refused;
pub use scalar::{CheckedScalar, CheckedScalars, CheckedTerm, CheckedTerms};
pub use site::{Site, Sites};
pub use trace::{LoopTurn, Step, Trace};
