//! The words that every crate uses: lists of numbers and bytes, short names, values that wrap and
//! their operators, and places in a source.
#![tactic(auto)]

mod arith;
mod bytes;
mod combine;
mod list;
mod name;
mod number_lists;
mod numbers;
mod place;
mod source;
mod value;
mod wanting;

pub use arith::{Arith, exact_sum};
pub use bytes::Bytes;
pub use combine::{Combine, combining_laws};
pub use list::{Copied, List};
pub use name::Name;
pub use number_lists::NumberLists;
pub use numbers::Numbers;
pub use place::{Offence, Place, Places, Role};
pub use source::{SourceCause, SourceFault, SourcePlace, SourceStop};
pub use value::{count_sum, minus, negated, plus, remainder, times};
pub use wanting::Memory;
