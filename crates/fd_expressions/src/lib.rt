//! The parser of what stands inside a line: names, scalars, subscripts, elements and expressions.
#![tactic(auto)]

mod expr;
mod parser;
mod scalar;
mod stop;
mod subscript;
mod take;

pub use parser::Parser;
pub use stop::Stop;
