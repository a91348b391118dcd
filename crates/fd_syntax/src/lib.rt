//! The syntax of a source, as plain data. Lists and boxes are seen by contracts as what they hold.
#![tactic(auto)]

mod declaration;
mod expr;
mod program;
mod scalar;
mod statement;

pub use declaration::{
    Declaration, Listed, ListedList, Parameter, ParameterList, SizedName, SizedNameList,
};
pub use expr::{Element, Expr, Subscript};
pub use program::{DeclarationList, Program};
pub use scalar::{Scalar, Term, Terms};
pub use statement::{BodyList, BodyStatement, Form, Loop, Statement, StatementList};
