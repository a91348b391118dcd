//! What a node does to print an array, under any owners.
//!
//! Each node takes its rows, the elements that it owns with their values, from what it holds; node 0
//! puts the rows of all nodes at their places and writes the line.
#![tactic(auto)]

mod laws;
mod line;
mod rows;

pub use laws::{
    elements_are_owned, letters_came_in, lines_are_printed, plans_can_print, rows_are_held,
    texts_go_on,
};
pub use line::print_line;
pub use rows::print_rows;
