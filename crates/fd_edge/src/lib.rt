//! What any program needs of the outside: the words of its command line, numbers from files by name, lines for what
//! stops it, and one write that ends it.
#![tactic(auto)]

mod arguments;
mod ending;
mod file;
mod line;
mod unusable;

pub use arguments::{WordsStop, words};
pub use ending::{Stop, end, end_run, end_stop, end_unread};
pub use file::{FileStop, read_numbers};
pub use line::{fault_line, record_line, unread_line};
pub use unusable::stop_for;
