//! The grammar: what each token is to it, and which tokens spell a program.
#![tactic(auto)]

mod law;
mod mark;
mod opening;
mod sort;

pub use law::programs_of_equal_tokens;
pub use mark::{Fixed, Mark};
pub use opening::{
    Closer, Heading, InnerOpening, Opening, closing_of, heading_of, inner_opening_of, opening_of,
};
pub use sort::{Sort, is_word, name_of, opens, sign_of, sort_of, times_of};
