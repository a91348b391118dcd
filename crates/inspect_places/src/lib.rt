//! The places that an inspection of a FORALL asks for: owner and local address of elements whose
//! decompositions have a map. Each node asks, by page, the node that keeps the page of the translation
//! table; the answers are put into the order of iterations and references.
#![tactic(auto)]

mod answering;
mod asked;
mod asks;
mod dealing;
mod laws;
mod places;

pub use answering::{PageSet, answers};
pub use asked::{Asked, Decompositions};
pub use laws::wanted_are_asked;
