//! Translation tables spread over pages: each node keeps one page, and answers from it which node owns
//! an element and at which local address.
//!
//! Elements are numbered from 1, nodes, pages and local addresses from 0. Of n pages each covers the nth
//! part of the elements, rounded up, and page p is kept by node p.
#![tactic(auto)]

mod counts;
mod laws;
mod owners;
mod pages;
mod width;

pub use counts::page_counts;
pub use laws::page_laws;
pub use pages::Pages;
pub use width::page_of;
