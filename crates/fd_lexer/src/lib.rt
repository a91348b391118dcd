//! The tokens of a source.
#![tactic(auto)]

mod cursor;
mod laws;
mod lexer;
mod piece;
mod token;

pub use laws::token_laws;
pub use lexer::tokens;
pub use token::{Token, TokenKind, TokenList, Tokens};
