//! The tokens of a module's text: brackets, words and strings, each by its place, or the first byte at which there can be none.
#![tactic(auto)]

mod classes;
mod error;
mod laws;
mod lexer;
mod pieces;

pub use error::LexError;
pub use laws::{at_most_one_list, has_tokens_or_a_fault, read_as_it_is_spelled};
pub use lexer::tokens;
pub use pieces::{Token, TokenKind, TokenList};

#[cfg(test)]
mod tests;
