// The tokens of a line: brackets, words and numbers, each a part of the text with its place.
#![tactic(auto)]

mod lexer;
mod numbers;
mod runs;

pub use lexer::{Fault, Lexer, Piece, Token};
