//! The tokens of a source, which borrow its bytes, or its first lexical offence.
#![tactic(auto)]

mod cursor;
pub mod lexeme;
pub mod lexer;
mod piece;
mod punctuator;
mod span;
pub mod token;
mod word;

pub use abs_tree::SourceError as LexError;
pub use lexeme::{Keyword, Lexeme, Punctuator};
pub use lexer::one_lexing;
pub use token::Token;
