//! From the tokens of a source to the tree of its program.
#![tactic(auto)]

mod arguments;
mod cases;
mod classes;
mod cursor;
mod declarations;
mod expressions;
mod guards;
pub mod laws;
mod literals;
mod names;
mod operators;
mod parameters;
pub mod parser;
mod patterns;
mod preamble;
mod primaries;
mod programs;
mod right_sides;
mod simple_statements;
mod statements;
mod types;

pub use abs_tree::SourceError as ParseError;
pub use parser::parse;
