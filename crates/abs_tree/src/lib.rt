//! The types that all other crates use: places, symbols, refusals, limits, strings, and the tree of a source.
#![tactic(auto)]

pub mod laws;
pub mod limits;
pub mod place;
pub mod refusal;
pub mod source_error;
pub mod symbol;
pub mod syntax;
pub mod text;

pub use laws::{first_is_least, numbers_tell_names};
pub use place::Place;
pub use refusal::{Code, Offence, Refusal};
pub use source_error::SourceError;
pub use symbol::{Symbol, Symbols};
pub use syntax::{
    Body, Branch, Constructor, Decl, Declared, Expr, Member, Mode, Operand, Operator, Param,
    Pattern, Prefix, Program, RightSide, Signature, Slot, Stmt, Target, Test, TypeTerm, Variable,
};
pub use text::Text;
