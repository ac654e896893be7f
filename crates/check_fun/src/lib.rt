//! Checks functions by their types: each expression has its type, or its first offence is noted.
#![tactic(auto)]

mod applications;
mod cases;
mod checked_rules;
mod checker;
mod expressions;
mod frames;
mod functions;
mod growing;
pub mod heads;
mod leaves;
mod notes;
mod operators;
mod parts;
mod patterns;
mod rules;
mod schemes;

pub use checker::Checker;
pub use heads::Head;
