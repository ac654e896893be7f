//! Evaluates expressions: each gives the one result of the definition of evaluation, a value or a fault.
#![tactic(auto)]

mod applications;
mod branches;
mod calls;
mod evaluator;
mod expressions;
mod library;
mod operate;
mod operators;
mod patterns;
mod scope;
mod stop;
mod variables;

pub use calls::{eval, eval_all, eval_all_in, eval_in};
pub use scope::Scope;
