//! Values: numbers, strings, data, objects and futures, with their equality, printed forms and operators, and lists of
//! them. The definition of evaluation is in `specs/Evaluation.antt`.
#![tactic(auto)]

pub mod answers;
pub mod arithmetic;
pub mod comparison;
pub mod evaluated;
pub mod laws;
pub mod printed;
pub mod sharing;
pub mod value;
pub mod values;

pub use answers::answer_of;
pub use arithmetic::{arithmetic_of, comparison_of, negated};
pub use comparison::value_equal;
pub use evaluated::{Env, Evaluated, Fault, Output};
pub use laws::{lists_give_their_values, references_are_read, values_are_told_apart};
pub use printed::{value_text, value_text_within};
pub use sharing::values_are_shared;
pub use value::{Parts, Value, value_depth, value_size};
pub use values::Values;
