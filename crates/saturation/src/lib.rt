//! The facts of a program: from the contracts of its methods, each derived fact once and no other.
#![tactic(auto)]

mod body;
mod derivation;
mod facts;
mod handling;
mod key;
mod objects;
mod rules;
mod starting;
mod statements;
mod uses;
mod work_list;

pub use body::Body;
pub use facts::Facts;
pub use work_list::{SaturateError, saturate};
