//! The names of a source, after the prelude: what each stands for, and the first name offence.
#![tactic(auto)]

mod around;
mod bodies;
mod classes;
mod declarations;
mod expressions;
mod extension;
mod laws;
mod patterns;
mod repeats;
pub mod resolver;
mod right_sides;
mod scope;
mod slots;
mod spaces;
mod statements;
mod types;
mod walk;

pub use abs_tree::SourceError as NameError;
pub use laws::{newest_declaration, own_slots};
pub use resolver::resolve;
