//! The prelude: what is declared before each source, as the trees of its text and as a list of names.
#![tactic(auto)]

mod code;
mod declarations;
mod parts;
mod table;
mod text;

pub use declarations::{DECLARATIONS, declarations_are_counted, prelude};
pub use text::{TEXT, add_names};
