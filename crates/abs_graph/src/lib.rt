//! Directed graphs: which nodes reach themselves, which reach a marked one, their components, and which reach which.
#![tactic(auto)]

mod bit_set;
mod certificate;
mod closure;
mod columns;
mod components;
mod cycles;
mod laws;
mod marked;
mod reach;

pub use closure::{Closure, closure_of};
pub use components::{Components, components_of};
pub use cycles::on_cycles;
pub use laws::reaches_is_reported;
pub use marked::{is_marked, reaching};
pub use reach::{Reach, reach_of};
