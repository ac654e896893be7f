//! Types are sound: in an accepted program no schedule meets a type fault. The crate has definitions and laws alone.
#![tactic(auto)]

mod laws;

pub use laws::{
    expressions_have_their_types, no_type_fault, types_are_kept, values_hold_what_types_hold,
};
