//! Types: when one fits another, their joins, and what they hold.
#![tactic(auto)]

mod checked;
mod copies;
mod holds;
mod joins;
mod laws;
mod sharing;
mod subtyping;
mod table;

pub use checked::Checked;
pub use holds::{holds_futures, holds_objects};
pub use joins::join;
pub use laws::{
    applications_are_least, constructors_match, expressions_are_typed, joins_are_least,
    programs_are_typed, replacements_compose, schemes_are_closed, statements_are_typed,
    subtyping_is_an_order, types_fit_by_form, types_stay_in_wider_frames,
};
pub use sharing::programs_are_shared;
pub use subtyping::{implements, same_name, subtype};
pub use table::{Shape, TypeIndex, TypeTable};
