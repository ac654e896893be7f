//! What the analysis takes from a program before it computes facts: for each body its contract terms, which say what a
//! statement passes on and which futures are known to be resolved there.
#![tactic(auto)]

mod accepts;
mod contracted;
mod fact;
pub mod laws;
mod pair;
mod term;
mod terms;

pub use accepts::{Accepts, Objects};
pub use contracted::Contracted;
pub use fact::{Atom, Fact};
pub use laws::{
    derived_facts_are_closed, facts_are_handled_one_by_one, links_and_chains, reports_are_exact,
    settled_follows_control,
};
pub use pair::{Mode, Pair};
pub use term::{ClassTerms, MethodTerms, Reads, Term};
pub use terms::Terms;
