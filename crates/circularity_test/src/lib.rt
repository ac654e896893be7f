//! Circularity: the dependency pairs of a program, the links between them, and the circular chains that a report lists.
#![tactic(auto)]

mod components;
mod distances;
mod finding;
mod laws;
mod level_pairs;
mod linking;
mod network;
mod pair_list;
mod parts;
mod report;
mod routes;
mod steps;
mod tables;

pub use finding::pairs;
pub use laws::{numbers_rise_by_calls, rising_numbers_rule_chains_out};
pub use linking::{Link, linked};
pub use pair_list::Pairs;
pub use report::{Report, chains};
