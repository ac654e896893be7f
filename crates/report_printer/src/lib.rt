//! The output for a report of circular chains, and for a refusal.
#![tactic(auto)]

mod laws;
mod output;
mod printer;
mod refusal;
mod report;
mod source_lines;

pub use laws::links_are_told;
pub use refusal::refusal_text;
pub use report::report_text;
