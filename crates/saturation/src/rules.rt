//! What the rules know.
ghost use Rattle.std.specs.Prelude.{◌≡◌, ◌≤◌, ℕ, codes};
ghost use Rattle.abs_program.specs.NamedViews.{named_tree};
ghost use Rattle.abs_tree.specs.Names.{number_of_name};
ghost use Rattle.contract_terms.specs.Made.{classes_made};
ghost use Rattle.contract_terms.specs.Views.{made_in};

use crate::uses::Uses;
use abs_program::Named;
use abs_tree::Symbol;
use contract_terms::Terms;

/// What the rules know: the program with its contracts, the depth of names, the symbol of `run`, and who uses what.
#[derive(Drop)]
pub(crate) struct Rules<'p, 'a> {
    pub(crate) program: &'p Named<'a>,
    pub(crate) terms: &'p Terms,
    pub(crate) depth: u8,
    pub(crate) run: Symbol,
    pub(crate) uses: Uses,
    ghost at_least: { 1 ≤ depth },
    ghost at_most: { depth ≤ 3 },
    ghost run_is: { run.0 ≡ number_of_name program.now.symbols (codes "run") },
    ghost made: { (place : ℕ)
        → made_in program.now.symbols terms.now place ≡ classes_made (named_tree program.now) place },
}
