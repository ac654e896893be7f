//! The work list: each fact is handled once, and what rests on it is added.
ghost use Rattle.std.specs.Prelude.{◌≡◌, ◌≤◌, ◌<◌, ◌↔◌, ℕ, length, Contains, IfOk, IfErr, OnOk};
ghost use Rattle.abs_program.specs.NamedViews.{named_tree, program_tree};
ghost use Rattle.contract_terms.specs.Asks.{IsDerivedIn, Rests};
ghost use Rattle.contract_terms.specs.Derived.{AreDistinct, MoreThan};
ghost use Rattle.contract_terms.specs.Made.{classes_made};
ghost use Rattle.contract_terms.specs.ProgramTerms.{AreTermsOf};
ghost use Rattle.contract_terms.specs.Views.{made_in};
ghost use Rattle.contract_terms.specs.declared.fact.Fact.{Fact as One};
ghost use Rattle.saturation.specs.Finished.{IsFinished};
ghost use Rattle.saturation.specs.RuleViews.{program_of, terms_of};
ghost use Rattle.saturation.specs.Steps.{GoesOn};
ghost use Rattle.saturation.specs.Uses.{AreUses};
ghost use Rattle.saturation.specs.declared.work_list.SaturateError.TheVariants as error;

use crate::derivation::Derivation;
use crate::facts::Facts;
use crate::objects::Made;
use crate::rules::Rules;
use crate::uses::uses_of;
use contract_terms::{Contracted, Fact, Terms};
use name_bounding::Kind;
use std::alloc::{AllocError, Global};

/// Why there are no facts.
#[derive(Clone, Copy, Debug, PartialEq, Eq)]
pub enum SaturateError {
    /// More facts are derived than the limit.
    TooMany,
    /// An allocation failed, or an index takes more than 32 bits.
    Memory,
}

impl From<AllocError> for SaturateError {
    ghost from_gives = { λ _ why. why ≡ error.Memory };

    fn from(_: AllocError) -> Self {
        SaturateError::Memory
    }
}

/// The facts of a program, each once, with names of this depth.
///
/// # Errors
/// [`SaturateError::TooMany`] where more facts are derived than the limit, and [`SaturateError::Memory`] if an
/// allocation fails, or an index takes more than 32 bits, as none of a source does.
pub fn saturate(
    alloc: Global,
    program: &Contracted<'_>,
    depth: u8,
    limit: u64,
) -> Result<Facts, SaturateError>
    requires at_least { 1 ≤ depth }
    requires at_most { depth ≤ 3 }
    requires some { 1 ≤ limit }
    requires few { limit ≤ 4000000 }
    ensures exact { IfOk result (λ facts. (fact : One)
        → Contains facts fact ↔ IsDerivedIn (program_tree program.now.checked.named) depth fact) }
    ensures distinct { IfOk result (λ facts. AreDistinct facts) }
    ensures within { IfOk result (λ facts. length facts ≤ limit) }
    ensures too_many { IfErr result (λ why. why ≡ error.TooMany →
        MoreThan (Rests (program_tree program.now.checked.named) depth) limit) }
    ensures not_too_many { OnOk result (MoreThan (Rests (program_tree program.now.checked.named) depth) limit → ⊥) }
{
    let named = program.checked().named();
    let terms = contracts_of(program);
    let uses = uses_of(alloc, named, terms)?;
    let rules = Rules {
        program: named,
        terms,
        depth,
        run: named.symbols.symbol_of(b"run"),
        uses,
    };
    end(rules.derive(alloc, limit as u32))
}

/// The contracts of a program. They have the classes that are made at each place.
fn contracts_of<'p>(program: &'p Contracted<'_>) -> &'p Terms
    ensures are { ∥ AreTermsOf (program_tree program.now.checked.named) result.now ∥₁ }
    ensures made { (place : ℕ) → made_in program.now.checked.named.symbols result.now place
        ≡ classes_made (named_tree program.now.checked.named) place }
{
    program.terms()
}

impl<'p, 'a> Rules<'p, 'a> {
    /// Derives facts until each was handled, or until the work has ended.
    fn derive(&self, alloc: Global, limit: u32) -> Derivation
        requires { AreUses (program_of self.now) (terms_of self.now) self.now.uses }
        ensures limit { result.limit ≡ limit }
        ensures finished { AreTermsOf (program_of self.now) (terms_of self.now)
            → IsFinished (program_of self.now) self.now.depth result }
    {
        let mut derivation = Derivation::new(alloc, limit);
        let mut made = Made::new(alloc);
        derivation.add(Fact::Live(Kind::Main));
        let mut position = 0;
        while derivation.goes_on() && position < derivation.facts.len() {
            let fact = derivation.facts.at(position).copied();
            self.handle(&mut derivation, &mut made, &fact);
            position += 1;
        }
        derivation
    }
}

/// The facts of a derivation that has come to its end.
///
/// # Errors
/// [`SaturateError::TooMany`] if there are more than the limit, and [`SaturateError::Memory`] if an allocation failed.
fn end(derivation: Derivation) -> Result<Facts, SaturateError>
    ensures facts { IfOk result (λ facts. (facts ≡ derivation.facts) × GoesOn derivation) }
    ensures distinct { IfOk result (λ facts. AreDistinct facts) }
    ensures too_many { IfErr result (λ why. why ≡ error.TooMany →
        (derivation.limit < length derivation.facts) × AreDistinct derivation.facts) }
{
    if derivation.failed {
        return Err(SaturateError::Memory);
    }
    if derivation.facts.len() > derivation.limit as usize {
        return Err(SaturateError::TooMany);
    }
    Ok(derivation.facts)
}
