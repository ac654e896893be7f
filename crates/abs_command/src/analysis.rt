//! What is known of a program before any run: how many facts and pairs there are, and the report of circular chains.
ghost use Rattle.std.specs.Prelude.{◌≡◌, ◌≤◌, ℕ, List, IfOk, IfErr, OnOk};
ghost use Rattle.abs_program.specs.NamedViews.{program_tree};
ghost use Rattle.abs_tree.specs.Syntax.{ProgramTree};
ghost use Rattle.contract_terms.specs.declared.pair.Pair.{Pair};
ghost use Rattle.saturation.specs.declared.work_list.SaturateError.TheVariants as error;
ghost use Rattle.abs_command.specs.Analysis.{AreFindings, HasTooMany, SameFindings, TellsChains};

use circularity_test::{Report, chains, pairs};
use contract_terms::{Contracted, reports_are_exact};
use saturation::{SaturateError, saturate};
use std::alloc::Global;

/// What an analysis found of a program.
#[derive(Drop)]
pub struct Analysis {
    /// How many facts are derived.
    pub facts: u64,
    /// How many pairs of dependencies there are.
    pub pairs: u64,
    /// The circular chains.
    pub report: Report,
}

/// Analyses a program: derives its facts, finds the pairs that they give, and makes the report of these. The depth is
/// how many places the name of a cog keeps.
///
/// # Errors
/// [`SaturateError::TooMany`] if more facts are derived than the limit, and [`SaturateError::Memory`] if an allocation
/// fails.
pub fn analyse(
    alloc: Global,
    program: &Contracted<'_>,
    depth: u8,
    limit: u64,
) -> Result<Analysis, SaturateError>
    requires at_least { 1 ≤ depth }
    requires at_most { depth ≤ 3 }
    requires some { 1 ≤ limit }
    requires few { limit ≤ 4000000 }
    ensures found { IfOk result (λ analysis. AreFindings (program_tree program.now.checked.named) depth analysis.facts
        analysis.pairs analysis.report) }
    ensures few { OnOk result (HasTooMany (program_tree program.now.checked.named) depth limit → ⊥) }
    ensures too_many { IfErr result (λ why. why ≡ error.TooMany
        → HasTooMany (program_tree program.now.checked.named) depth limit) }
{
    let facts = saturate(alloc, program, depth, limit)?;
    let pairs = pairs(alloc, program, &facts)?;
    let report = chains(alloc, program, &pairs)?;
    Ok(Analysis {
        facts: facts.len() as u64,
        pairs: pairs.len() as u64,
        report,
    })
}

/// What is found of a program is determined by it, and its report tells whether the pairs have a circular chain.
pub fn findings_are_exact()
    ensures chains { (program : ProgramTree) (depth facts pairs : ℕ) (report : List (List Pair))
        → (findings : AreFindings program depth facts pairs report) → TellsChains program findings.found report }
    ensures one { (program : ProgramTree) (depth facts pairs facts' pairs' : ℕ) (report report' : List (List Pair))
        → AreFindings program depth facts pairs report → AreFindings program depth facts' pairs' report'
        → SameFindings facts pairs report facts' pairs' report' }
{
    reports_are_exact();
}
