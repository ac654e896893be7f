//! From the bytes of a source to the program that it is, or to its refusal.
ghost use Rattle.std.specs.Prelude.{◌≤◌, ℕ, List, length, All, IfOk, IfErr};
ghost use Rattle.abs_tree.specs.Limits.{source_limit};
ghost use Rattle.abs_tree.specs.SourceErrors.{HasCause};
ghost use Rattle.abs_tree.specs.Syntax.{ProgramTree};
ghost use Rattle.abs_program.specs.NamedViews.{program_tree};
ghost use Rattle.abs_profile.specs.Accepted.{IsAcceptedProgram};
ghost use Rattle.abs_command.specs.Sources.{IsProgramOf, FirstOffence, IsNameOf, HasOneFirstOffence};

use abs_lexer::lexer::tokens;
use abs_names::resolve;
use abs_parser::parse;
use abs_tree::SourceError;
use check_obj::check;
use contract_infer::infer;
use contract_terms::Contracted;
use std::alloc::Global;

/// The program of a source, with its names resolved, its types checked and its contracts.
///
/// # Errors
/// [`SourceError::Refused`] if the source has an offence, with the refusal for the first one.
/// [`SourceError::Memory`] if an allocation fails, or if there are too many names, slots, fields, declarations or
/// types.
pub fn program_of<'a>(alloc: Global, text: &'a [u8]) -> Result<Contracted<'a>, SourceError>
    requires { length text.now ≤ source_limit }
    ensures found { IfOk result (λ found. IsProgramOf text.now (program_tree found.checked.named)) }
    ensures names { IfOk result (λ found. All (IsNameOf text.now) found.checked.named.symbols) }
    ensures refused { IfErr result (HasCause (FirstOffence text.now)) }
{
    let list = tokens(alloc, text)?;
    let tree = parse(alloc, &list)?;
    let program = resolve(alloc, tree)?;
    let checked = check(alloc, program)?;
    let contracted = infer(alloc, checked)?;
    Ok(contracted)
}

/// A source is refused for at most one offence.
pub fn one_first_offence()
    ensures { (text : List ℕ) → HasOneFirstOffence text }
{}

/// The program of a source is accepted. So what holds of the runs of accepted programs holds of its runs.
pub fn programs_are_accepted()
    ensures { (text : List ℕ) (program : ProgramTree) → IsProgramOf text program → IsAcceptedProgram program }
{}
