//! The contracts of a whole program.
ghost use Rattle.std.specs.Prelude.{◌≡◌, [], option_map, Some, IfErr, IfOk, OnOk};
ghost use Rattle.abs_profile.specs.Profile.{profile_offences};
ghost use Rattle.abs_program.specs.NamedViews.{named_tree, program_tree};
ghost use Rattle.abs_tree.specs.Offences.{first_offence};
ghost use Rattle.abs_tree.specs.Refusals.{refusal_of};
ghost use Rattle.abs_tree.specs.SourceErrors.{HasCause};
ghost use Rattle.contract_terms.specs.ProgramTerms.{AreTermsOf};

use crate::ProfileError;
use crate::classes::{declaration_terms, in_32_bits, main_terms};
use crate::made::classes_made;
use abs_profile::profile_offence;
use abs_program::Named;
use abs_types::Checked;
use check_fun::Checker;
use contract_terms::{Contracted, Terms};
use std::alloc::{AllocError, Global};

/// A checked program with its contracts, if it has no profile offence.
///
/// # Errors
/// [`ProfileError::Refused`] if it has one, with the refusal for the first one. [`ProfileError::Memory`] if an
/// allocation fails, or if there are too many types, declarations or members.
pub fn infer<'a>(alloc: Global, program: Checked<'a>) -> Result<Contracted<'a>, ProfileError>
    ensures same { IfOk result (λ found. found.checked ≡ program.entry) }
    ensures in_profile { OnOk result (profile_offences (named_tree program.entry.named) ≡ []) }
    ensures refused { IfErr result (HasCause (λ refusal.
        Some refusal ≡ option_map refusal_of (first_offence (profile_offences (named_tree program.entry.named))))) }
{
    match profile_offence(program.named()) {
        Some(offence) => Err(ProfileError::Refused(offence.refusal())),
        None => {
            let terms = terms_of(alloc, program.named())?;
            Ok(Contracted::new(program, terms))
        }
    }
}

/// The contracts of a program.
///
/// # Errors
/// [`AllocError`] if an allocation fails, or if there are too many types, declarations or members.
fn terms_of(alloc: Global, program: &Named<'_>) -> Result<Terms, AllocError>
    ensures { IfOk result (AreTermsOf (program_tree program.now)) }
{
    let mut checker = Checker::new(alloc, program);
    let mut classes = Vec::new(alloc);
    let mut next = 0;
    for (index, declaration) in program.declarations.iter().enumerate() {
        let gathered = declaration_terms(&mut checker, in_32_bits(index)?, next, declaration)?;
        classes.push(gathered.found)?;
        next = gathered.next;
    }
    Ok(Terms {
        main: main_terms(&mut checker, next, &program.main)?,
        classes,
        made: classes_made(alloc, program)?,
    })
}
