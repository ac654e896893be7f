//! A program with its contracts.
ghost use Rattle.std.specs.Prelude.{◌≡◌, []};
ghost use Rattle.abs_profile.specs.Profile.{profile_offences};
ghost use Rattle.abs_program.specs.NamedViews.{named_tree, program_tree};
ghost use Rattle.contract_terms.specs.ProgramTerms.{AreTermsOf};

use crate::Terms;
use abs_types::Checked;

/// A checked program that has no profile offence, and its contracts.
#[derive(Drop)]
pub struct Contracted<'a> {
    pub checked: Checked<'a>,
    pub terms: Terms,
    ghost in_profile: { profile_offences (named_tree checked.named) ≡ [] },
    ghost are_terms: { ∥ AreTermsOf (program_tree checked.named) terms ∥₁ },
}

impl<'a> Contracted<'a> {
    /// A checked program that has no profile offence, with its contracts.
    pub fn new(program: Checked<'a>, terms: Terms) -> Contracted<'a>
        requires in_profile { profile_offences (named_tree program.named) ≡ [] }
        requires are_terms { AreTermsOf (program_tree program.named) terms }
        ensures program { result.checked ≡ program.entry }
        ensures terms { result.terms ≡ terms }
    {
        Contracted {
            checked: program,
            terms,
        }
    }

    /// The checked program.
    pub fn checked(&self) -> &Checked<'a>
        ensures program { result.now ≡ self.now.checked }
        ensures in_profile { profile_offences (named_tree result.now.named) ≡ [] }
    {
        &self.checked
    }

    /// The contracts.
    pub fn terms(&self) -> &Terms
        ensures same { result.now ≡ self.now.terms }
        ensures are { ∥ AreTermsOf (program_tree self.now.checked.named) result.now ∥₁ }
    {
        &self.terms
    }

    /// The checked program alone.
    pub fn into_checked(self) -> Checked<'a>
        ensures { result ≡ self.entry.checked }
    {
        self.checked
    }
}
