//! What a program without an offence is.
ghost use Rattle.std.specs.Prelude.{◌≡◌, []};
ghost use Rattle.abs_program.specs.NamedViews.{named_tree, program_tree};
ghost use Rattle.abs_profile.specs.Accepted.{IsAcceptedProgram};
ghost use Rattle.abs_profile.specs.Profile.{profile_offences};

use abs_types::Checked;

/// A program that has no offence by its types is accepted if it has none of the profile either.
pub fn checked_is_accepted(program: &Checked<'_>)
    requires { profile_offences (named_tree program.now.named) ≡ [] }
    ensures { ∥ IsAcceptedProgram (program_tree program.now.named) ∥₁ }
{}
