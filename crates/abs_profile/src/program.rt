//! The first profile offence of a program.
ghost use Rattle.std.specs.Prelude.{◌≡◌};
ghost use Rattle.abs_tree.specs.Offences.{first_offence};
ghost use Rattle.abs_program.specs.NamedViews.{named_tree};
ghost use Rattle.abs_profile.specs.Profile.{profile_offences};

use crate::declarations::note_in_declarations;
use crate::statements::note_in_statements;
use abs_program::Named;
use abs_tree::Offence;

/// The first profile offence of a program, or `None` if it has none.
pub fn profile_offence(program: &Named<'_>) -> Option<Offence>
    ensures { result ≡ first_offence (profile_offences (named_tree program.now)) }
{
    let mut first = None;
    note_in_declarations(&program.declarations, &mut first);
    note_in_statements(&program.main.statements, &mut first);
    first
}
