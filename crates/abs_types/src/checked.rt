//! A program that is accepted.
ghost use Rattle.std.specs.Prelude.{◌≡◌, []};
ghost use Rattle.abs_program.specs.NamedViews.{named_tree};
ghost use Rattle.abs_types.specs.TypeOffences.{type_offences};

use abs_program::Named;

/// A resolved program whose types have no offence, so it is well typed
/// ([`programs_are_typed`](crate::programs_are_typed)).
#[derive(Drop)]
pub struct Checked<'a> {
    pub named: Named<'a>,
    ghost accepted: { type_offences (named_tree named) ≡ [] },
}

impl<'a> Checked<'a> {
    /// A resolved program that has no offence by its types.
    pub fn new(named: Named<'a>) -> Checked<'a>
        requires { type_offences (named_tree named) ≡ [] }
        ensures { result.named ≡ named.entry }
    {
        Checked { named }
    }

    /// The resolved program.
    pub fn named(&self) -> &Named<'a>
        ensures program { result.now ≡ self.now.named }
        ensures accepted { type_offences (named_tree result.now) ≡ [] }
    {
        &self.named
    }
}
