//! Laws of the definitions, which hold whatever the code does.
ghost use Rattle.std.specs.Prelude.{◌≡◌, ◌↔◌, List, Some};
ghost use Rattle.abs_tree.specs.declared.refusal.Offence.{Offence as OffenceAt};
ghost use Rattle.abs_tree.specs.Names.{number_of_name, name_of};
ghost use Rattle.abs_tree.specs.Offences.{first_offence, IsFirst};

use crate::{Symbol, Symbols};

/// The first one of several offences is one of them, and none of them comes before it. No other one of them is like
/// that, so the order of a list of offences does not matter.
pub fn first_is_least()
    ensures { (offences : List OffenceAt) (offence : OffenceAt)
        → (first_offence offences ≡ Some offence) ↔ IsFirst offences offence }
{}

/// Two symbols have the same number in a table exactly where they have the same name there. A symbol that the table
/// does not have has the empty name.
pub fn numbers_tell_names(symbols: &Symbols<'_>, one: Symbol, other: Symbol)
    ensures { (number_of_name symbols.now (name_of symbols.now one)
        ≡ number_of_name symbols.now (name_of symbols.now other))
        ↔ (name_of symbols.now one ≡ name_of symbols.now other) }
{}
