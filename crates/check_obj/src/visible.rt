//! The locals of a block: each is visible after its declaration, up to the end of the block.
ghost use Rattle.std.specs.Prelude.{◌≡◌, All, List, Option, Some, OnOk};
ghost use Rattle.abs_tree.specs.SyntaxViews.{variable_tree};
ghost use Rattle.abs_types.specs.PlainTypes.{PlainType};
ghost use Rattle.abs_types.specs.StatementOffences.{with_variable};
ghost use Rattle.check_fun.specs.Contexts.{with_slots, Context, Finds, Found, Knows};
ghost use Rattle.check_obj.specs.Visible.{Undoes};

use abs_tree::Variable;
use abs_types::TypeIndex;
use check_fun::Checker;
use std::alloc::AllocError;

/// A slot that became visible, and what it had before.
#[derive(Clone, Copy, Debug, PartialEq, Eq)]
pub(crate) struct Shown {
    pub(crate) slot: u32,
    pub(crate) was: Option<TypeIndex>,
}

/// Makes a local visible, which is of a type.
///
/// # Errors
/// [`AllocError`] if an allocation fails.
pub(crate) fn show(
    checker: &mut Checker<'_>,
    variable: Variable,
    found: TypeIndex,
    shown: &mut Vec<Shown>,
) -> Result<(), AllocError>
    requires { Found checker.old (Some found) }
    ensures knows { (context : Context) (type : PlainType) → Knows checker.old context
        → Finds checker.old (Some found) (Some type) → OnOk result (Knows checker.new (record context {
          frame = with_variable context.frame (variable_tree context.names variable) type;
        })) }
    ensures undoes { (slots : List (Option PlainType)) → Undoes checker.old shown.old.items slots
        → OnOk result (Undoes checker.new shown.new.items slots) }
    ensures first { checker.new.first ≡ checker.old.first }
    ensures table { checker.new.table ≡ checker.old.table }
{
    if let Variable::Slot(slot) = variable {
        let was = checker.set_slot(slot, Some(found));
        shown.push(Shown { slot, was })?;
    }
    Ok(())
}

/// Makes all slots as they were before these became visible.
pub(crate) fn hide(checker: &mut Checker<'_>, mut shown: Vec<Shown>)
    requires { All (λ one. Found checker.old one.was) shown.items }
    ensures knows { (context : Context) (slots : List (Option PlainType)) → Knows checker.old context
        → Undoes checker.old shown.items slots → Knows checker.new (with_slots context slots) }
    ensures first { checker.new.first ≡ checker.old.first }
    ensures table { checker.new.table ≡ checker.old.table }
{
    while let Some(Shown { slot, was }) = shown.pop() {
        checker.set_slot(slot, was);
    }
}
