//! Guards of `await`.
ghost use Rattle.std.specs.Prelude.{OnOk};
ghost use Rattle.abs_tree.specs.SyntaxViews.{expr_tree};
ghost use Rattle.abs_types.specs.StatementOffences.{part_offences};
ghost use Rattle.check_fun.specs.Contexts.{Context, Knows, Noted, Stays};
ghost use Rattle.check_obj.specs.Bodies.{guard_offends, unbound};

use crate::right_sides::value_in;
use abs_tree::{Code, Test};
use check_fun::Checker;
use std::alloc::AllocError;

/// Checks the parts of a guard.
///
/// # Errors
/// [`AllocError`] if an allocation fails, or if there are too many types.
pub(crate) fn guard(checker: &mut Checker<'_>, tests: &[Test]) -> Result<(), AllocError>
    ensures noted { (context : Context) → Knows checker.old (unbound context)
        → OnOk result (Noted checker.old.first (guard_offends context tests.now) checker.new.first) }
    ensures stays { OnOk result (Stays checker.old checker.new) }
{
    for test in tests {
        part(checker, test)?;
    }
    Ok(())
}

/// Checks a part of a guard: with `?` it is a future that a parameter or a local has, without it a `Bool`.
///
/// # Errors
/// [`AllocError`] if an allocation fails, or if there are too many types.
fn part(checker: &mut Checker<'_>, test: &Test) -> Result<(), AllocError>
    ensures noted { (context : Context) → Knows checker.old (unbound context) → OnOk result (Noted checker.old.first
        (part_offences context.declarations context.frame test.now.place (expr_tree context.names test.now.value.value)
        test.now.asks) checker.new.first) }
    ensures stays { OnOk result (Stays checker.old checker.new) }
{
    if test.asks {
        checker.expression(&test.value)?;
        let found = value_in(checker, &test.value);
        checker.note_if(found.is_none(), Code::T1, test.place);
        return Ok(());
    }
    let bool = checker.bool()?;
    checker.asked(&test.value, bool, test.place)
}
