//! Statements. What a declaration declares is visible after it, up to the end of its block or branch.
ghost use Rattle.std.specs.Prelude.{⊤, false, not, List, Option, ◌++◌, OnOk};
ghost use Rattle.abs_tree.specs.declared.refusal.Code.TheVariants.{T5};
ghost use Rattle.abs_tree.specs.Syntax.{DeclareOf};
ghost use Rattle.abs_tree.specs.SyntaxPlaces.{expr_place};
ghost use Rattle.abs_tree.specs.SyntaxViews.{maybe_statements, expr_tree, statement as statement_tree};
ghost use Rattle.abs_tree.specs.Offences.{offence_if};
ghost use Rattle.abs_types.specs.OperatorTypes.{bool_type};
ghost use Rattle.abs_types.specs.PlainTypes.{PlainString, PlainType};
ghost use Rattle.abs_types.specs.StatementOffences.{asked_offences, else_offences, result_offences};
ghost use Rattle.abs_types.specs.TypeTables.{Keeps};
ghost use Rattle.check_fun.specs.Contexts.{Context, Knows, Noted, Stays};
ghost use Rattle.check_obj.specs.Bodies.{after, statement_offends, statements_offend, unbound};
ghost use Rattle.check_obj.specs.Visible.{Undoes};

use crate::assignments::{assigned, initial_value};
use crate::endings::filled;
use crate::guards::guard;
use crate::right_sides::right_side;
use crate::visible::{Shown, hide, show};
use abs_tree::{Code, Expr, Place, Stmt};
use check_fun::Checker;
use std::alloc::AllocError;

/// Checks the statements of a block, a branch or a body; whether they are the last of a method's body.
///
/// # Errors
/// [`AllocError`] if an allocation fails, or if there are too many types. So it is for each function here.
#[cycle(statements)]
pub(crate) fn statements(
    checker: &mut Checker<'_>,
    is_last: bool,
    stmts: &[Stmt],
) -> Result<(), AllocError>
    ensures noted { (context : Context) → Knows checker.old (unbound context)
        → OnOk result (Noted checker.old.first (statements_offend context is_last stmts.now) checker.new.first) }
    ensures stays { OnOk result (Stays checker.old checker.new) }
{
    let filled = if is_last { filled(stmts) } else { 0 };
    let mut shown = Vec::new(checker.table.alloc);
    for (index, stmt) in stmts.iter().enumerate() {
        statement(checker, is_last && filled <= index + 1, stmt, &mut shown)?;
    }
    hide(checker, shown);
    Ok(())
}

/// Checks a statement; whether it is the last of a method's body.
#[cycle(statements)]
fn statement(
    checker: &mut Checker<'_>,
    is_last: bool,
    stmt: &Stmt,
    shown: &mut Vec<Shown>,
) -> Result<(), AllocError>
    ensures noted { (context : Context) → Knows checker.old (unbound context)
        → OnOk result (Noted checker.old.first (statement_offends context is_last stmt.now) checker.new.first) }
    ensures knows { (context : Context) → Knows checker.old context
        → OnOk result (Knows checker.new (after context stmt.now)) }
    ensures undoes { (slots : List (Option PlainType)) → Undoes checker.old shown.old.items slots
        → OnOk result (Undoes checker.new shown.new.items slots) }
    ensures keeps { OnOk result (Keeps checker.old.table checker.new.table) }
{
    match stmt {
        Stmt::Declare {
            type_of,
            variable_place,
            variable,
            initial,
            ..
        } => {
            let declared = checker.written(type_of)?;
            initial_value(checker, declared, *variable_place, initial)?;
            show(checker, *variable, declared, shown)
        }
        _ => other_statement(checker, is_last, stmt),
    }
}

/// Checks a statement that declares nothing.
#[cycle(statements)]
fn other_statement(checker: &mut Checker<'_>, is_last: bool, stmt: &Stmt) -> Result<(), AllocError>
    requires { elim (statement_tree checker.old.table.program.now.symbols stmt.now) [
      | DeclareOf _ _ _ _ _ _ ↦ ⊥
      | _ ↦ ⊤
    ] }
    ensures noted { (context : Context) → Knows checker.old (unbound context)
        → OnOk result (Noted checker.old.first (statement_offends context is_last stmt.now) checker.new.first) }
    ensures stays { OnOk result (Stays checker.old checker.new) }
{
    match stmt {
        Stmt::Block(_, block) => statements(checker, is_last, block),
        Stmt::Await { guard: tests, .. } => guard(checker, tests),
        Stmt::Return { place, value, .. } => returned(checker, is_last, *place, value),
        Stmt::Print { place, value, .. } => printed(checker, *place, value),
        Stmt::If {
            condition,
            first,
            second,
            ..
        } => if_else(checker, condition, first, second),
        Stmt::While {
            condition,
            body,
            ..
        } => while_do(checker, condition, body),
        Stmt::Assign { target, side, .. } => assigned(checker, *target, side),
        Stmt::Do { side, .. } => {
            right_side(checker, side)?;
            Ok(())
        }
        Stmt::Skip { .. } | Stmt::Suspend { .. } => Ok(()),
        Stmt::Declare { .. } => unreachable!(),
    }
}

/// Checks a condition and its branches.
#[cycle(statements)]
fn if_else(
    checker: &mut Checker<'_>,
    condition: &Expr,
    first: &[Stmt],
    second: &Option<Vec<Stmt>>,
) -> Result<(), AllocError>
    ensures noted { (context : Context) → Knows checker.old (unbound context) → OnOk result (Noted checker.old.first
        (asked_offences context.declarations context.frame (expr_tree context.names condition.now) bool_type
        (expr_place (expr_tree context.names condition.now))
        ++ statements_offend context false first.now
        ++ else_offences context.declarations context.frame (maybe_statements context.names second.now))
        checker.new.first) }
    ensures stays { OnOk result (Stays checker.old checker.new) }
{
    check_condition(checker, condition)?;
    statements(checker, false, first)?;
    match second {
        Some(second) => statements(checker, false, second),
        None => Ok(()),
    }
}

/// Checks a condition and what is done while it holds.
#[cycle(statements)]
fn while_do(checker: &mut Checker<'_>, condition: &Expr, body: &[Stmt]) -> Result<(), AllocError>
    ensures noted { (context : Context) → Knows checker.old (unbound context) → OnOk result (Noted checker.old.first
        (asked_offences context.declarations context.frame (expr_tree context.names condition.now) bool_type
        (expr_place (expr_tree context.names condition.now)) ++ statements_offend context false body.now)
        checker.new.first) }
    ensures stays { OnOk result (Stays checker.old checker.new) }
{
    check_condition(checker, condition)?;
    statements(checker, false, body)
}

/// Checks a condition, which is a `Bool`.
fn check_condition(checker: &mut Checker<'_>, condition: &Expr) -> Result<(), AllocError>
    ensures noted { (context : Context) → Knows checker.old (unbound context) → OnOk result (Noted checker.old.first
        (asked_offences context.declarations context.frame (expr_tree context.names condition.now) bool_type
        (expr_place (expr_tree context.names condition.now))) checker.new.first) }
    ensures stays { OnOk result (Stays checker.old checker.new) }
{
    let bool = checker.bool()?;
    checker.asked(condition, bool, condition.place())
}

/// Checks what is printed, which is a `String`.
fn printed(checker: &mut Checker<'_>, place: Place, value: &Expr) -> Result<(), AllocError>
    ensures noted { (context : Context) → Knows checker.old (unbound context) → OnOk result (Noted checker.old.first
        (asked_offences context.declarations context.frame (expr_tree context.names value.now) PlainString place)
        checker.new.first) }
    ensures stays { OnOk result (Stays checker.old checker.new) }
{
    let string = checker.string()?;
    checker.asked(value, string, place)
}

/// Checks a `return`; whether it is the last statement of a method's body.
fn returned(
    checker: &mut Checker<'_>,
    is_last: bool,
    place: Place,
    value: &Expr,
) -> Result<(), AllocError>
    ensures noted { (context : Context) → Knows checker.old (unbound context) → OnOk result (Noted checker.old.first
        (offence_if (not is_last) T5 place ++ result_offences context.declarations context.frame
        (expr_tree context.names value.now) context.frame.task) checker.new.first) }
    ensures stays { OnOk result (Stays checker.old checker.new) }
{
    checker.note_if(!is_last, Code::T5, place);
    match checker.task() {
        Some(gives) => checker.asked(value, gives, value.place()),
        None => {
            checker.note_if(true, Code::T1, value.place());
            Ok(())
        }
    }
}
