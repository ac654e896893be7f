//! The profile offences of statements: a part of a guard without `?`, `destiny`, a call by `.` on another receiver than
//! `this`, and `local`.
ghost use Rattle.std.specs.Prelude.{◌≡◌, fold, List};
ghost use Rattle.abs_tree.specs.Offences.{earlier};
ghost use Rattle.abs_tree.specs.Syntax.{Name};
ghost use Rattle.abs_tree.specs.SyntaxViews.{maybe_side, maybe_statements, expr_tree, expr_trees, side_tree, statement, statements, tests};
ghost use Rattle.abs_profile.specs.Profile.{else_offences, guard_offences, initial_offences, mode_offences, receiver_offences, side_offences, statement_offences, statements_offences, test_offences};

use crate::expressions::{note_at, note_in_expression, note_in_expressions};
use abs_tree::{Code, Expr, Mode, Offence, Place, RightSide, Stmt, Test};

/// Notes the profile offences of statements.
#[cycle(statements)]
pub(crate) fn note_in_statements(stmts: &[Stmt], first: &mut Option<Offence>)
    ensures { (names : List Name) → first.new
        ≡ fold earlier first.old (statements_offences (statements names stmts.now)) }
{
    for stmt in stmts {
        note_in_statement(stmt, first);
    }
}

/// Notes those of a statement.
#[cycle(statements)]
fn note_in_statement(stmt: &Stmt, first: &mut Option<Offence>)
    ensures { (names : List Name) → first.new ≡ fold earlier first.old (statement_offences (statement names stmt.now)) }
{
    match stmt {
        Stmt::Block(_, block) => note_in_statements(block, first),
        Stmt::Skip { .. } | Stmt::Suspend { .. } => {}
        Stmt::Await { guard, .. } => note_in_guard(guard, first),
        Stmt::Return { value, .. } | Stmt::Print { value, .. } => note_in_expression(value, first),
        Stmt::If {
            condition,
            first: chosen,
            second: other,
            ..
        } => {
            note_in_expression(condition, first);
            note_in_statements(chosen, first);
            note_in_else(other, first);
        }
        Stmt::While {
            condition,
            body,
            ..
        } => {
            note_in_expression(condition, first);
            note_in_statements(body, first);
        }
        Stmt::Declare { initial, .. } => note_in_initial(initial, first),
        Stmt::Assign { side, .. } | Stmt::Do { side, .. } => note_in_side(side, first),
    }
}

/// Notes those of the second branch of an `if`, if there is one.
#[cycle(statements)]
fn note_in_else(branch: &Option<Vec<Stmt>>, first: &mut Option<Offence>)
    ensures { (names : List Name) → first.new
        ≡ fold earlier first.old (else_offences (maybe_statements names branch.now)) }
{
    if let Some(branch) = branch {
        note_in_statements(branch, first);
    }
}

/// Notes those of the value of a declaration, if it has one.
fn note_in_initial(initial: &Option<RightSide>, first: &mut Option<Offence>)
    ensures { (names : List Name) → first.new
        ≡ fold earlier first.old (initial_offences (maybe_side names initial.now)) }
{
    if let Some(side) = initial {
        note_in_side(side, first);
    }
}

/// Notes those of a guard.
fn note_in_guard(guard: &[Test], first: &mut Option<Offence>)
    ensures { (names : List Name) → first.new ≡ fold earlier first.old (guard_offences (tests names guard.now)) }
{
    for test in guard {
        note_in_test(test, first);
    }
}

/// Notes those of a part of a guard: without `?` it offends itself.
fn note_in_test(test: &Test, first: &mut Option<Offence>)
    ensures { (names : List Name) → first.new ≡ fold earlier first.old
        (test_offences test.now.place (expr_tree names test.now.value.value) test.now.asks) }
{
    if !test.asks {
        note_at(test.place, Code::P1, first);
    }
    note_in_expression(&test.value, first);
}

/// Notes those of a right side.
fn note_in_side(side: &RightSide, first: &mut Option<Offence>)
    ensures { (names : List Name) → first.new ≡ fold earlier first.old (side_offences (side_tree names side.now)) }
{
    match side {
        RightSide::New {
            mode,
            arguments,
            ..
        } => {
            note_mode(*mode, first);
            note_in_expressions(arguments, first);
        }
        RightSide::Value(_, value) => note_in_expression(value, first),
        RightSide::Send { operands, .. } => note_in_expressions(operands, first),
        RightSide::Get { future, .. } => note_in_expression(future, first),
        RightSide::Call {
            place,
            operands,
            ..
        } => {
            note_receiver(*place, operands, first);
            note_in_expressions(operands, first);
        }
    }
}

/// Notes a call by `.` that begins at this place, if its receiver, the first of the operands, is not `this`.
fn note_receiver(place: Place, operands: &[Expr], first: &mut Option<Offence>)
    ensures { (names : List Name) → first.new
        ≡ fold earlier first.old (receiver_offences place (expr_trees names operands.now)) }
{
    match operands.first() {
        Some(Expr::This(_)) => {}
        _ => note_at(place, Code::P4, first),
    }
}

/// Notes `local`, if a new object has it.
fn note_mode(mode: Mode, first: &mut Option<Offence>)
    ensures { first.new ≡ fold earlier first.old (mode_offences mode) }
{
    if let Mode::Local(place) = mode {
        note_at(place, Code::P5, first);
    }
}
