//! The profile offences of expressions: each `destiny` in them.
ghost use Rattle.std.specs.Prelude.{◌≡◌, ◌++◌, fold, List};
ghost use Rattle.abs_tree.specs.Offences.{earlier, offence_at};
ghost use Rattle.abs_tree.specs.Syntax.{Name};
ghost use Rattle.abs_tree.specs.SyntaxViews.{branches as branch_trees, operand_trees, expr_tree, expr_trees};
ghost use Rattle.abs_profile.specs.Profile.{branches_offences, operands_offences, expr_offences, exprs_offences};

use abs_tree::{Branch, Code, Expr, Offence, Operand, Place};

/// Notes the profile offences of an expression.
#[cycle(expressions)]
pub(crate) fn note_in_expression(expr: &Expr, first: &mut Option<Offence>)
    ensures { (names : List Name) → first.new ≡ fold earlier first.old (expr_offences (expr_tree names expr.now)) }
{
    match expr {
        Expr::Destiny(place) => note_at(*place, Code::P3, first),
        Expr::Let { value, body, .. } => note_in_both(value, body, first),
        Expr::If {
            condition,
            first: chosen,
            second: other,
            ..
        } => {
            note_in_expression(condition, first);
            note_in_both(chosen, other, first);
        }
        Expr::Operators {
            first: left,
            operands,
            ..
        } => note_in_operators(left, operands, first),
        Expr::Prefixed { operand, .. } => note_in_expression(operand, first),
        Expr::Case {
            subject,
            branches,
            ..
        } => note_in_case(subject, branches, first),
        Expr::OwnCall { arguments, .. } => note_in_expressions(arguments, first),
        Expr::Apply { arguments, .. } | Expr::Build { arguments, .. } => {
            note_in_expressions(arguments, first);
        }
        Expr::Number(..)
        | Expr::Text(..)
        | Expr::Null(_)
        | Expr::This(_)
        | Expr::Field { .. }
        | Expr::Variable(..) => {}
    }
}

/// Notes those of two expressions.
#[cycle(expressions)]
fn note_in_both(one: &Expr, other: &Expr, first: &mut Option<Offence>)
    ensures { (names : List Name) → first.new ≡ fold earlier first.old
        (expr_offences (expr_tree names one.now) ++ expr_offences (expr_tree names other.now)) }
{
    note_in_expression(one, first);
    note_in_expression(other, first);
}

/// Notes those of several expressions.
#[cycle(expressions)]
pub(crate) fn note_in_expressions(exprs: &[Expr], first: &mut Option<Offence>)
    ensures { (names : List Name) → first.new ≡ fold earlier first.old (exprs_offences (expr_trees names exprs.now)) }
{
    for expr in exprs {
        note_in_expression(expr, first);
    }
}

/// Notes those of an operator list.
#[cycle(expressions)]
fn note_in_operators(left: &Expr, operands: &[Operand], first: &mut Option<Offence>)
    ensures { (names : List Name) → first.new ≡ fold earlier first.old
        (expr_offences (expr_tree names left.now) ++ operands_offences (operand_trees names operands.now)) }
{
    note_in_expression(left, first);
    for operand in operands {
        note_in_expression(&operand.right, first);
    }
}

/// Notes those of a `case`.
#[cycle(expressions)]
fn note_in_case(subject: &Expr, branches: &[Branch], first: &mut Option<Offence>)
    ensures { (names : List Name) → first.new ≡ fold earlier first.old
        (expr_offences (expr_tree names subject.now) ++ branches_offences (branch_trees names branches.now)) }
{
    note_in_expression(subject, first);
    for branch in branches {
        note_in_expression(&branch.value, first);
    }
}

/// Notes an offence with this code at this place.
pub(crate) fn note_at(place: Place, code: Code, first: &mut Option<Offence>)
    ensures { first.new ≡ fold earlier first.old (offence_at code place) }
{
    Offence { place, code }.note(first);
}
