//! What a statement evaluates, and what happens with the values.
ghost use Rattle.std.specs.Prelude.{◌≡◌, List, Some, IfOk};
ghost use Rattle.std.specs.Option.{option_map};
ghost use Rattle.abs_program.specs.InstructionViews.{exprs_tree, effect_tree};
ghost use Rattle.abs_program.specs.Instructions.{slot_of as slot_of_expr, waits_of, target_variable as variable_of_target, side_expr_trees, side_effect as effect_of_side, expr_trees_of, effect_of as effect_of_statement};
ghost use Rattle.abs_program.specs.MadeInstructions.{begins_with_this};
ghost use Rattle.abs_tree.specs.Syntax.{Name, ValueOf};
ghost use Rattle.abs_tree.specs.SyntaxViews.{variable_tree, expr_tree, expr_trees, side_tree, tests, target_tree, statement};
ghost use Rattle.abs_tree.specs.declared.place.Place.{Place as PlaceTree};

use crate::tables::control::{Effect, Exprs};
use abs_tree::syntax::{Expr, RightSide, Stmt, Target, Test, Variable};
use std::alloc::{AllocError, Global};
use std::sync::Arc;

/// The slot that an expression is, if it is one.
fn slot_of(expr: &Expr) -> Option<u32>
    ensures { (names : List Name) → result ≡ slot_of_expr (expr_tree names expr.now) }
{
    match expr {
        Expr::Variable(_, Variable::Slot(slot)) => Some(*slot),
        _ => None,
    }
}

/// The slots that a guard names: those of its parts that a `?` follows.
///
/// # Errors
/// [`AllocError`] if an allocation fails.
fn awaited(alloc: Global, guard: &[Test]) -> Result<Vec<Option<u32>>, AllocError>
    ensures { (names : List Name) → IfOk result (λ slots. slots.items ≡ waits_of (tests names guard.now)) }
{
    let mut slots = Vec::new(alloc);
    for test in guard {
        if test.asks {
            slots.push(slot_of(&test.value))?;
        }
    }
    Ok(slots)
}

/// The variable that a target is.
fn variable_of(target: Target) -> Variable
    ensures { (names : List Name) → variable_tree names result ≡ variable_of_target (target_tree names target) }
{
    match target {
        Target::Variable(_, variable) => variable,
        Target::Field { name, .. } => Variable::Unresolved(name),
    }
}

/// Whether the receiver of a call, the first one of its operands, is `this`.
fn is_own(operands: &[Expr]) -> bool
    ensures { (names : List Name) → result ≡ begins_with_this (expr_trees names operands.now) }
{
    matches!(operands.first(), Some(Expr::This(_)))
}

/// The expressions of a right side that is an expression: the operands of a call on `this`, or else itself.
///
/// # Errors
/// [`AllocError`] if there are as many copies already as can be counted.
fn value_exprs(value: &Arc<Expr>) -> Result<Exprs, AllocError>
    ensures { (names : List Name) (place : PlaceTree) → IfOk result (λ exprs. exprs_tree names exprs
        ≡ side_expr_trees (ValueOf place (expr_tree names value.now.value))) }
{
    match &**value {
        Expr::OwnCall { arguments, .. } => Ok(Exprs::Several(arguments.clone()?)),
        _ => Ok(Exprs::One(value.clone()?)),
    }
}

/// The expressions of a right side.
///
/// # Errors
/// [`AllocError`] if there are as many copies already as can be counted.
fn side_exprs(side: &RightSide) -> Result<Exprs, AllocError>
    ensures { (names : List Name) → IfOk result (λ exprs. exprs_tree names exprs
        ≡ side_expr_trees (side_tree names side.now)) }
{
    match side {
        RightSide::New { arguments, .. } => Ok(Exprs::Several(arguments.clone()?)),
        RightSide::Value(_, value) => value_exprs(value),
        RightSide::Get { .. } => Ok(Exprs::None),
        RightSide::Call { operands, .. } if is_own(operands.as_slice()) => {
            Ok(Exprs::Arguments(operands.clone()?))
        }
        RightSide::Send { operands, .. } | RightSide::Call { operands, .. } => Ok(Exprs::Several(
            operands.clone()?,
        )),
    }
}

/// The expressions of a statement, which the instruction shares.
///
/// # Errors
/// [`AllocError`] if there are as many copies already as can be counted.
pub(crate) fn exprs_of(stmt: &Stmt) -> Result<Exprs, AllocError>
    ensures { (names : List Name) → IfOk result (λ exprs. exprs_tree names exprs
        ≡ expr_trees_of (statement names stmt.now)) }
{
    match stmt {
        Stmt::Return { value, .. } | Stmt::Print { value, .. } => Ok(Exprs::One(value.clone()?)),
        Stmt::If { condition, .. } | Stmt::While { condition, .. } => {
            Ok(Exprs::One(condition.clone()?))
        }
        Stmt::Declare {
            initial: Some(side),
            ..
        } => side_exprs(side),
        Stmt::Assign { side, .. } => side_exprs(side),
        Stmt::Do { side, .. } => side_exprs(side),
        Stmt::Block(..)
        | Stmt::Skip { .. }
        | Stmt::Suspend { .. }
        | Stmt::Await { .. }
        | Stmt::Declare { initial: None, .. } => Ok(Exprs::None),
    }
}

/// What happens with the value of a right side that is an expression.
fn value_effect(value: &Expr, target: Option<Variable>) -> Effect
    ensures { (names : List Name) (place : PlaceTree) → effect_tree names result
        ≡ effect_of_side (ValueOf place (expr_tree names value.now)) (option_map (variable_tree names) target) }
{
    match value {
        Expr::OwnCall { method, .. } => Effect::CallOwn {
            method: *method,
            target,
        },
        _ => Effect::Store(target),
    }
}

/// What happens with the values of a right side, if its value goes to this target.
fn side_effect(side: &RightSide, target: Option<Variable>) -> Effect
    ensures { (names : List Name) → effect_tree names result
        ≡ effect_of_side (side_tree names side.now) (option_map (variable_tree names) target) }
{
    match side {
        RightSide::New { mode, class, .. } => Effect::Make {
            mode: *mode,
            class: *class,
            target,
        },
        RightSide::Value(_, value) => value_effect(value, target),
        RightSide::Send { method, .. } => Effect::Send {
            method: *method,
            target,
        },
        RightSide::Get { future, .. } => Effect::Get {
            slot: slot_of(future),
            target,
        },
        RightSide::Call {
            method,
            operands,
            ..
        } if is_own(operands.as_slice()) => Effect::CallOwn {
            method: *method,
            target,
        },
        RightSide::Call { method, slot, .. } => Effect::CallOther {
            method: *method,
            slot: *slot,
            target,
        },
    }
}

/// What happens with the values of a statement's expressions. A block has no effect of its own.
///
/// # Errors
/// [`AllocError`] if an allocation fails.
pub(crate) fn effect_of(alloc: Global, stmt: &Stmt) -> Result<Effect, AllocError>
    ensures { (names : List Name) → IfOk result (λ effect. effect_tree names effect
        ≡ effect_of_statement (statement names stmt.now)) }
{
    match stmt {
        Stmt::Block(..) | Stmt::Skip { .. } => Ok(Effect::Skip),
        Stmt::Suspend { .. } => Ok(Effect::Suspend),
        Stmt::Await { guard, .. } => Ok(Effect::Await(awaited(alloc, guard.as_slice())?)),
        Stmt::Return { .. } => Ok(Effect::Return),
        Stmt::Print { .. } => Ok(Effect::Print),
        Stmt::If { .. } | Stmt::While { .. } => Ok(Effect::Choose),
        Stmt::Declare {
            variable,
            initial: None,
            ..
        } => Ok(Effect::Clear(*variable)),
        Stmt::Declare {
            variable,
            initial: Some(side),
            ..
        } => Ok(side_effect(side, Some(*variable))),
        Stmt::Assign { target, side, .. } => Ok(side_effect(side, Some(variable_of(*target)))),
        Stmt::Do { side, .. } => Ok(side_effect(side, None)),
    }
}
