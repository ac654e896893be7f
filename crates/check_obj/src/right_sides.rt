//! Right sides: each has its type, or what offends in it is noted.
ghost use Rattle.std.specs.Prelude.{◌≡◌, ◌++◌, List, Option, Some, option_map, is_none, length, IfOk, OnOk};
ghost use Rattle.abs_tree.specs.Names.{name_of};
ghost use Rattle.abs_tree.specs.Syntax.{Name, OwnCallOf, VariableOf};
ghost use Rattle.abs_tree.specs.SyntaxViews.{expr_tree, expr_trees, side_tree, variable_tree};
ghost use Rattle.abs_tree.specs.declared.place.Place.{Place as PlaceOf};
ghost use Rattle.abs_types.specs.Mistyped.{mistyped_if};
ghost use Rattle.abs_types.specs.PlainTypes.{PlainFut, PlainType};
ghost use Rattle.abs_types.specs.SideTypes.{called_type, call_offences, future_type, offences_by_operands, type_by_operands, value_type, whole_offences, whole_type};
ghost use Rattle.abs_types.specs.StatementOffences.{unfit_place as place_of_unfit};
ghost use Rattle.check_fun.specs.Contexts.{items_of, offends, Context, FindsAll, Finds, FoundAll, Found, Knows, Noted, Stays};
ghost use Rattle.check_obj.specs.Bodies.{IsNoCall, side_fits, side_offends, side_typed, unbound};

use crate::calls::{first_taking, methods_called};
use crate::creations::creation;
use abs_tree::{Code, Expr, Place, RightSide, Symbol, Variable};
use abs_types::{Shape, TypeIndex};
use check_fun::Checker;
use std::alloc::AllocError;

/// Checks a right side, and that its type fits the one that is asked for.
///
/// # Errors
/// [`AllocError`] if an allocation fails, or if there are too many types. So it is for each function here.
pub(crate) fn fitting_side(
    checker: &mut Checker<'_>,
    side: &RightSide,
    asked: TypeIndex,
) -> Result<(), AllocError>
    requires { Found checker.old (Some asked) }
    ensures noted { (context : Context) (type : PlainType) → Knows checker.old (unbound context)
        → Finds checker.old (Some asked) (Some type)
        → OnOk result (Noted checker.old.first (side_fits context side.now type) checker.new.first) }
    ensures stays { OnOk result (Stays checker.old checker.new) }
{
    let found = right_side(checker, side)?;
    checker.note_unfit(found, asked, unfit_place(side));
    Ok(())
}

/// Where a right side offends that does not fit: an expression at its own place, without parentheses around it.
fn unfit_place(side: &RightSide) -> Place
    ensures { (names : List Name) → result ≡ place_of_unfit (side_tree names side.now) }
{
    match side {
        RightSide::Value(_, value) => value.place(),
        RightSide::New { place, .. }
        | RightSide::Send { place, .. }
        | RightSide::Get { place, .. }
        | RightSide::Call { place, .. } => *place,
    }
}

/// The type of a right side, if it has one. What offends in it is noted.
pub(crate) fn right_side(
    checker: &mut Checker<'_>,
    side: &RightSide,
) -> Result<Option<TypeIndex>, AllocError>
    ensures found { (context : Context) → Knows checker.old (unbound context)
        → IfOk result (λ found. Finds checker.new found (side_typed context side.now)) }
    ensures noted { (context : Context) → Knows checker.old (unbound context)
        → OnOk result (Noted checker.old.first (side_offends context side.now) checker.new.first) }
    ensures there { IfOk result (λ found. Found checker.new found) }
    ensures stays { OnOk result (Stays checker.old checker.new) }
{
    match side {
        RightSide::New {
            place,
            class,
            arguments,
            ..
        } => creation(checker, *place, *class, arguments),
        RightSide::Value(_, value) => whole(checker, value),
        RightSide::Send {
            place,
            method,
            operands,
        } => sent(checker, *place, *method, operands),
        RightSide::Get { place, future, .. } => value_got(checker, *place, future),
        RightSide::Call {
            place,
            method,
            operands,
            ..
        } => call_by_operands(checker, *place, *method, operands),
    }
}

/// The type of an expression that is a whole right side.
fn whole(checker: &mut Checker<'_>, value: &Expr) -> Result<Option<TypeIndex>, AllocError>
    ensures found { (context : Context) → Knows checker.old (unbound context)
        → IfOk result (λ found. Finds checker.new found
        (whole_type context.declarations context.frame (expr_tree context.names value.now))) }
    ensures noted { (context : Context) → Knows checker.old (unbound context) → OnOk result (Noted checker.old.first
        (whole_offences context.declarations context.frame (expr_tree context.names value.now)) checker.new.first) }
    ensures there { IfOk result (λ found. Found checker.new found) }
    ensures stays { OnOk result (Stays checker.old checker.new) }
{
    match value {
        Expr::OwnCall {
            place,
            method,
            arguments,
        } => own_call(checker, *place, *method, arguments),
        _ => other_value(checker, value),
    }
}

/// The type of an expression that is a whole right side and no call on `this`.
fn other_value(checker: &mut Checker<'_>, value: &Expr) -> Result<Option<TypeIndex>, AllocError>
    requires { IsNoCall (expr_tree checker.old.table.program.now.symbols value.now) }
    ensures found { (context : Context) → Knows checker.old (unbound context)
        → IfOk result (λ found. Finds checker.new found
        (whole_type context.declarations context.frame (expr_tree context.names value.now))) }
    ensures noted { (context : Context) → Knows checker.old (unbound context) → OnOk result (Noted checker.old.first
        (whole_offences context.declarations context.frame (expr_tree context.names value.now)) checker.new.first) }
    ensures there { IfOk result (λ found. Found checker.new found) }
    ensures stays { OnOk result (Stays checker.old checker.new) }
{
    checker.expression(value)
}

/// The type of what a call on `this` gives that is a whole right side. Outside of a class there is no such method.
fn own_call(
    checker: &mut Checker<'_>,
    place: Place,
    method: Symbol,
    arguments: &[Expr],
) -> Result<Option<TypeIndex>, AllocError>
    ensures found { (context : Context) → Knows checker.old (unbound context)
        → IfOk result (λ found. Finds checker.new found (whole_type context.declarations context.frame
        (OwnCallOf place (name_of context.names method) (expr_trees context.names arguments.now)))) }
    ensures noted { (context : Context) → Knows checker.old (unbound context) → OnOk result (Noted checker.old.first
        (whole_offences context.declarations context.frame
        (OwnCallOf place (name_of context.names method) (expr_trees context.names arguments.now))) checker.new.first) }
    ensures there { IfOk result (λ found. Found checker.new found) }
    ensures stays { OnOk result (Stays checker.old checker.new) }
{
    let given = checker.arguments(arguments)?;
    let receiver = checker.this_class()?;
    checker.note_if(receiver.is_none(), Code::T2, place);
    call(checker, place, receiver, method, arguments.len(), given)
}

/// The type of what a call by `!` gives.
fn sent(
    checker: &mut Checker<'_>,
    place: Place,
    method: Symbol,
    operands: &[Expr],
) -> Result<Option<TypeIndex>, AllocError>
    ensures found { (context : Context) → Knows checker.old (unbound context)
        → IfOk result (λ found. Finds checker.new found (option_map PlainFut (type_by_operands context.declarations
        context.frame (name_of context.names method) (expr_trees context.names operands.now)))) }
    ensures noted { (context : Context) → Knows checker.old (unbound context) → OnOk result (Noted checker.old.first
        (offences_by_operands context.declarations context.frame place (name_of context.names method)
        (expr_trees context.names operands.now)) checker.new.first) }
    ensures there { IfOk result (λ found. Found checker.new found) }
    ensures stays { OnOk result (Stays checker.old checker.new) }
{
    match call_by_operands(checker, place, method, operands)? {
        Some(gives) => Ok(Some(checker.future(gives)?)),
        None => Ok(None),
    }
}

/// The type of what a call gives, by its operands: its receiver, followed by its arguments.
fn call_by_operands(
    checker: &mut Checker<'_>,
    place: Place,
    method: Symbol,
    operands: &[Expr],
) -> Result<Option<TypeIndex>, AllocError>
    ensures found { (context : Context) → Knows checker.old (unbound context)
        → IfOk result (λ found. Finds checker.new found (type_by_operands context.declarations context.frame
        (name_of context.names method) (expr_trees context.names operands.now))) }
    ensures noted { (context : Context) → Knows checker.old (unbound context) → OnOk result (Noted checker.old.first
        (offences_by_operands context.declarations context.frame place (name_of context.names method)
        (expr_trees context.names operands.now)) checker.new.first) }
    ensures there { IfOk result (λ found. Found checker.new found) }
    ensures stays { OnOk result (Stays checker.old checker.new) }
{
    let Some((receiver, arguments)) = operands.split_first() else {
        checker.note_if(true, Code::T1, place);
        return Ok(None);
    };
    let object = checker.expression(receiver)?;
    let given = checker.arguments(arguments)?;
    call(checker, place, object, method, arguments.len(), given)
}

/// The type of what a call gives, if its receiver and its arguments have types. It is noted if the receiver has no such
/// method, and else if none takes the arguments.
fn call(
    checker: &mut Checker<'_>,
    place: Place,
    receiver: Option<TypeIndex>,
    method: Symbol,
    count: usize,
    given: Option<Vec<TypeIndex>>,
) -> Result<Option<TypeIndex>, AllocError>
    requires receiver { Found checker.old receiver }
    requires given { FoundAll checker.old (items_of given) }
    requires count { (types : List TypeIndex) → items_of given ≡ Some types → count ≡ length types }
    ensures found { (context : Context) (object : Option PlainType) (types : Option (List PlainType))
        → Knows checker.old context → Finds checker.old receiver object → FindsAll checker.old (items_of given) types
        → IfOk result (λ found. Finds checker.new found
        (called_type context.declarations object (name_of context.names method) types)) }
    ensures noted { (context : Context) (object : Option PlainType) (types : Option (List PlainType))
        → Knows checker.old context → Finds checker.old receiver object → FindsAll checker.old (items_of given) types
        → OnOk result (Noted checker.old.first (call_offences context.declarations object (name_of context.names method)
        count types place) checker.new.first) }
    ensures stays { OnOk result (Stays checker.old checker.new) }
{
    let Some(receiver) = receiver else {
        return Ok(None);
    };
    let (alloc, program) = (checker.table.alloc, checker.table.program);
    let methods = methods_called(alloc, program, checker.head_at(receiver), method, count)?;
    checker.note_if(methods.is_empty(), Code::T2, place);
    let Some(given) = given else {
        return Ok(None);
    };
    let found = first_taking(checker, given.as_slice(), methods.as_slice())?;
    checker.note_untyped(!methods.is_empty(), found, place);
    Ok(found)
}

/// The type of the value of a future. What is no future that a parameter or a local has is noted.
fn value_got(
    checker: &mut Checker<'_>,
    place: Place,
    future: &Expr,
) -> Result<Option<TypeIndex>, AllocError>
    ensures found { (context : Context) → Knows checker.old (unbound context) → IfOk result
        (λ found. Finds checker.new found (future_type context.frame (expr_tree context.names future.now))) }
    ensures noted { (context : Context) → Knows checker.old (unbound context) → OnOk result (Noted checker.old.first
        (offends (unbound context) future.now
        ++ mistyped_if (is_none (future_type context.frame (expr_tree context.names future.now))) place)
        checker.new.first) }
    ensures there { IfOk result (λ found. Found checker.new found) }
    ensures stays { OnOk result (Stays checker.old checker.new) }
{
    checker.expression(future)?;
    let found = value_in(checker, future);
    checker.note_if(found.is_none(), Code::T1, place);
    Ok(found)
}

/// The type of the value of a future that a parameter or a local has, if an expression is one.
pub(crate) fn value_in(checker: &Checker<'_>, future: &Expr) -> Option<TypeIndex>
    ensures { (context : Context) → Knows checker.now context
        → Finds checker.now result (future_type context.frame (expr_tree context.names future.now)) }
{
    match future {
        Expr::Variable(_, variable) => slot_value(checker, *variable),
        _ => None,
    }
}

/// The type of the value of a future that a slot has, if a variable is one.
fn slot_value(checker: &Checker<'_>, variable: Variable) -> Option<TypeIndex>
    ensures { (context : Context) (place : PlaceOf) → Knows checker.now context → Finds checker.now result
        (future_type context.frame (VariableOf place (variable_tree context.names variable))) }
{
    match variable {
        Variable::Slot(_) => match checker.variable_type(variable) {
            Some(found) => value_at(checker, found),
            None => None,
        },
        Variable::Bound(_) | Variable::Field(_) | Variable::Unresolved(_) => None,
    }
}

/// The type of the value of a future of a type, if it is that of one.
fn value_at(checker: &Checker<'_>, future: TypeIndex) -> Option<TypeIndex>
    requires { Found checker.now (Some future) }
    ensures { (type : PlainType) → Finds checker.now (Some future) (Some type)
        → Finds checker.now result (value_type (Some type)) }
{
    match checker.table.shape(future) {
        Shape::Fut(value) => Some(value),
        _ => None,
    }
}
