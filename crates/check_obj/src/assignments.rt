//! Declarations and assignments: the right side fits what it is for.
ghost use Rattle.std.specs.Prelude.{◌≡◌, ◌++◌, List, not, is_none, Some, OnOk};
ghost use Rattle.abs_tree.specs.Syntax.{Name};
ghost use Rattle.abs_tree.specs.SyntaxViews.{maybe_side, side_tree, target_tree};
ghost use Rattle.abs_tree.specs.declared.refusal.Code.TheVariants.{T3};
ghost use Rattle.abs_tree.specs.Offences.{offence_if};
ghost use Rattle.abs_types.specs.Mistyped.{mistyped_if};
ghost use Rattle.abs_types.specs.PlainTypes.{PlainType};
ghost use Rattle.abs_types.specs.SideTypes.{side_offences};
ghost use Rattle.abs_types.specs.StatementOffences.{can_be_null, initial_offences, target_place as place_of_target, target_type as type_of_target, unfit_side};
ghost use Rattle.check_fun.specs.Contexts.{Context, Finds, Found, Knows, Noted, Stays};
ghost use Rattle.check_obj.specs.Bodies.{unbound};

use crate::right_sides::{fitting_side, right_side};
use abs_tree::{Code, Place, RightSide, Target};
use abs_types::{Shape, TypeIndex};
use check_fun::Checker;
use std::alloc::AllocError;

/// Checks the right side of a declaration of a type: without one the type is to have `null`.
///
/// # Errors
/// [`AllocError`] if an allocation fails, or if there are too many types. So it is for each function here.
pub(crate) fn initial_value(
    checker: &mut Checker<'_>,
    declared: TypeIndex,
    place: Place,
    initial: &Option<RightSide>,
) -> Result<(), AllocError>
    requires { Found checker.old (Some declared) }
    ensures noted { (context : Context) (type : PlainType) → Knows checker.old (unbound context)
        → Finds checker.old (Some declared) (Some type) → OnOk result (Noted checker.old.first
        (initial_offences context.declarations context.frame type place (maybe_side context.names initial.now))
        checker.new.first) }
    ensures stays { OnOk result (Stays checker.old checker.new) }
{
    match initial {
        Some(side) => fitting_side(checker, side, declared),
        None => {
            note_missing(checker, declared, place);
            Ok(())
        }
    }
}

/// Notes that a value is missing, if the type does not have `null`.
pub(crate) fn note_missing(checker: &mut Checker<'_>, declared: TypeIndex, place: Place)
    requires { Found checker.old (Some declared) }
    ensures noted { (type : PlainType) → Finds checker.old (Some declared) (Some type)
        → Noted checker.old.first (offence_if (not (can_be_null type)) T3 place) checker.new.first }
    ensures stays { Stays checker.old checker.new }
{
    let has_null = has_null(checker, declared);
    checker.note_if(!has_null, Code::T3, place);
}

/// Whether a variable of a type can be without a value.
fn has_null(checker: &Checker<'_>, declared: TypeIndex) -> bool
    requires { Found checker.now (Some declared) }
    ensures { (type : PlainType) → Finds checker.now (Some declared) (Some type) → result ≡ can_be_null type }
{
    match checker.table.shape(declared) {
        Shape::Interface(_) | Shape::Fut(_) => true,
        _ => false,
    }
}

/// Checks an assignment to a parameter, a local or a field.
pub(crate) fn assigned(
    checker: &mut Checker<'_>,
    target: Target,
    side: &RightSide,
) -> Result<(), AllocError>
    ensures noted { (context : Context) → Knows checker.old (unbound context) → OnOk result (Noted checker.old.first
        (mistyped_if (is_none (type_of_target context.frame (target_tree context.names target)))
        (place_of_target (target_tree context.names target))
        ++ side_offences context.declarations context.frame (side_tree context.names side.now)
        ++ unfit_side context.declarations context.frame (side_tree context.names side.now)
        (type_of_target context.frame (target_tree context.names target))) checker.new.first) }
    ensures stays { OnOk result (Stays checker.old checker.new) }
{
    match target_type(checker, target) {
        Some(asked) => fitting_side(checker, side, asked),
        None => {
            checker.note_if(true, Code::T1, target_place(target));
            right_side(checker, side)?;
            Ok(())
        }
    }
}

/// The type of what is assigned to, if it is there.
fn target_type(checker: &Checker<'_>, target: Target) -> Option<TypeIndex>
    ensures found { (context : Context) → Knows checker.now (unbound context)
        → Finds checker.now result (type_of_target context.frame (target_tree context.names target)) }
    ensures there { Found checker.now result }
{
    match target {
        Target::Variable(_, variable) => checker.variable_type(variable),
        Target::Field { .. } => None,
    }
}

/// Where it begins.
fn target_place(target: Target) -> Place
    ensures { (names : List Name) → result ≡ place_of_target (target_tree names target) }
{
    match target {
        Target::Variable(place, _) | Target::Field { place, .. } => place,
    }
}
