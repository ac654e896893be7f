//! Members of classes.
ghost use Rattle.std.specs.Prelude.{◌≡◌, ◌++◌, ◌∷◌, [], List, Some, map, All, IfOk, OnOk};
ghost use Rattle.abs_tree.specs.Names.{name_of};
ghost use Rattle.abs_program.specs.SlotViews.{MemberHasSlots};
ghost use Rattle.abs_tree.specs.Syntax.{Name};
ghost use Rattle.abs_tree.specs.SyntaxViews.{maybe_expr, member_tree, param_tree};
ghost use Rattle.abs_types.specs.PlainTypes.{PlainType};
ghost use Rattle.abs_types.specs.Schemes.{param_types};
ghost use Rattle.abs_types.specs.TypeOffences.{field_offences, field_types, members_offences, value_frame};
ghost use Rattle.abs_types.specs.TypeTables.{Keeps};
ghost use Rattle.check_fun.specs.Contexts.{with_frame, Context, FindsAll, Finds, Found, Knows, Noted, Stays};
ghost use Rattle.check_obj.specs.Classes.{fields_offences, methods_offences, IsInClass};

use crate::assignments::note_missing;
use crate::methods::method;
use abs_tree::{Expr, Member, Param, Place, Symbol};
use abs_types::TypeIndex;
use check_fun::Checker;
use std::alloc::AllocError;
use std::sync::Arc;

/// Checks the members of a class: first its fields, and then its methods, where all fields are known.
///
/// # Errors
/// [`AllocError`] if an allocation fails, or if there are too many types. So it is for each function here.
pub(crate) fn class_members(
    checker: &mut Checker<'_>,
    class: Symbol,
    params: &[Param],
    members: &[Member],
) -> Result<(), AllocError>
    requires { All (MemberHasSlots checker.old.table.program.now.symbols) members.now }
    ensures noted { (context : Context) → Knows checker.old context → OnOk result (Noted checker.old.first
        (members_offences context.declarations (name_of context.names class)
        (param_types (map (param_tree context.names) params.now)
        ++ field_types (map (member_tree context.names) members.now))
        (param_types (map (param_tree context.names) params.now)) (map (member_tree context.names) members.now))
        checker.new.first) }
    ensures keeps { OnOk result (Keeps checker.old.table checker.new.table) }
{
    let fields = fields(checker, params, members)?;
    let slots = Vec::new(checker.table.alloc);
    checker.enter_body(slots, fields, Some(class), None);
    methods(checker, members)
}

/// Checks the methods among the members of the class that was entered.
fn methods(checker: &mut Checker<'_>, members: &[Member]) -> Result<(), AllocError>
    requires { All (MemberHasSlots checker.old.table.program.now.symbols) members.now }
    ensures noted { (context : Context) (class : Name) (fields : List PlainType)
        → IsInClass checker.old context class fields → OnOk result (Noted checker.old.first
        (methods_offences context.declarations class fields (map (member_tree context.names) members.now))
        checker.new.first) }
    ensures keeps { OnOk result (Keeps checker.old.table checker.new.table) }
{
    for member in members {
        method_member(checker, member)?;
    }
    Ok(())
}

/// Checks a member of the class that was entered, if it is a method.
fn method_member(checker: &mut Checker<'_>, member: &Member) -> Result<(), AllocError>
    requires { MemberHasSlots checker.old.table.program.now.symbols member.now }
    ensures noted { (context : Context) (class : Name) (fields : List PlainType)
        → IsInClass checker.old context class fields → OnOk result (Noted checker.old.first
        (methods_offences context.declarations class fields (member_tree context.names member.now ∷ []))
        checker.new.first) }
    ensures stays { (context : Context) (class : Name) (fields : List PlainType)
        → IsInClass checker.old context class fields → OnOk result (IsInClass checker.new context class fields) }
    ensures keeps { OnOk result (Keeps checker.old.table checker.new.table) }
{
    match member {
        Member::Method(signature, body) => method(checker, signature, body),
        Member::Field { .. } => Ok(()),
    }
}

/// Checks the fields of a class. The answer is the types of its parameters and of its fields.
fn fields(
    checker: &mut Checker<'_>,
    params: &[Param],
    members: &[Member],
) -> Result<Vec<TypeIndex>, AllocError>
    ensures found { (context : Context) → Knows checker.old context → IfOk result (λ found.
        FindsAll checker.new (Some found.items) (Some (param_types (map (param_tree context.names) params.now)
        ++ field_types (map (member_tree context.names) members.now)))) }
    ensures noted { (context : Context) → Knows checker.old context → OnOk result (Noted checker.old.first
        (fields_offences context.declarations (param_types (map (param_tree context.names) params.now))
        (map (member_tree context.names) members.now)) checker.new.first) }
    ensures keeps { OnOk result (Keeps checker.old.table checker.new.table) }
{
    checker.enter_value(params)?;
    let mut found = checker.param_types(params)?;
    for member in members {
        field_member(checker, member, &mut found)?;
    }
    Ok(found)
}

/// Checks a member, if it is a field, whose type is found after those before it.
fn field_member(
    checker: &mut Checker<'_>,
    member: &Member,
    found: &mut Vec<TypeIndex>,
) -> Result<(), AllocError>
    ensures noted { (context : Context) (known : List PlainType)
        → Knows checker.old (with_frame context (value_frame known)) → OnOk result (Noted checker.old.first
        (fields_offences context.declarations known (member_tree context.names member.now ∷ [])) checker.new.first) }
    ensures knows { (context : Context) (known : List PlainType)
        → Knows checker.old (with_frame context (value_frame known)) → OnOk result (Knows checker.new
        (with_frame context (value_frame (known ++ field_types (member_tree context.names member.now ∷ []))))) }
    ensures found { (context : Context) (known : List PlainType)
        → Knows checker.old (with_frame context (value_frame known))
        → FindsAll checker.old (Some found.old.items) (Some known)
        → OnOk result (FindsAll checker.new (Some found.new.items)
        (Some (known ++ field_types (member_tree context.names member.now ∷ [])))) }
    ensures keeps { OnOk result (Keeps checker.old.table checker.new.table) }
{
    match member {
        Member::Field {
            type_of,
            name,
            initial,
        } => {
            let declared = checker.written(type_of)?;
            field(checker, declared, name.place, initial)?;
            found.push(declared)?;
            Ok(())
        }
        Member::Method(_, _) => Ok(()),
    }
}

/// Checks the initial value of a field, which is visible after it.
fn field(
    checker: &mut Checker<'_>,
    declared: TypeIndex,
    place: Place,
    initial: &Option<Arc<Expr>>,
) -> Result<(), AllocError>
    requires { Found checker.old (Some declared) }
    ensures noted { (context : Context) (known : List PlainType) (type : PlainType)
        → Knows checker.old (with_frame context (value_frame known)) → Finds checker.old (Some declared) (Some type)
        → OnOk result (Noted checker.old.first
        (field_offences context.declarations known type place (maybe_expr context.names initial.now))
        checker.new.first) }
    ensures knows { (context : Context) (known : List PlainType) (type : PlainType)
        → Knows checker.old (with_frame context (value_frame known)) → Finds checker.old (Some declared) (Some type)
        → OnOk result (Knows checker.new (with_frame context (value_frame (known ++ type ∷ [])))) }
    ensures keeps { OnOk result (Keeps checker.old.table checker.new.table) }
{
    field_value(checker, declared, place, initial)?;
    checker.add_slot(declared)
}

/// Checks the initial value of a field: without one the type is to have `null`.
fn field_value(
    checker: &mut Checker<'_>,
    declared: TypeIndex,
    place: Place,
    initial: &Option<Arc<Expr>>,
) -> Result<(), AllocError>
    requires { Found checker.old (Some declared) }
    ensures noted { (context : Context) (known : List PlainType) (type : PlainType)
        → Knows checker.old (with_frame context (value_frame known)) → Finds checker.old (Some declared) (Some type)
        → OnOk result (Noted checker.old.first
        (field_offences context.declarations known type place (maybe_expr context.names initial.now))
        checker.new.first) }
    ensures stays { OnOk result (Stays checker.old checker.new) }
{
    match initial {
        Some(value) => checker.asked(value, declared, value.place()),
        None => {
            note_missing(checker, declared, place);
            Ok(())
        }
    }
}
