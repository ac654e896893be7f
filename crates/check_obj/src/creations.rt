//! New objects.
ghost use Rattle.std.specs.Prelude.{◌≡◌, ◌++◌, List, Some, is_some, option_and_then, slice_get, IfOk, OnOk};
ghost use Rattle.abs_tree.specs.Names.{name_of};
ghost use Rattle.abs_tree.specs.SyntaxViews.{decl_tree};
ghost use Rattle.abs_types.specs.Mistyped.{untyped};
ghost use Rattle.abs_types.specs.PlainTypes.{PlainType};
ghost use Rattle.abs_types.specs.SideTypes.{class_takes, new_type, taken_by as taken_by_tree};
ghost use Rattle.check_fun.specs.Contexts.{all_offend, all_typed, items_of, Context, FindsAll, Finds, FoundAll, Found, Knows, Noted, Stays};
ghost use Rattle.check_obj.specs.Bodies.{unbound};

use crate::calls::all_fit;
use abs_tree::{Decl, Expr, Place, Symbol};
use abs_types::TypeIndex;
use check_fun::Checker;
use std::alloc::AllocError;

/// The type of a new object.
///
/// # Errors
/// [`AllocError`] if an allocation fails, or if there are too many types. So it is for each function here.
pub(crate) fn creation(
    checker: &mut Checker<'_>,
    place: Place,
    class: Symbol,
    arguments: &[Expr],
) -> Result<Option<TypeIndex>, AllocError>
    ensures found { (context : Context) → Knows checker.old (unbound context) → IfOk result (λ found.
        Finds checker.new found (option_and_then (new_type context.declarations (name_of context.names class))
        (all_typed (unbound context) arguments.now))) }
    ensures noted { (context : Context) → Knows checker.old (unbound context) → OnOk result (Noted checker.old.first
        (all_offend (unbound context) arguments.now ++ untyped (is_some (all_typed (unbound context) arguments.now))
        (option_and_then (new_type context.declarations (name_of context.names class))
        (all_typed (unbound context) arguments.now)) place) checker.new.first) }
    ensures there { IfOk result (λ found. Found checker.new found) }
    ensures stays { OnOk result (Stays checker.old checker.new) }
{
    let given = checker.arguments(arguments)?;
    let Some(given) = given else {
        return Ok(None);
    };
    let found = new_object(checker, class, given.as_slice())?;
    checker.note_untyped(true, found, place);
    Ok(found)
}

/// An object of a class, if arguments of these types fit what the class takes.
fn new_object(
    checker: &mut Checker<'_>,
    class: Symbol,
    given: &[TypeIndex],
) -> Result<Option<TypeIndex>, AllocError>
    requires { FoundAll checker.old (Some given.now) }
    ensures found { (context : Context) (types : List PlainType) → Knows checker.old context
        → FindsAll checker.old (Some given.now) (Some types) → IfOk result (λ found. Finds checker.new found
        (new_type context.declarations (name_of context.names class) types)) }
    ensures first { checker.new.first ≡ checker.old.first }
    ensures stays { OnOk result (Stays checker.old checker.new) }
{
    let Some(takes) = taken_by(checker, class)? else {
        return Ok(None);
    };
    if !all_fit(checker, given, takes.as_slice()) {
        return Ok(None);
    }
    Ok(Some(checker.class(class)?))
}

/// What a new object of the class with a name takes, if there is one.
fn taken_by(checker: &mut Checker<'_>, class: Symbol) -> Result<Option<Vec<TypeIndex>>, AllocError>
    ensures found { (context : Context) → Knows checker.old context → IfOk result (λ found.
        FindsAll checker.new (items_of found) (class_takes context.declarations (name_of context.names class))) }
    ensures first { checker.new.first ≡ checker.old.first }
    ensures stays { OnOk result (Stays checker.old checker.new) }
{
    match checker.table.program.class(class) {
        Some(taking) => taken_at(checker, taking.declaration),
        None => Ok(None),
    }
}

/// What a new object of the class with an index takes, if there is one.
fn taken_at(checker: &mut Checker<'_>, class: u32) -> Result<Option<Vec<TypeIndex>>, AllocError>
    ensures found { (context : Context) → Knows checker.old context → IfOk result (λ found.
        FindsAll checker.new (items_of found) (option_and_then taken_by_tree (slice_get context.declarations class))) }
    ensures first { checker.new.first ≡ checker.old.first }
    ensures stays { OnOk result (Stays checker.old checker.new) }
{
    match checker.table.program.declarations.get(class as usize) {
        Some(declaration) => taken_in(checker, declaration),
        None => Ok(None),
    }
}

/// What a new object of a declaration takes, if that is a class.
fn taken_in(
    checker: &mut Checker<'_>,
    declaration: &Decl,
) -> Result<Option<Vec<TypeIndex>>, AllocError>
    ensures found { (context : Context) → Knows checker.old context → IfOk result (λ found.
        FindsAll checker.new (items_of found) (taken_by_tree (decl_tree context.names declaration.now))) }
    ensures first { checker.new.first ≡ checker.old.first }
    ensures stays { OnOk result (Stays checker.old checker.new) }
{
    match declaration {
        Decl::Class { params, .. } => Ok(Some(checker.param_types(params.as_slice())?)),
        Decl::Data { .. } | Decl::Function { .. } | Decl::Interface { .. } => Ok(None),
    }
}
