//! Declared types in the table of a checker.
ghost use Rattle.std.specs.Prelude.{◌≡◌, map, option_map, All, IfOk, OnOk, Some};
ghost use Rattle.abs_types.specs.PlainTypes.{plain};
ghost use Rattle.abs_types.specs.TypeShapes.{types_at};
ghost use Rattle.abs_types.specs.TypeTables.{types_in};
ghost use Rattle.check_fun.specs.Contexts.{types_known, Context, Finds, Found, FoundAll, Knows, Stays};
ghost use Rattle.contract_infer.specs.DeclaredTypes.{maybe_type, maybe_types, type_trees_at};

use abs_tree::TypeTerm;
use abs_types::TypeIndex;
use check_fun::Checker;
use std::alloc::AllocError;

/// The indices of the types of slots. A slot without a type has none.
///
/// # Errors
/// [`AllocError`] if an allocation fails, or if there are too many types. So it is for each function here.
pub(crate) fn slot_indices(
    checker: &mut Checker<'_>,
    types: &[Option<&TypeTerm>],
) -> Result<Vec<Option<TypeIndex>>, AllocError>
    ensures found { (context : Context) → Knows checker.old context → IfOk result (λ slots.
        types_known (types_in checker.new.table) slots.items
        ≡ map (option_map plain) (maybe_types context.names types.now)) }
    ensures among { IfOk result (λ slots. All (Found checker.new) slots.items) }
    ensures first { checker.new.first ≡ checker.old.first }
    ensures stays { OnOk result (Stays checker.old checker.new) }
{
    let mut slots = Vec::with_capacity(checker.table.alloc, types.len())?;
    for term in types {
        slots.push(slot_index(checker, *term)?)?;
    }
    Ok(slots)
}

/// The index of the type of a slot, if it has one.
fn slot_index(
    checker: &mut Checker<'_>,
    term: Option<&TypeTerm>,
) -> Result<Option<TypeIndex>, AllocError>
    ensures found { (context : Context) → Knows checker.old context → IfOk result (λ found.
        Finds checker.new found (option_map plain (maybe_type context.names term.entry))) }
    ensures first { checker.new.first ≡ checker.old.first }
    ensures stays { OnOk result (Stays checker.old checker.new) }
{
    match term {
        Some(term) => Ok(Some(checker.written(term)?)),
        None => Ok(None),
    }
}

/// The indices of the types of fields.
pub(crate) fn field_indices(
    checker: &mut Checker<'_>,
    types: &[&TypeTerm],
) -> Result<Vec<TypeIndex>, AllocError>
    ensures found { (context : Context) → Knows checker.old context → IfOk result (λ fields.
        types_at (types_in checker.new.table) fields.items
        ≡ map plain (type_trees_at context.names types.now)) }
    ensures among { IfOk result (λ fields. FoundAll checker.new (Some fields.items)) }
    ensures first { checker.new.first ≡ checker.old.first }
    ensures stays { OnOk result (Stays checker.old checker.new) }
{
    let mut fields = Vec::with_capacity(checker.table.alloc, types.len())?;
    for term in types {
        fields.push(checker.written(term)?)?;
    }
    Ok(fields)
}
