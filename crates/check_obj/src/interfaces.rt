//! Whether classes have the methods of the interfaces that they implement, and whether methods of one name in an
//! interface have the same types.
ghost use Rattle.std.specs.Prelude.{◌≡◌, ℕ, true, List, Some, map, nat_eq, slice_get, All, IfOk, OnOk};
ghost use Rattle.std.specs.Map.{lookup};
ghost use Rattle.abs_program.specs.Holdings.{is_interface as is_interface_tree};
ghost use Rattle.abs_tree.specs.Syntax.{ClassTree, DeclaredTree, InterfaceTree, MemberTree, Name, ParamTree, SignatureTree};
ghost use Rattle.abs_tree.specs.SyntaxViews.{decl_tree};
ghost use Rattle.abs_tree.specs.declared.place.Place.{Place as PlaceOf};
ghost use Rattle.abs_types.specs.InterfacesMet.{agrees as agree_in, meets_interfaces};
ghost use Rattle.abs_types.specs.PlainTypes.{PlainType};
ghost use Rattle.abs_types.specs.TypeShapes.{type_at, IsAmong};
ghost use Rattle.abs_types.specs.TypeTables.{declarations_of, types_in};
ghost use Rattle.check_obj.specs.MethodRows.{AreRows, TellsSeveral};
ghost use Rattle.check_obj.specs.MethodsMet.{entries_agree, entries_in, has_entries, met_after, same_or_new, typed_row, with_entry, HasTypes, IsKnown};

use crate::method_types::MethodRow;
use abs_tree::Decl;
use abs_types::{TypeIndex, TypeTable};
use indexmap::{IndexMap, IndexSet};
use std::alloc::AllocError;

/// The names, by their numbers, with which interfaces declare methods of several types. A name that has one type in the
/// whole program cannot have two in an interface.
///
/// # Errors
/// [`AllocError`] if an allocation fails.
pub(crate) fn names_of_several(
    table: &TypeTable<'_>,
    rows: &[MethodRow],
) -> Result<IndexSet<u32>, AllocError>
    requires { AreRows table.now (map (λ row. row.types.entries) rows.now) }
    ensures { IfOk result (λ several. TellsSeveral table.now several.keys) }
{
    let mut known = IndexMap::new(table.alloc);
    let mut several = IndexSet::new(table.alloc);
    for (index, row) in rows.iter().enumerate() {
        let Some(declaration) = table.program.declarations.get(index) else {
            continue;
        };
        if is_interface(declaration) {
            note_several(table, row, &mut known, &mut several)?;
        }
    }
    Ok(several)
}

/// Whether a declaration is that of an interface.
fn is_interface(declaration: &Decl) -> bool
    ensures { (names : List Name) → result ≡ is_interface_tree (decl_tree names declaration.now) }
{
    matches!(declaration, Decl::Interface { .. })
}

/// Adds the names of the methods of an interface that have another type than the first with that name.
///
/// # Errors
/// [`AllocError`] if an allocation fails.
fn note_several(
    table: &TypeTable<'_>,
    row: &MethodRow,
    known: &mut IndexMap<u32, TypeIndex>,
    several: &mut IndexSet<u32>,
) -> Result<(), AllocError>
    requires row { HasTypes table.now row.now.types.entries }
    requires known { HasTypes table.now known.old.entries }
    ensures known { OnOk result (HasTypes table.now known.new.entries) }
    ensures kept { OnOk result ((number : ℕ) (type : PlainType)
        → IsKnown table.now known.old.entries several.old.keys number type
        → IsKnown table.now known.new.entries several.new.keys number type) }
    ensures noted { OnOk result (All (λ (entry : ℕ × PlainType).
        IsKnown table.now known.new.entries several.new.keys entry.0 entry.1)
        (typed_row table.now row.now.types.entries)) }
{
    for (name, type_of) in row.types.iter() {
        match known.get(name) {
            Some(first) => {
                if !table.are_same(*first, *type_of) {
                    several.insert(*name)?;
                }
            }
            None => {
                known.insert(*name, *type_of)?;
            }
        }
    }
    Ok(())
}

/// Whether methods of one name have the same types in an interface and those above it.
///
/// # Errors
/// [`AllocError`] if an allocation fails.
pub(crate) fn agrees(
    table: &TypeTable<'_>,
    rows: &[MethodRow],
    several: &IndexSet<u32>,
    interface: u32,
) -> Result<bool, AllocError>
    requires rows { AreRows table.now (map (λ row. row.types.entries) rows.now) }
    requires several { TellsSeveral table.now several.now.keys }
    ensures { (place : PlaceOf) (name : DeclaredTree) (extended : List DeclaredTree) (signatures : List SignatureTree)
        → slice_get (declarations_of table.now) interface ≡ Some (InterfaceTree place name extended signatures)
        → IfOk result (λ reported. reported ≡ agree_in (declarations_of table.now) interface signatures) }
{
    if several.is_empty() {
        return Ok(true);
    }
    let mut met = IndexMap::new(table.alloc);
    for other in table.program.above(table.alloc, interface)?.iter() {
        if !agree_with(table, rows, several, *other, &mut met)? {
            return Ok(false);
        }
    }
    agree_with(table, rows, several, interface, &mut met)
}

/// Whether the methods of an interface have the types of those of the same names that were met before. They are met
/// then.
///
/// # Errors
/// [`AllocError`] if an allocation fails.
fn agree_with(
    table: &TypeTable<'_>,
    rows: &[MethodRow],
    several: &IndexSet<u32>,
    interface: u32,
    met: &mut IndexMap<u32, TypeIndex>,
) -> Result<bool, AllocError>
    requires rows { AreRows table.now (map (λ row. row.types.entries) rows.now) }
    requires met { HasTypes table.now met.old.entries }
    ensures types { OnOk result (HasTypes table.now met.new.entries) }
    ensures agree { IfOk result (λ reported. reported ≡ entries_agree several.now.keys
        (typed_row table.now met.old.entries) (entries_in table.now interface)) }
    ensures met { IfOk result (λ reported. reported ≡ true → typed_row table.now met.new.entries
        ≡ met_after several.now.keys (typed_row table.now met.old.entries) (entries_in table.now interface)) }
{
    let Some(row) = rows.get(interface as usize) else {
        return Ok(true);
    };
    for (name, type_of) in row.types.iter() {
        if !several.contains(name) {
            continue;
        }
        if !agrees_with(table, met, *name, *type_of)? {
            return Ok(false);
        }
    }
    Ok(true)
}

/// Whether a method has the type of the one of its name that was met before, if there is one.
///
/// # Errors
/// [`AllocError`] if an allocation fails.
fn agrees_with(
    table: &TypeTable<'_>,
    met: &mut IndexMap<u32, TypeIndex>,
    name: u32,
    type_of: TypeIndex,
) -> Result<bool, AllocError>
    requires met { HasTypes table.now met.old.entries }
    requires one { IsAmong (types_in table.now) type_of }
    ensures types { OnOk result (HasTypes table.now met.new.entries) }
    ensures same { IfOk result (λ reported. reported ≡ same_or_new (type_at (types_in table.now) type_of)
        (lookup (nat_eq name) (typed_row table.now met.old.entries))) }
    ensures met { OnOk result (typed_row table.now met.new.entries
        ≡ with_entry (typed_row table.now met.old.entries) (name, type_at (types_in table.now) type_of)) }
{
    match met.get(&name) {
        Some(known) => Ok(table.are_same(*known, type_of)),
        None => {
            met.insert(name, type_of)?;
            Ok(true)
        }
    }
}

/// Whether a class has all methods of the interfaces above it, with the same types.
///
/// # Errors
/// [`AllocError`] if an allocation fails.
pub(crate) fn meets(
    table: &TypeTable<'_>,
    rows: &[MethodRow],
    class: u32,
) -> Result<bool, AllocError>
    requires { AreRows table.now (map (λ row. row.types.entries) rows.now) }
    ensures { (place : PlaceOf) (name : DeclaredTree) (params : List ParamTree) (implemented : List DeclaredTree)
        (members : List MemberTree)
        → slice_get (declarations_of table.now) class ≡ Some (ClassTree place name params implemented members)
        → IfOk result (λ reported. reported ≡ meets_interfaces (declarations_of table.now) class members) }
{
    let Some(own) = rows.get(class as usize) else {
        return Ok(true);
    };
    for above in table.program.above(table.alloc, class)?.iter() {
        let Some(asked) = rows.get(*above as usize) else {
            continue;
        };
        if !has_all(table, own, asked) {
            return Ok(false);
        }
    }
    Ok(true)
}

/// Whether a class has methods with the same names and types.
fn has_all(table: &TypeTable<'_>, own: &MethodRow, asked: &MethodRow) -> bool
    requires own { HasTypes table.now own.now.types.entries }
    requires asked { HasTypes table.now asked.now.types.entries }
    ensures { result ≡ has_entries (typed_row table.now own.now.types.entries)
        (typed_row table.now asked.now.types.entries) }
{
    for (name, type_of) in asked.types.iter() {
        match own.types.get(name) {
            Some(found) => {
                if !table.are_same(*found, *type_of) {
                    return false;
                }
            }
            None => return false,
        }
    }
    true
}
