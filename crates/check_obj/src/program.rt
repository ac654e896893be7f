//! A whole program, and its first offence by types.
ghost use Rattle.std.specs.Prelude.{◌≡◌, [], map, option_map, slice_get, Some, IfErr, IfOk, OnOk};
ghost use Rattle.abs_tree.specs.Offences.{first_offence as first_of};
ghost use Rattle.abs_program.specs.SlotViews.{DeclHasSlots};
ghost use Rattle.abs_tree.specs.Refusals.{refusal_of};
ghost use Rattle.abs_tree.specs.SourceErrors.{HasCause};
ghost use Rattle.abs_program.specs.NamedViews.{named_tree};
ghost use Rattle.abs_tree.specs.SyntaxViews.{decl_tree};
ghost use Rattle.abs_types.specs.TypeOffences.{class_offences, class_offences_in, interface_offences, interface_offences_in, type_offences};
ghost use Rattle.abs_types.specs.TypeTables.{declarations_of, Keeps};
ghost use Rattle.check_fun.specs.Contexts.{Noted, Stays};
ghost use Rattle.check_obj.specs.MethodRows.{AreRows, TellsSeveral};

use crate::TypeError;
use crate::classes::class_members;
use crate::interfaces::{agrees, meets, names_of_several};
use crate::method_types::{MethodRow, method_rows};
use crate::methods::main_block;
use abs_program::Named;
use abs_tree::{Code, Decl, Offence};
use abs_types::Checked;
use check_fun::Checker;
use indexmap::IndexSet;
use std::alloc::{AllocError, Global};

/// A program as one whose types are checked, if they have no offence.
///
/// # Errors
/// [`TypeError::Refused`] if they have one, with the refusal for the first one.
/// [`TypeError::Memory`] if an allocation fails, or if there are too many types.
pub fn check<'a>(alloc: Global, program: Named<'a>) -> Result<Checked<'a>, TypeError>
    ensures same { IfOk result (λ checked. checked.named ≡ program.entry) }
    ensures accepted { OnOk result (type_offences (named_tree program.entry) ≡ []) }
    ensures refused { IfErr result (HasCause (λ refusal.
        Some refusal ≡ option_map refusal_of (first_of (type_offences (named_tree program.entry))))) }
{
    match first_offence(alloc, &program)? {
        Some(offence) => Err(TypeError::Refused(offence.refusal())),
        None => Ok(Checked::new(program)),
    }
}

/// The first offence of a program by its types, if it has one.
///
/// # Errors
/// [`AllocError`] if an allocation fails, or if there are too many types or declarations. So it is for each function
/// here.
fn first_offence(alloc: Global, program: &Named<'_>) -> Result<Option<Offence>, AllocError>
    ensures { IfOk result (λ found. found ≡ first_of (type_offences (named_tree program.now))) }
{
    let mut checker = Checker::new(alloc, program);
    checker.functions()?;
    let rows = method_rows(&mut checker)?;
    interfaces(&mut checker, rows.as_slice())?;
    classes(&mut checker, rows.as_slice())?;
    main_block(&mut checker, &program.main)?;
    Ok(checker.first)
}

/// Checks all interfaces.
fn interfaces(checker: &mut Checker<'_>, rows: &[MethodRow]) -> Result<(), AllocError>
    requires { AreRows checker.old.table (map (λ row. row.types.entries) rows.now) }
    ensures noted { OnOk result
        (Noted checker.old.first (interface_offences (declarations_of checker.old.table)) checker.new.first) }
    ensures stays { OnOk result (Stays checker.old checker.new) }
{
    let several = names_of_several(&checker.table, rows)?;
    for (index, declaration) in checker.table.program.declarations.iter().enumerate() {
        interface(checker, rows, &several, in_32_bits(index)?, declaration)?;
    }
    Ok(())
}

/// Checks a declaration, if it is an interface: methods of one name have the same types.
fn interface(
    checker: &mut Checker<'_>,
    rows: &[MethodRow],
    several: &IndexSet<u32>,
    index: u32,
    declaration: &Decl,
) -> Result<(), AllocError>
    requires rows { AreRows checker.old.table (map (λ row. row.types.entries) rows.now) }
    requires several { TellsSeveral checker.old.table several.now.keys }
    requires there { slice_get (declarations_of checker.old.table) index
        ≡ Some (decl_tree checker.old.table.program.now.symbols declaration.now) }
    ensures noted { OnOk result (Noted checker.old.first (interface_offences_in (declarations_of checker.old.table)
        index (decl_tree checker.old.table.program.now.symbols declaration.now)) checker.new.first) }
    ensures stays { OnOk result (Stays checker.old checker.new) }
{
    let Decl::Interface { name, .. } = declaration else {
        return Ok(());
    };
    let agrees = agrees(&checker.table, rows, several, index)?;
    checker.note_if(!agrees, Code::T4, name.place);
    Ok(())
}

/// Checks all classes.
fn classes(checker: &mut Checker<'_>, rows: &[MethodRow]) -> Result<(), AllocError>
    requires { AreRows checker.old.table (map (λ row. row.types.entries) rows.now) }
    ensures noted { OnOk result
        (Noted checker.old.first (class_offences (declarations_of checker.old.table)) checker.new.first) }
    ensures keeps { OnOk result (Keeps checker.old.table checker.new.table) }
{
    for (index, declaration) in checker.table.program.declarations.iter().enumerate() {
        class(checker, rows, in_32_bits(index)?, declaration)?;
    }
    Ok(())
}

/// Checks a declaration, if it is a class: it has the methods of its interfaces, and its members are well typed.
fn class(
    checker: &mut Checker<'_>,
    rows: &[MethodRow],
    index: u32,
    declaration: &Decl,
) -> Result<(), AllocError>
    requires rows { AreRows checker.old.table (map (λ row. row.types.entries) rows.now) }
    requires there { slice_get (declarations_of checker.old.table) index
        ≡ Some (decl_tree checker.old.table.program.now.symbols declaration.now) }
    requires slots { DeclHasSlots checker.old.table.program.now.symbols declaration.now }
    ensures noted { OnOk result (Noted checker.old.first (class_offences_in (declarations_of checker.old.table)
        index (decl_tree checker.old.table.program.now.symbols declaration.now)) checker.new.first) }
    ensures keeps { OnOk result (Keeps checker.old.table checker.new.table) }
{
    let Decl::Class {
        name,
        params,
        members,
        ..
    } = declaration
    else {
        return Ok(());
    };
    let meets = meets(&checker.table, rows, index)?;
    checker.note_if(!meets, Code::T4, name.place);
    class_members(checker, name.name, params.as_slice(), members.as_slice())
}

/// The index of a declaration in 32 bits, as the tables have it.
///
/// # Errors
/// [`AllocError`] if it takes more bits.
fn in_32_bits(index: usize) -> Result<u32, AllocError>
    ensures { IfOk result (λ kept. kept ≡ index) }
{
    match u32::try_from(index) {
        Ok(kept) => Ok(kept),
        Err(_) => Err(AllocError),
    }
}
