//! The methods that declarations declare, by their names, each with its type: that of its result as a future, applied
//! to those of its parameters. So methods take and give the same types exactly where their types are the same.
ghost use Rattle.std.specs.Prelude.{◌≡◌, [], ◌∷◌, ◌++◌, List, Some, map, IfOk, OnOk};
ghost use Rattle.abs_tree.specs.Syntax.{SignatureTree};
ghost use Rattle.abs_tree.specs.SyntaxViews.{decl_tree, member_tree, signature_tree};
ghost use Rattle.abs_types.specs.Methods.{first_of_each, member_signatures, signatures_in};
ghost use Rattle.check_fun.specs.Contexts.{Context, Finds, Knows, Stays};
ghost use Rattle.check_obj.specs.MethodRows.{signature_type, AreNamed, AreRows, IsRow};

use abs_tree::{Decl, Member, Signature};
use abs_types::TypeIndex;
use check_fun::Checker;
use indexmap::IndexMap;
use std::alloc::AllocError;

/// The methods of one declaration: the type of each, by the number of its name. Of several with one name the first
/// counts.
#[derive(Drop)]
pub(crate) struct MethodRow {
    pub(crate) types: IndexMap<u32, TypeIndex>,
}

/// The methods that each declaration declares.
///
/// # Errors
/// [`AllocError`] if an allocation fails, or if there are too many types. So it is for each function here.
pub(crate) fn method_rows(checker: &mut Checker<'_>) -> Result<Vec<MethodRow>, AllocError>
    ensures rows { IfOk result (λ rows. AreRows checker.new.table (map (λ row. row.types.entries) rows.items)) }
    ensures first { checker.new.first ≡ checker.old.first }
    ensures stays { OnOk result (Stays checker.old checker.new) }
{
    let program = checker.table.program;
    let mut rows = Vec::with_capacity(checker.table.alloc, program.declarations.len())?;
    for declaration in program.declarations.iter() {
        rows.push(method_row(checker, declaration)?)?;
    }
    Ok(rows)
}

/// The methods that a declaration declares.
fn method_row(checker: &mut Checker<'_>, declaration: &Decl) -> Result<MethodRow, AllocError>
    ensures row { IfOk result (λ row. IsRow checker.new.table
        (signatures_in (decl_tree checker.old.table.program.now.symbols declaration.now)) row.types.entries) }
    ensures first { checker.new.first ≡ checker.old.first }
    ensures stays { OnOk result (Stays checker.old checker.new) }
{
    let mut row = MethodRow {
        types: IndexMap::new(checker.table.alloc),
    };
    match declaration {
        Decl::Interface { signatures, .. } => {
            add_signatures(checker, signatures.as_slice(), &mut row)?;
        }
        Decl::Class { members, .. } => add_members(checker, members.as_slice(), &mut row)?,
        Decl::Data { .. } | Decl::Function { .. } => return Ok(row),
    }
    Ok(row)
}

/// Adds the methods of an interface.
fn add_signatures(
    checker: &mut Checker<'_>,
    signatures: &[Signature],
    row: &mut MethodRow,
) -> Result<(), AllocError>
    ensures row { row.old.types.entries ≡ [] → OnOk result (IsRow checker.new.table (first_of_each
        (map (signature_tree checker.old.table.program.now.symbols) signatures.now)) row.new.types.entries) }
    ensures first { checker.new.first ≡ checker.old.first }
    ensures stays { OnOk result (Stays checker.old checker.new) }
{
    for signature in signatures {
        add_signature(checker, signature, row)?;
    }
    Ok(())
}

/// Adds those among the members of a class.
fn add_members(
    checker: &mut Checker<'_>,
    members: &[Member],
    row: &mut MethodRow,
) -> Result<(), AllocError>
    ensures row { row.old.types.entries ≡ [] → OnOk result (IsRow checker.new.table (first_of_each (member_signatures
        (map (member_tree checker.old.table.program.now.symbols) members.now))) row.new.types.entries) }
    ensures first { checker.new.first ≡ checker.old.first }
    ensures stays { OnOk result (Stays checker.old checker.new) }
{
    for member in members {
        if let Member::Method(signature, _) = member {
            add_signature(checker, signature, row)?;
        }
    }
    Ok(())
}

/// Adds a method, unless there is one with its name.
fn add_signature(
    checker: &mut Checker<'_>,
    signature: &Signature,
    row: &mut MethodRow,
) -> Result<(), AllocError>
    ensures row { (done : List SignatureTree) → AreNamed checker.old.table.program.now.symbols done
        → IsRow checker.old.table (first_of_each done) row.old.types.entries
        → OnOk result (IsRow checker.new.table (first_of_each
        (done ++ signature_tree checker.old.table.program.now.symbols signature.now ∷ [])) row.new.types.entries) }
    ensures first { checker.new.first ≡ checker.old.first }
    ensures stays { OnOk result (Stays checker.old checker.new) }
{
    let name = checker.table.program.symbols.number(signature.name.name);
    if row.types.contains_key(&name) {
        return Ok(());
    }
    let type_of = method_type(checker, signature)?;
    row.types.insert(name, type_of)?;
    Ok(())
}

/// The type of a method: that of its result as a future, applied to those of its parameters.
fn method_type(checker: &mut Checker<'_>, signature: &Signature) -> Result<TypeIndex, AllocError>
    ensures found { (context : Context) → Knows checker.old context → IfOk result (λ found. Finds checker.new
        (Some found) (Some (signature_type (signature_tree context.names signature.now)))) }
    ensures first { checker.new.first ≡ checker.old.first }
    ensures stays { OnOk result (Stays checker.old checker.new) }
{
    let gives = checker.written(&signature.result)?;
    let mut found = checker.future(gives)?;
    for param in signature.params.iter() {
        let taken = checker.written(&param.type_of)?;
        found = checker.applied(found, taken)?;
    }
    Ok(found)
}
