//! Where the bodies of a program begin, and what new objects of its classes take.
ghost use Rattle.std.specs.Prelude.{◌≡◌, ◌≤◌, ℕ, All, List, codes, map, IfOk};
ghost use Rattle.std.specs.Option.{option_map};
ghost use Rattle.abs_program.specs.Bodies.{class_entry, entry_of_class, initial_of, initials_among, is_unit, main_entry, method_entry, run_among, starts_alone};
ghost use Rattle.abs_program.specs.BodyRows.{entry_of_member, entry_with, is_called, row_of_declaration, statements_of_declaration, statements_of_member, ArePassed, IsPassed};
ghost use Rattle.abs_program.specs.InstructionViews.{class_entry_tree, shared_expr_trees};
ghost use Rattle.abs_program.specs.KeptControl.{method_in, class_in};
ghost use Rattle.abs_tree.specs.Limits.{table_limit};
ghost use Rattle.abs_program.specs.SlotViews.{BodyHasSlots, DeclHasSlots, MemberHasSlots};
ghost use Rattle.abs_tree.specs.Syntax.{Name};
ghost use Rattle.abs_tree.specs.SyntaxSizes.{all_statements, statement_count};
ghost use Rattle.abs_tree.specs.SyntaxViews.{decl_tree, declared, maybe_expr, member_tree, expr_tree, statements, tree_of_parts, type_tree};

use crate::tables::control::{BodyEntry, ClassEntry};
use crate::tables::indices::after_statements;
use crate::tables::members::in_32_bits;
use abs_tree::Symbols;
use abs_tree::syntax::{Body, Decl, Declared, Expr, Member, TypeTerm};
use std::alloc::{AllocError, Global};
use std::sync::Arc;

/// The entries of all bodies: those of the methods, by the indices of their class and of the method among its members,
/// and that of the main block.
#[derive(Drop)]
pub struct BodyEntries {
    pub methods: Vec<Vec<Option<BodyEntry>>>,
    pub main: BodyEntry,
}

/// The entries of the bodies of these declarations and of this main block.
///
/// # Errors
/// [`AllocError`] if an allocation fails, or if a body has too many slots or parameters.
pub fn body_entries(
    alloc: Global,
    symbols: &Symbols<'_>,
    declarations: &[Decl],
    main: &Body,
) -> Result<BodyEntries, AllocError>
    requires few { all_statements (tree_of_parts symbols.now declarations.now main.now) ≤ table_limit }
    requires main_has_slots { BodyHasSlots symbols.now 0 main.now }
    requires methods_have_slots { All (DeclHasSlots symbols.now) declarations.now }
    ensures main { IfOk result (λ found.
        found.main ≡ main_entry (tree_of_parts symbols.now declarations.now main.now)) }
    ensures methods { IfOk result (λ found. (class member : ℕ) → method_in found.methods.items class member
        ≡ method_entry (tree_of_parts symbols.now declarations.now main.now).declarations class member) }
{
    let mut index = 0;
    let mut methods = Vec::new(alloc);
    for declaration in declarations {
        methods.push(declaration_row(alloc, &mut index, declaration)?)?;
    }
    Ok(BodyEntries {
        methods,
        main: entry(&mut index, 0, main)?,
    })
}

/// The entries of the members of a declaration, whose statements have indices from this one on. The index moves past
/// them.
///
/// # Errors
/// [`AllocError`] if an allocation fails, or if there are too many statements, slots or parameters. So it is for the
/// next functions.
fn declaration_row(
    alloc: Global,
    index: &mut u32,
    declaration: &Decl,
) -> Result<Vec<Option<BodyEntry>>, AllocError>
    ensures { (names : List Name) → DeclHasSlots names declaration.now → IfOk result (λ found.
        IsPassed row_of_declaration statements_of_declaration index.old (decl_tree names declaration.now) index.new
        found.items) }
{
    match declaration {
        Decl::Class { members, .. } => member_row(alloc, index, members.as_slice()),
        Decl::Data { .. } | Decl::Function { .. } | Decl::Interface { .. } => Ok(Vec::new(alloc)),
    }
}

/// The entries of members.
fn member_row(
    alloc: Global,
    index: &mut u32,
    members: &[Member],
) -> Result<Vec<Option<BodyEntry>>, AllocError>
    ensures { (names : List Name) → All (MemberHasSlots names) members.now → IfOk result (λ found.
        ArePassed entry_of_member statements_of_member index.old (map (member_tree names) members.now) index.new
        found.items) }
{
    let mut row = Vec::new(alloc);
    for member in members {
        row.push(member_entry(index, member)?)?;
    }
    Ok(row)
}

/// The entry of a member, if it is a method.
fn member_entry(index: &mut u32, member: &Member) -> Result<Option<BodyEntry>, AllocError>
    ensures { (names : List Name) → MemberHasSlots names member.now → IfOk result (λ found.
        IsPassed entry_of_member statements_of_member index.old (member_tree names member.now) index.new found) }
{
    match member {
        Member::Method(signature, body) => Ok(Some(entry(index, signature.params.len(), body)?)),
        Member::Field { .. } => Ok(None),
    }
}

/// The entry of a body with so many parameters.
fn entry(index: &mut u32, params: usize, body: &Body) -> Result<BodyEntry, AllocError>
    ensures { (names : List Name) → BodyHasSlots names params body.now → IfOk result (λ found.
        IsPassed (entry_with params) statement_count index.old (statements names body.now.statements.items) index.new
        found) }
{
    let start = *index;
    *index = after_statements(start, body.statements.as_slice())?;
    Ok(BodyEntry {
        first: (start < *index).then_some(start),
        slots: in_32_bits(body.slots.len())?,
        params: in_32_bits(params)?,
    })
}

/// What new objects take, for each class by its index; for other declarations nothing.
///
/// # Errors
/// [`AllocError`] if an allocation fails, or if a class has too many parameters or members.
pub fn class_entries(
    alloc: Global,
    symbols: &Symbols<'_>,
    declarations: &[Decl],
) -> Result<Vec<Option<ClassEntry>>, AllocError>
    ensures { IfOk result (λ found. (class : ℕ) → class_in symbols.now found.items class
        ≡ class_entry (map (decl_tree symbols.now) declarations.now) class) }
{
    let mut entries = Vec::new(alloc);
    for declaration in declarations {
        entries.push(new_object(alloc, symbols, declaration)?)?;
    }
    Ok(entries)
}

/// What a new object of a declaration takes, if it is a class.
///
/// # Errors
/// [`AllocError`] if an allocation fails, or if there are too many parameters or members.
fn new_object(
    alloc: Global,
    symbols: &Symbols<'_>,
    declaration: &Decl,
) -> Result<Option<ClassEntry>, AllocError>
    ensures { IfOk result (λ found. option_map (class_entry_tree symbols.now) found
        ≡ entry_of_class (decl_tree symbols.now declaration.now)) }
{
    match declaration {
        Decl::Class {
            params,
            members,
            ..
        } => Ok(Some(ClassEntry {
            params: in_32_bits(params.len())?,
            initials: Arc::new(alloc, initial_values(alloc, members.as_slice())?)?,
            run: run_index(symbols, members.as_slice())?,
        })),
        Decl::Data { .. } | Decl::Function { .. } | Decl::Interface { .. } => Ok(None),
    }
}

/// The initial values of the fields among members.
///
/// # Errors
/// [`AllocError`] if an allocation fails, or if there are as many copies of a value already as can be counted.
fn initial_values(alloc: Global, members: &[Member]) -> Result<Vec<Arc<Expr>>, AllocError>
    ensures { (names : List Name) → IfOk result (λ found.
        shared_expr_trees names found.items ≡ initials_among (map (member_tree names) members.now)) }
{
    let mut values = Vec::new(alloc);
    for member in members {
        match member {
            Member::Field { name, initial, .. } => {
                let value = initial_value(alloc, *name, initial)?;
                values.push(value)?;
            }
            Member::Method(..) => {}
        }
    }
    Ok(values)
}

/// The initial value of a field with this name: `null` if it has none.
///
/// # Errors
/// [`AllocError`] if an allocation fails, or if there are as many copies of the value already as can be counted.
fn initial_value(
    alloc: Global,
    name: Declared,
    initial: &Option<Arc<Expr>>,
) -> Result<Arc<Expr>, AllocError>
    ensures { (names : List Name) → IfOk result (λ found.
        expr_tree names found.value ≡ initial_of (declared names name) (maybe_expr names initial.now)) }
{
    match initial {
        Some(value) => value.clone(),
        None => Ok(Arc::new(alloc, Expr::Null(name.place))?),
    }
}

/// The index of the method `run` among members, if they make a class active.
///
/// # Errors
/// [`AllocError`] if the index is too large.
fn run_index(symbols: &Symbols<'_>, members: &[Member]) -> Result<Option<u32>, AllocError>
    ensures { IfOk result (λ found. found ≡ run_among (map (member_tree symbols.now) members.now)) }
{
    for (index, member) in members.iter().enumerate() {
        if is_run(symbols, member) {
            let index = in_32_bits(index)?;
            return Ok(can_start(symbols, member).then_some(index));
        }
    }
    Ok(None)
}

/// Whether a member is a method `run`.
fn is_run(symbols: &Symbols<'_>, member: &Member) -> bool
    ensures { result ≡ is_called (codes "run") (member_tree symbols.now member.now) }
{
    match member {
        Member::Method(signature, _) => symbols.name(signature.name.name) == b"run".as_slice(),
        Member::Field { .. } => false,
    }
}

/// Whether a member is a method without parameters whose result is `Unit`.
fn can_start(symbols: &Symbols<'_>, member: &Member) -> bool
    ensures { result ≡ starts_alone (member_tree symbols.now member.now) }
{
    match member {
        Member::Method(signature, _) => {
            signature.params.is_empty() && is_unit(symbols, &signature.result)
        }
        Member::Field { .. } => false,
    }
}

/// Whether a type is `Unit`.
fn is_unit(symbols: &Symbols<'_>, term: &TypeTerm) -> bool
    ensures { result ≡ is_unit (type_tree symbols.now term.now) }
{
    match term {
        TypeTerm::Data {
            name,
            arguments,
            ..
        } => arguments.is_empty() && symbols.name(*name) == b"Unit".as_slice(),
        _ => false,
    }
}
