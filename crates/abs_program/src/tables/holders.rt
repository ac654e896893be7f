//! Which declarations hold objects: interfaces, and data that leads to them outside of `Fut`.
ghost use Rattle.std.specs.Prelude.{◌≡◌, ◌≤◌, ◌++◌, length, map, List, IfOk, OnOk};
ghost use Rattle.abs_graph.specs.Views.{graph_of};
ghost use Rattle.abs_program.specs.Holdings.{declaration_of, declarations_in, declarations_in_all, held_by_constructors, held_by as held_by_tree, holdings_in, is_interface as is_interface_tree, are_interfaces as are_interfaces_trees, holders};
ghost use Rattle.abs_program.specs.KeptSpaces.{spaces_by_name, AreProper};
ghost use Rattle.abs_tree.specs.Limits.{table_limit};
ghost use Rattle.abs_tree.specs.Names.{name_of};
ghost use Rattle.abs_program.specs.NameSpaces.{spaces_of};
ghost use Rattle.abs_tree.specs.Syntax.{Name};
ghost use Rattle.abs_tree.specs.SyntaxViews.{type_tree, type_trees, constructor_tree, decl_tree};
ghost use Rattle.abs_program.specs.Tables.{meaning_of};

use crate::{NameSpaces, TypeMeaning};
use abs_graph::reaching;
use abs_tree::syntax::{Constructor, Decl, TypeTerm};
use abs_tree::{Symbol, Symbols};
use std::alloc::{AllocError, Global};

/// Adds to a list the declaration of data or of an interface that a name stands for, if it stands for one.
///
/// # Errors
/// [`AllocError`] if an allocation fails.
fn add_named(
    symbols: &Symbols<'_>,
    spaces: &NameSpaces,
    name: Symbol,
    found: &mut Vec<u32>,
) -> Result<(), AllocError>
    requires { AreProper symbols.now spaces.now }
    ensures { OnOk result (found.new.items ≡ found.old.items ++ declaration_of
        (meaning_of (spaces_by_name symbols.now spaces.now).types (name_of symbols.now name))) }
{
    match spaces.type_named(symbols, name) {
        Some(TypeMeaning::Data(taking)) => found.push(taking.declaration)?,
        Some(TypeMeaning::Interface(index)) => found.push(index)?,
        Some(TypeMeaning::Int | TypeMeaning::String | TypeMeaning::Fut) | None => {}
    }
    Ok(())
}

/// Adds to a list the declarations of data and of interfaces that are in a type outside of `Fut`.
///
/// # Errors
/// [`AllocError`] if an allocation fails.
#[cycle(types)]
fn add_type(
    symbols: &Symbols<'_>,
    spaces: &NameSpaces,
    term: &TypeTerm,
    found: &mut Vec<u32>,
) -> Result<(), AllocError>
    requires { AreProper symbols.now spaces.now }
    ensures { OnOk result (found.new.items ≡ found.old.items
        ++ declarations_in (spaces_by_name symbols.now spaces.now) (type_tree symbols.now term.now)) }
{
    match term {
        TypeTerm::Data {
            name,
            arguments,
            ..
        } => {
            add_named(symbols, spaces, *name, found)?;
            add_types(symbols, spaces, arguments, found)
        }
        TypeTerm::Interface(_, name) => add_named(symbols, spaces, *name, found),
        TypeTerm::Unresolved { .. }
        | TypeTerm::Int(_)
        | TypeTerm::String(_)
        | TypeTerm::Fut(..)
        | TypeTerm::Parameter(..)
        | TypeTerm::Bottom
        | TypeTerm::Null
        | TypeTerm::Class(_) => Ok(()),
    }
}

/// Adds to a list the declarations of data and of interfaces that are in several types outside of `Fut`.
///
/// # Errors
/// [`AllocError`] if an allocation fails.
#[cycle(types)]
fn add_types(
    symbols: &Symbols<'_>,
    spaces: &NameSpaces,
    terms: &[TypeTerm],
    found: &mut Vec<u32>,
) -> Result<(), AllocError>
    requires { AreProper symbols.now spaces.now }
    ensures { OnOk result (found.new.items ≡ found.old.items
        ++ declarations_in_all (spaces_by_name symbols.now spaces.now) (type_trees symbols.now terms.now)) }
{
    for term in terms {
        add_type(symbols, spaces, term, found)?;
    }
    Ok(())
}

/// The declarations of data and of interfaces that are in the types of the arguments of constructors, outside of `Fut`.
///
/// # Errors
/// [`AllocError`] if an allocation fails.
fn held_by_all(
    alloc: Global,
    symbols: &Symbols<'_>,
    spaces: &NameSpaces,
    constructors: &[Constructor],
) -> Result<Vec<u32>, AllocError>
    requires { AreProper symbols.now spaces.now }
    ensures { IfOk result (λ found. found.items ≡ held_by_constructors (spaces_by_name symbols.now spaces.now)
        (map (constructor_tree symbols.now) constructors.now)) }
{
    let mut found = Vec::new(alloc);
    for constructor in constructors {
        add_types(symbols, spaces, constructor.types.as_slice(), &mut found)?;
    }
    Ok(found)
}

/// The declarations of data and of interfaces that are in a declaration of data. No other declaration has any.
///
/// # Errors
/// [`AllocError`] if an allocation fails.
fn held_by(
    alloc: Global,
    symbols: &Symbols<'_>,
    spaces: &NameSpaces,
    declaration: &Decl,
) -> Result<Vec<u32>, AllocError>
    requires { AreProper symbols.now spaces.now }
    ensures { IfOk result (λ found. found.items
        ≡ held_by_tree (spaces_by_name symbols.now spaces.now) (decl_tree symbols.now declaration.now)) }
{
    match declaration {
        Decl::Data { constructors, .. } => {
            held_by_all(alloc, symbols, spaces, constructors.as_slice())
        }
        Decl::Function { .. } | Decl::Interface { .. } | Decl::Class { .. } => {
            Ok(Vec::new(alloc))
        }
    }
}

/// The graph of declarations: for each declaration the data and the interfaces that are in it, by their indices.
///
/// # Errors
/// [`AllocError`] if an allocation fails.
fn holding_graph(
    alloc: Global,
    symbols: &Symbols<'_>,
    spaces: &NameSpaces,
    declarations: &[Decl],
) -> Result<Vec<Vec<u32>>, AllocError>
    requires { AreProper symbols.now spaces.now }
    ensures { IfOk result (λ graph. graph_of graph.items
        ≡ holdings_in (spaces_by_name symbols.now spaces.now) (map (decl_tree symbols.now) declarations.now)) }
{
    let mut graph = Vec::new(alloc);
    for declaration in declarations {
        graph.push(held_by(alloc, symbols, spaces, declaration)?)?;
    }
    Ok(graph)
}

/// Whether a declaration is that of an interface.
fn is_interface(declaration: &Decl) -> bool
    ensures { (names : List Name) → result ≡ is_interface_tree (decl_tree names declaration.now) }
{
    matches!(declaration, Decl::Interface { .. })
}

/// For each declaration, whether it is that of an interface.
///
/// # Errors
/// [`AllocError`] if an allocation fails.
fn are_interfaces(alloc: Global, declarations: &[Decl]) -> Result<Vec<bool>, AllocError>
    ensures { (names : List Name) → IfOk result (λ found. found.items
        ≡ are_interfaces_trees (map (decl_tree names) declarations.now)) }
{
    let mut found = Vec::with_capacity(alloc, declarations.len())?;
    for declaration in declarations {
        found.push(is_interface(declaration))?;
    }
    Ok(found)
}

/// For each declaration, whether it is that of an interface, or of data that leads to one.
///
/// # Errors
/// [`AllocError`] if an allocation fails.
pub fn object_holders(
    alloc: Global,
    symbols: &Symbols<'_>,
    spaces: &NameSpaces,
    declarations: &[Decl],
) -> Result<Vec<bool>, AllocError>
    requires few { length symbols.now ≤ table_limit }
    requires proper { AreProper symbols.now spaces.now }
    requires spaces { spaces_by_name symbols.now spaces.now ≡ spaces_of (map (decl_tree symbols.now) declarations.now) }
    ensures { IfOk result (λ found. found.items ≡ holders (map (decl_tree symbols.now) declarations.now)) }
{
    let graph = holding_graph(alloc, symbols, spaces, declarations)?;
    let interfaces = are_interfaces(alloc, declarations)?;
    reaching(alloc, graph.as_slice(), interfaces.as_slice())
}
