//! The interfaces that interfaces extend and that classes implement, in one step.
ghost use Rattle.std.specs.Prelude.{◌≡◌, ◌≤◌, length, map, IfOk};
ghost use Rattle.abs_graph.specs.Views.{graph_of};
ghost use Rattle.abs_program.specs.KeptSpaces.{spaces_by_name, AreProper};
ghost use Rattle.abs_tree.specs.Limits.{table_limit};
ghost use Rattle.abs_program.specs.Supertypes.{interfaces_named as interfaces_of, above as above_of, supertypes_in};
ghost use Rattle.abs_tree.specs.SyntaxViews.{declared as declared_tree, decl_tree};

use crate::{NameSpaces, TypeMeaning};
use abs_tree::Symbols;
use abs_tree::syntax::{Decl, Declared};
use std::alloc::{AllocError, Global};

/// The interfaces that these names stand for, by the indices of their declarations.
///
/// # Errors
/// [`AllocError`] if an allocation fails.
fn interfaces_named(
    alloc: Global,
    symbols: &Symbols<'_>,
    spaces: &NameSpaces,
    names: &[Declared],
) -> Result<Vec<u32>, AllocError>
    requires { AreProper symbols.now spaces.now }
    ensures { IfOk result (λ found. found.items
        ≡ interfaces_of (spaces_by_name symbols.now spaces.now) (map (declared_tree symbols.now) names.now)) }
{
    let mut found = Vec::new(alloc);
    for name in names {
        if let Some(TypeMeaning::Interface(index)) = spaces.type_named(symbols, name.name) {
            found.push(index)?;
        }
    }
    Ok(found)
}

/// The interfaces that a declaration extends or implements in one step, by the indices of their declarations.
///
/// # Errors
/// [`AllocError`] if an allocation fails.
fn above(
    alloc: Global,
    symbols: &Symbols<'_>,
    spaces: &NameSpaces,
    declaration: &Decl,
) -> Result<Vec<u32>, AllocError>
    requires { AreProper symbols.now spaces.now }
    ensures { IfOk result (λ found. found.items
        ≡ above_of (spaces_by_name symbols.now spaces.now) (decl_tree symbols.now declaration.now)) }
{
    match declaration {
        Decl::Interface { extended, .. } => {
            interfaces_named(alloc, symbols, spaces, extended.as_slice())
        }
        Decl::Class { implemented, .. } => {
            interfaces_named(alloc, symbols, spaces, implemented.as_slice())
        }
        Decl::Data { .. } | Decl::Function { .. } => Ok(Vec::new(alloc)),
    }
}

/// The graph of declarations: for each declaration the interfaces that it extends or implements in one step, by their
/// indices.
///
/// # Errors
/// [`AllocError`] if an allocation fails.
pub fn supertype_graph(
    alloc: Global,
    symbols: &Symbols<'_>,
    spaces: &NameSpaces,
    declarations: &[Decl],
) -> Result<Vec<Vec<u32>>, AllocError>
    requires few { length symbols.now ≤ table_limit }
    requires proper { AreProper symbols.now spaces.now }
    ensures { IfOk result (λ graph. graph_of graph.items
        ≡ supertypes_in (spaces_by_name symbols.now spaces.now) (map (decl_tree symbols.now) declarations.now)) }
{
    let mut graph = Vec::new(alloc);
    for declaration in declarations {
        graph.push(above(alloc, symbols, spaces, declaration)?)?;
    }
    Ok(graph)
}
