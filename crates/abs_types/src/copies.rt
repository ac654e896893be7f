//! Copies of types.
ghost use Rattle.std.specs.Prelude.{◌≡◌, List, IfOk};
ghost use Rattle.abs_tree.specs.Syntax.{Name};
ghost use Rattle.abs_tree.specs.SyntaxViews.{type_tree, type_trees};

use abs_tree::TypeTerm;
use std::alloc::{AllocError, Global};

/// A copy of a type, with the same places.
///
/// # Errors
/// [`AllocError`] if an allocation fails.
#[cycle(copies)]
pub fn copied(alloc: Global, term: &TypeTerm) -> Result<TypeTerm, AllocError>
    ensures { (names : List Name) → IfOk result (λ found. type_tree names found ≡ type_tree names term.now) }
{
    match term {
        TypeTerm::Unresolved {
            place,
            name,
            arguments,
        } => Ok(TypeTerm::Unresolved {
            place: *place,
            name: *name,
            arguments: copied_all(alloc, arguments)?,
        }),
        TypeTerm::Int(place) => Ok(TypeTerm::Int(*place)),
        TypeTerm::String(place) => Ok(TypeTerm::String(*place)),
        TypeTerm::Fut(place, value) => Ok(TypeTerm::Fut(
            *place,
            Box::new(alloc, copied(alloc, value)?)?,
        )),
        TypeTerm::Data {
            place,
            name,
            arguments,
        } => Ok(TypeTerm::Data {
            place: *place,
            name: *name,
            arguments: copied_all(alloc, arguments)?,
        }),
        TypeTerm::Interface(place, name) => Ok(TypeTerm::Interface(*place, *name)),
        TypeTerm::Parameter(place, index) => Ok(TypeTerm::Parameter(*place, *index)),
        TypeTerm::Bottom => Ok(TypeTerm::Bottom),
        TypeTerm::Null => Ok(TypeTerm::Null),
        TypeTerm::Class(name) => Ok(TypeTerm::Class(*name)),
    }
}

/// Copies of types, in the same order.
///
/// # Errors
/// [`AllocError`] if an allocation fails.
#[cycle(copies)]
fn copied_all(alloc: Global, terms: &[TypeTerm]) -> Result<Vec<TypeTerm>, AllocError>
    ensures { (names : List Name) → IfOk result (λ found. type_trees names found.items ≡ type_trees names terms.now) }
{
    let mut found = Vec::with_capacity(alloc, terms.len())?;
    for term in terms {
        found.push(copied(alloc, term)?)?;
    }
    Ok(found)
}
