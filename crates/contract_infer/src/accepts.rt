//! What types let in, by the tree of a program.
ghost use Rattle.std.specs.Prelude.{◌≡◌, List, map, Some, IfOk};
ghost use Rattle.abs_program.specs.NamedViews.{named_tree};
ghost use Rattle.abs_tree.specs.Syntax.{Name};
ghost use Rattle.abs_tree.specs.SyntaxViews.{type_tree};
ghost use Rattle.abs_types.specs.PlainTypes.{PlainType};
ghost use Rattle.check_fun.specs.ObjectHeads.{head_named, head_of};
ghost use Rattle.contract_infer.specs.DeclaredTypes.{maybe_type, maybe_types, type_trees_at};
ghost use Rattle.contract_terms.specs.Accepts.{accepts_in, accepts_of as accepts_of_maybe, objects_in, receivers_of as receivers_of_type};
ghost use Rattle.contract_terms.specs.Views.{accepts_tree, objects_tree};

use abs_program::Named;
use abs_tree::TypeTerm;
use abs_types::{holds_futures, holds_objects};
use check_fun::Head;
use contract_terms::{Accepts, Objects};
use std::alloc::{AllocError, Global};

/// What a type lets in.
#[tactic(auto, unfolding(contract_terms::specs::Accepts::accepts_in))]
pub(crate) fn accepts_of(program: &Named<'_>, term: &TypeTerm) -> Accepts
    ensures { accepts_tree program.now.symbols result
        ≡ accepts_in (named_tree program.now).declarations (type_tree program.now.symbols term.now) }
{
    Accepts {
        objects: objects_of(program, term),
        futures: holds_futures(term),
    }
}

/// The objects that a type lets in.
#[tactic(auto, unfolding(contract_terms::specs::Accepts::objects_in))]
fn objects_of(program: &Named<'_>, term: &TypeTerm) -> Objects
    ensures { objects_tree program.now.symbols result
        ≡ objects_in (named_tree program.now).declarations (type_tree program.now.symbols term.now) }
{
    match term {
        TypeTerm::Interface(_, name) => Objects::Implementing(*name),
        TypeTerm::Class(name) => Objects::Of(*name),
        _ if holds_objects(program, term) => Objects::All,
        _ => Objects::None,
    }
}

/// The objects that can be the receiver of a call, by what its type is at its head.
pub(crate) fn receivers_of(head: Head) -> Objects
    ensures { (names : List Name) (type : PlainType) → head_named names head ≡ head_of type
        → objects_tree names result ≡ receivers_of_type (Some type) }
{
    match head {
        Head::Interface(name) => Objects::Implementing(name),
        Head::Class(name) => Objects::Of(name),
        Head::Other => Objects::None,
    }
}

/// What each of several types lets in, where a missing one lets in nothing.
///
/// # Errors
/// [`AllocError`] if an allocation fails. So it is for each function here.
pub(crate) fn accepts_of_slots(
    alloc: Global,
    program: &Named<'_>,
    types: &[Option<&TypeTerm>],
) -> Result<Vec<Accepts>, AllocError>
    ensures { IfOk result (λ found. map (accepts_tree program.now.symbols) found.items
        ≡ map (accepts_of_maybe (named_tree program.now).declarations) (maybe_types program.now.symbols types.now)) }
{
    let mut found = Vec::with_capacity(alloc, types.len())?;
    for term in types {
        found.push(accepts_of_slot(program, *term))?;
    }
    Ok(found)
}

/// What a type lets in, where a missing one lets in nothing.
fn accepts_of_slot(program: &Named<'_>, term: Option<&TypeTerm>) -> Accepts
    ensures { accepts_tree program.now.symbols result
        ≡ accepts_of_maybe (named_tree program.now).declarations (maybe_type program.now.symbols term.entry) }
{
    match term {
        Some(term) => accepts_of(program, term),
        None => Accepts::NOTHING,
    }
}

/// What each of several types lets in.
pub(crate) fn accepts_of_types(
    alloc: Global,
    program: &Named<'_>,
    types: &[&TypeTerm],
) -> Result<Vec<Accepts>, AllocError>
    ensures { IfOk result (λ found. map (accepts_tree program.now.symbols) found.items
        ≡ map (accepts_in (named_tree program.now).declarations) (type_trees_at program.now.symbols types.now)) }
{
    let mut found = Vec::with_capacity(alloc, types.len())?;
    for term in types {
        found.push(accepts_of(program, term))?;
    }
    Ok(found)
}
