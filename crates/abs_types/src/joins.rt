//! The join of two types.
ghost use Rattle.std.specs.Prelude.{◌≡◌, false, option_map, IfOk, Vec};
ghost use Rattle.abs_program.specs.NamedViews.{named_tree};
ghost use Rattle.abs_tree.specs.SyntaxViews.{type_tree, type_trees};
ghost use Rattle.abs_types.specs.Arguments.{data_type, joins_of};
ghost use Rattle.abs_types.specs.PlainTypes.{plain, plains, PlainFut};
ghost use Rattle.abs_types.specs.Joins.{join_of};
ghost use Rattle.abs_types.specs.Subtyping.{fits};

use crate::copies::copied;
use crate::subtyping::{same_name, subtype};
use abs_program::Named;
use abs_tree::{Place, Symbol, TypeTerm};
use std::alloc::{AllocError, Global};

/// The join of two types in a program: the least type that both fit, if there is one.
///
/// # Errors
/// [`AllocError`] if an allocation fails.
#[cycle(joins)]
#[tactic(auto, using(crate::proofs::JoinFormLemmas::no_parts_join))]
pub fn join(
    alloc: Global,
    program: &Named<'_>,
    left: &TypeTerm,
    right: &TypeTerm,
) -> Result<Option<TypeTerm>, AllocError>
    ensures { IfOk result (λ found. option_map (λ (term : TypeTerm). plain (type_tree program.now.symbols term)) found
        ≡ join_of (named_tree program.now).declarations
        (plain (type_tree program.now.symbols left.now)) (plain (type_tree program.now.symbols right.now))) }
{
    if subtype(program, left, right) {
        return Ok(Some(copied(alloc, right)?));
    }
    if subtype(program, right, left) {
        return Ok(Some(copied(alloc, left)?));
    }
    match left {
        TypeTerm::Fut(place, value) => future_join(alloc, program, *place, value, right),
        TypeTerm::Unresolved {
            place,
            name,
            arguments,
        }
        | TypeTerm::Data {
            place,
            name,
            arguments,
        } => data_join(alloc, program, *place, *name, arguments, right),
        TypeTerm::Int(_)
        | TypeTerm::String(_)
        | TypeTerm::Interface(..)
        | TypeTerm::Parameter(..)
        | TypeTerm::Bottom
        | TypeTerm::Null
        | TypeTerm::Class(_) => Ok(None),
    }
}

/// The join of `Fut` of a type and of another type, neither of which fits the other. It has a given place.
///
/// # Errors
/// [`AllocError`] if an allocation fails.
#[cycle(joins)]
fn future_join(
    alloc: Global,
    program: &Named<'_>,
    place: Place,
    value: &TypeTerm,
    right: &TypeTerm,
) -> Result<Option<TypeTerm>, AllocError>
    requires left { fits (named_tree program.now).declarations
        (PlainFut (plain (type_tree program.now.symbols value.now)))
        (plain (type_tree program.now.symbols right.now)) ≡ false }
    requires right { fits (named_tree program.now).declarations (plain (type_tree program.now.symbols right.now))
        (PlainFut (plain (type_tree program.now.symbols value.now))) ≡ false }
    ensures { IfOk result (λ found. option_map (λ (term : TypeTerm). plain (type_tree program.now.symbols term)) found
        ≡ join_of (named_tree program.now).declarations (PlainFut (plain (type_tree program.now.symbols value.now)))
        (plain (type_tree program.now.symbols right.now))) }
{
    let TypeTerm::Fut(_, other) = right else {
        return Ok(None);
    };
    match join(alloc, program, value, other)? {
        Some(joined) => Ok(Some(TypeTerm::Fut(place, Box::new(alloc, joined)?))),
        None => Ok(None),
    }
}

/// The join of data that is applied to arguments and of another type, if neither fits the other. It has a given place.
///
/// # Errors
/// [`AllocError`] if an allocation fails.
#[cycle(joins)]
#[tactic(auto, using(crate::proofs::JoinFormLemmas::data_no_join))]
fn data_join(
    alloc: Global,
    program: &Named<'_>,
    place: Place,
    name: Symbol,
    arguments: &[TypeTerm],
    right: &TypeTerm,
) -> Result<Option<TypeTerm>, AllocError>
    ensures { fits (named_tree program.now).declarations (data_type program.now.symbols name arguments.now)
        (plain (type_tree program.now.symbols right.now)) ≡ false
        → fits (named_tree program.now).declarations (plain (type_tree program.now.symbols right.now))
        (data_type program.now.symbols name arguments.now) ≡ false
        → IfOk result (λ found. option_map (λ (term : TypeTerm). plain (type_tree program.now.symbols term)) found
        ≡ join_of (named_tree program.now).declarations (data_type program.now.symbols name arguments.now)
        (plain (type_tree program.now.symbols right.now))) }
{
    match right {
        TypeTerm::Unresolved {
            name: other_name,
            arguments: others,
            ..
        }
        | TypeTerm::Data {
            name: other_name,
            arguments: others,
            ..
        } => applied_join(alloc, program, place, name, arguments, *other_name, others),
        TypeTerm::Int(_)
        | TypeTerm::String(_)
        | TypeTerm::Fut(..)
        | TypeTerm::Interface(..)
        | TypeTerm::Parameter(..)
        | TypeTerm::Bottom
        | TypeTerm::Null
        | TypeTerm::Class(_) => Ok(None),
    }
}

/// The join of data that is applied to arguments and of data that is applied to others. It has a given place.
///
/// # Errors
/// [`AllocError`] if an allocation fails.
#[cycle(joins)]
fn applied_join(
    alloc: Global,
    program: &Named<'_>,
    place: Place,
    name: Symbol,
    arguments: &[TypeTerm],
    other_name: Symbol,
    others: &[TypeTerm],
) -> Result<Option<TypeTerm>, AllocError>
    ensures { IfOk result (λ found. option_map (λ (term : TypeTerm). plain (type_tree program.now.symbols term)) found
        ≡ join_of (named_tree program.now).declarations (data_type program.now.symbols name arguments.now)
        (data_type program.now.symbols other_name others.now)) }
{
    if !same_name(program, name, other_name) {
        return Ok(None);
    }
    match join_arguments(alloc, program, arguments, others)? {
        Some(arguments) => Ok(Some(TypeTerm::Data {
            place,
            name,
            arguments,
        })),
        None => Ok(None),
    }
}

/// The joins of the types of two lists one by one, if there are all. There are none for lists of different lengths.
///
/// # Errors
/// [`AllocError`] if an allocation fails.
#[cycle(joins)]
fn join_arguments(
    alloc: Global,
    program: &Named<'_>,
    left: &[TypeTerm],
    right: &[TypeTerm],
) -> Result<Option<Vec<TypeTerm>>, AllocError>
    ensures { IfOk result (λ found. option_map (λ (terms : Vec TypeTerm Global).
        plains (type_trees program.now.symbols terms.items)) found
        ≡ joins_of (named_tree program.now).declarations
        (plains (type_trees program.now.symbols left.now)) (plains (type_trees program.now.symbols right.now))) }
{
    if left.len() != right.len() {
        return Ok(None);
    }
    let mut found = Vec::with_capacity(alloc, left.len())?;
    for (index, one) in left.iter().enumerate() {
        match join(alloc, program, one, &right[index])? {
            Some(joined) => found.push(joined)?,
            None => return Ok(None),
        }
    }
    Ok(Some(found))
}
