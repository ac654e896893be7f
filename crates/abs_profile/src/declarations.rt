//! The profile offences of declarations: a future in a field, in a class parameter or in data, and what offends in a
//! body or in a value.
ghost use Rattle.std.specs.Prelude.{◌≡◌, fold, List, map};
ghost use Rattle.std.specs.List.{flat_map};
ghost use Rattle.abs_tree.specs.Offences.{earlier};
ghost use Rattle.abs_tree.specs.Syntax.{Name};
ghost use Rattle.abs_tree.specs.SyntaxViews.{constructor_tree, decl_tree, maybe_expr, member_tree, param_tree, type_tree, type_trees};
ghost use Rattle.abs_profile.specs.Profile.{constructor_offences, decl_offences, future_offences, member_offences, param_offences, type_place as place_of_type, types_offences, value_offences};

use crate::expressions::{note_at, note_in_expression};
use crate::statements::note_in_statements;
use abs_tree::{Code, Constructor, Decl, Expr, Member, Offence, Param, Place, TypeTerm};
use abs_types::holds_futures;
use std::sync::Arc;

/// Notes the profile offences of declarations.
pub(crate) fn note_in_declarations(declarations: &[Decl], first: &mut Option<Offence>)
    ensures { (names : List Name) → first.new
        ≡ fold earlier first.old (flat_map decl_offences (map (decl_tree names) declarations.now)) }
{
    for decl in declarations {
        note_in_declaration(decl, first);
    }
}

/// Notes those of a declaration.
fn note_in_declaration(decl: &Decl, first: &mut Option<Offence>)
    ensures { (names : List Name) → first.new ≡ fold earlier first.old (decl_offences (decl_tree names decl.now)) }
{
    match decl {
        Decl::Data { constructors, .. } => note_in_constructors(constructors, first),
        Decl::Function { value, .. } => note_in_expression(value, first),
        Decl::Interface { .. } => {}
        Decl::Class {
            params,
            members,
            ..
        } => {
            note_in_params(params, first);
            note_in_members(members, first);
        }
    }
}

/// Notes those of the constructors of data.
fn note_in_constructors(constructors: &[Constructor], first: &mut Option<Offence>)
    ensures { (names : List Name) → first.new
        ≡ fold earlier first.old (flat_map constructor_offences (map (constructor_tree names) constructors.now)) }
{
    for constructor in constructors {
        note_in_types(&constructor.types, first);
    }
}

/// Notes those of the parameters of a class.
fn note_in_params(params: &[Param], first: &mut Option<Offence>)
    ensures { (names : List Name) → first.new
        ≡ fold earlier first.old (flat_map param_offences (map (param_tree names) params.now)) }
{
    for param in params {
        note_in_type(&param.type_of, first);
    }
}

/// Notes those of the members of a class.
fn note_in_members(members: &[Member], first: &mut Option<Offence>)
    ensures { (names : List Name) → first.new
        ≡ fold earlier first.old (flat_map member_offences (map (member_tree names) members.now)) }
{
    for member in members {
        note_in_member(member, first);
    }
}

/// Notes those of a member of a class.
fn note_in_member(member: &Member, first: &mut Option<Offence>)
    ensures { (names : List Name) → first.new
        ≡ fold earlier first.old (member_offences (member_tree names member.now)) }
{
    match member {
        Member::Field {
            type_of,
            initial,
            ..
        } => {
            note_in_type(type_of, first);
            note_in_value(initial, first);
        }
        Member::Method(_, body) => note_in_statements(&body.statements, first),
    }
}

/// Notes those of the initial value of a field, if it has one.
fn note_in_value(value: &Option<Arc<Expr>>, first: &mut Option<Offence>)
    ensures { (names : List Name) → first.new
        ≡ fold earlier first.old (value_offences (maybe_expr names value.now)) }
{
    if let Some(value) = value {
        note_in_expression(value, first);
    }
}

/// Notes those of the types of a constructor's arguments.
fn note_in_types(types: &[TypeTerm], first: &mut Option<Offence>)
    ensures { (names : List Name) → first.new ≡ fold earlier first.old (types_offences (type_trees names types.now)) }
{
    for type_of in types {
        note_in_type(type_of, first);
    }
}

/// Notes a type where it begins, if `Fut` occurs in it.
fn note_in_type(type_of: &TypeTerm, first: &mut Option<Offence>)
    ensures { (names : List Name) → first.new ≡ fold earlier first.old (future_offences (type_tree names type_of.now)) }
{
    if holds_futures(type_of) {
        if let Some(place) = type_place(type_of) {
            note_at(place, Code::P2, first);
        }
    }
}

/// Where a type begins. Types that no source writes have no place.
fn type_place(type_of: &TypeTerm) -> Option<Place>
    ensures { (names : List Name) → result ≡ place_of_type (type_tree names type_of.now) }
{
    match type_of {
        TypeTerm::Unresolved { place, .. }
        | TypeTerm::Int(place)
        | TypeTerm::String(place)
        | TypeTerm::Fut(place, _)
        | TypeTerm::Data { place, .. }
        | TypeTerm::Interface(place, _)
        | TypeTerm::Parameter(place, _) => Some(*place),
        TypeTerm::Bottom | TypeTerm::Null | TypeTerm::Class(_) => None,
    }
}
