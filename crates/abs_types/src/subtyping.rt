//! Whether a type fits another one.
ghost use Rattle.std.specs.Prelude.{◌≡◌, List, Some};
ghost use Rattle.std.specs.Str.{bytes_eq};
ghost use Rattle.abs_tree.specs.Names.{name_of};
ghost use Rattle.abs_program.specs.NameSpaces.{spaces_of};
ghost use Rattle.abs_program.specs.NamedViews.{named_tree};
ghost use Rattle.abs_tree.specs.Syntax.{DeclTree, Name};
ghost use Rattle.abs_tree.specs.SyntaxViews.{type_tree, type_trees};
ghost use Rattle.abs_program.specs.Tables.{meaning_of};
ghost use Rattle.abs_program.specs.declared.name_spaces.Taking.{Taking};
ghost use Rattle.abs_program.specs.declared.name_spaces.TypeMeaning.TheVariants as type;
ghost use Rattle.abs_types.specs.Arguments.{all_fit as all_fit_of, data_type, fitting_count as fitting_count_of};
ghost use Rattle.abs_types.specs.PlainTypes.{plain, plains, PlainClass, PlainInterface, PlainParameter};
ghost use Rattle.abs_types.specs.Subtyping.{class_below, extends_name, fits, implements_name, interface_below, takes_null as takes_null_of};

use abs_program::{Named, TypeMeaning};
use abs_tree::{Symbol, TypeTerm};

/// Whether a type fits another one in a program: a value of the first may be where one of the second is asked for.
#[cycle(subtyping)]
#[tactic(auto, unfolding(crate::specs::Subtyping::fits))]
pub fn subtype(program: &Named<'_>, left: &TypeTerm, right: &TypeTerm) -> bool
    ensures { result ≡ fits (named_tree program.now).declarations
        (plain (type_tree program.now.symbols left.now)) (plain (type_tree program.now.symbols right.now)) }
{
    match left {
        TypeTerm::Bottom => true,
        TypeTerm::Null => takes_null(right),
        TypeTerm::Int(_) => matches!(right, TypeTerm::Int(_)),
        TypeTerm::String(_) => matches!(right, TypeTerm::String(_)),
        TypeTerm::Fut(_, value) => match right {
            TypeTerm::Fut(_, other) => subtype(program, value, other),
            _ => false,
        },
        TypeTerm::Unresolved {
            name,
            arguments,
            ..
        }
        | TypeTerm::Data {
            name,
            arguments,
            ..
        } => data_fits(program, *name, arguments, right),
        TypeTerm::Interface(_, name) => interface_fits(program, *name, right),
        TypeTerm::Parameter(_, index) => is_parameter(*index, right),
        TypeTerm::Class(name) => class_fits(program, *name, right),
    }
}

/// Whether the type of `null` fits a type.
fn takes_null(term: &TypeTerm) -> bool
    ensures { (names : List Name) → result ≡ takes_null_of (plain (type_tree names term.now)) }
{
    matches!(
        term,
        TypeTerm::Interface(..) | TypeTerm::Fut(..) | TypeTerm::Null
    )
}

/// Whether a type is the type parameter with an index.
#[tactic(auto, unfolding(crate::specs::Subtyping::fits))]
fn is_parameter(index: u32, term: &TypeTerm) -> bool
    ensures { (declarations : List DeclTree) (names : List Name) → result ≡ fits declarations (PlainParameter index)
        (plain (type_tree names term.now)) }
{
    match term {
        TypeTerm::Parameter(_, other) => index == *other,
        _ => false,
    }
}

/// Whether the interface with a name fits a type.
#[tactic(auto, unfolding(crate::specs::Subtyping::fits))]
fn interface_fits(program: &Named<'_>, name: Symbol, right: &TypeTerm) -> bool
    ensures { result ≡ fits (named_tree program.now).declarations
        (PlainInterface (name_of program.now.symbols name)) (plain (type_tree program.now.symbols right.now)) }
{
    match right {
        TypeTerm::Interface(_, other) => {
            same_name(program, name, *other) || extends(program, name, *other)
        }
        _ => false,
    }
}

/// Whether an object of the class with a name fits a type.
#[tactic(auto, unfolding(crate::specs::Subtyping::fits))]
fn class_fits(program: &Named<'_>, name: Symbol, right: &TypeTerm) -> bool
    ensures { result ≡ fits (named_tree program.now).declarations
        (PlainClass (name_of program.now.symbols name)) (plain (type_tree program.now.symbols right.now)) }
{
    match right {
        TypeTerm::Class(other) => same_name(program, name, *other),
        TypeTerm::Interface(_, other) => implements(program, name, *other),
        _ => false,
    }
}

/// Whether two symbols have the same name.
pub fn same_name(program: &Named<'_>, one: Symbol, other: Symbol) -> bool
    ensures { result ≡ bytes_eq (name_of program.now.symbols one) (name_of program.now.symbols other) }
{
    program.symbols.number(one) == program.symbols.number(other)
}

/// Whether the interface with a name extends that with another name, in one step or in more.
#[tactic(auto, unfolding(crate::specs::Subtyping::extends_name))]
pub(crate) fn extends(program: &Named<'_>, one: Symbol, other: Symbol) -> bool
    ensures { result ≡ extends_name (named_tree program.now).declarations
        (name_of program.now.symbols one) (name_of program.now.symbols other) }
{
    match program.type_named(one) {
        Some(TypeMeaning::Interface(declaration)) => {
            is_below_interface(program, declaration, other)
        }
        Some(TypeMeaning::Int | TypeMeaning::String | TypeMeaning::Fut | TypeMeaning::Data(_))
        | None => false,
    }
}

/// Whether the class with a name implements the interface with another name, directly or through `extends`.
#[tactic(auto, unfolding(crate::specs::Subtyping::implements_name))]
pub fn implements(program: &Named<'_>, class: Symbol, interface: Symbol) -> bool
    ensures { result ≡ implements_name (named_tree program.now).declarations
        (name_of program.now.symbols class) (name_of program.now.symbols interface) }
{
    match program.class(class) {
        Some(taking) => is_below_interface(program, taking.declaration, interface),
        None => false,
    }
}

/// Whether a declaration is below the interface with a name.
fn is_below_interface(program: &Named<'_>, declaration: u32, interface: Symbol) -> bool
    ensures interface { result ≡ interface_below (named_tree program.now).declarations
        (Some (type.Interface declaration))
        (meaning_of (spaces_of (named_tree program.now).declarations).types
        (name_of program.now.symbols interface)) }
    ensures class { (class : Taking) → class.declaration ≡ declaration
        → result ≡ class_below (named_tree program.now).declarations (Some class)
        (meaning_of (spaces_of (named_tree program.now).declarations).types
        (name_of program.now.symbols interface)) }
{
    match program.type_named(interface) {
        Some(TypeMeaning::Interface(other)) => program.is_below(declaration, other),
        Some(TypeMeaning::Int | TypeMeaning::String | TypeMeaning::Fut | TypeMeaning::Data(_))
        | None => false,
    }
}

/// Whether data that is applied to arguments fits a type.
#[cycle(subtyping)]
#[tactic(auto, using(crate::proofs::SpineLemmas::data_apart))]
fn data_fits(program: &Named<'_>, name: Symbol, arguments: &[TypeTerm], right: &TypeTerm) -> bool
    ensures { result ≡ fits (named_tree program.now).declarations
        (data_type program.now.symbols name arguments.now)
        (plain (type_tree program.now.symbols right.now)) }
{
    match right {
        TypeTerm::Unresolved {
            name: other_name,
            arguments: others,
            ..
        }
        | TypeTerm::Data {
            name: other_name,
            arguments: others,
            ..
        } => same_name(program, name, *other_name) && all_fit(program, arguments, others),
        TypeTerm::Int(_)
        | TypeTerm::String(_)
        | TypeTerm::Fut(..)
        | TypeTerm::Interface(..)
        | TypeTerm::Parameter(..)
        | TypeTerm::Bottom
        | TypeTerm::Null
        | TypeTerm::Class(_) => false,
    }
}

/// Whether two lists of types have the same length, and each type of the first fits that of the second.
#[cycle(subtyping)]
fn all_fit(program: &Named<'_>, terms: &[TypeTerm], others: &[TypeTerm]) -> bool
    ensures { result ≡ all_fit_of (named_tree program.now).declarations
        (plains (type_trees program.now.symbols terms.now)) (plains (type_trees program.now.symbols others.now)) }
{
    terms.len() == others.len() && fitting_count(program, terms, others) == terms.len()
}

/// How many types at the beginning of a list fit those of another list one by one.
#[cycle(subtyping)]
fn fitting_count(program: &Named<'_>, terms: &[TypeTerm], others: &[TypeTerm]) -> usize
    ensures { result ≡ fitting_count_of (named_tree program.now).declarations
        (plains (type_trees program.now.symbols terms.now)) (plains (type_trees program.now.symbols others.now)) }
{
    for (index, term) in terms.iter().enumerate() {
        match others.get(index) {
            Some(other) => {
                if !subtype(program, term, other) {
                    return index;
                }
            }
            None => return index,
        }
    }
    terms.len()
}
