//! What types hold.
ghost use Rattle.std.specs.Prelude.{◌≡◌, List};
ghost use Rattle.abs_tree.specs.Names.{name_of};
ghost use Rattle.abs_program.specs.NameSpaces.{spaces_of};
ghost use Rattle.abs_program.specs.NamedViews.{named_tree};
ghost use Rattle.abs_tree.specs.Syntax.{Name};
ghost use Rattle.abs_tree.specs.SyntaxViews.{type_tree, type_trees};
ghost use Rattle.abs_program.specs.Tables.{meaning_of};
ghost use Rattle.abs_types.specs.Holds.{any_holds_futures as any_future_in, any_holds_objects as any_object_in, data_holds as name_holds, holds_futures_in, holds_objects_in};

use abs_program::{Named, TypeMeaning};
use abs_tree::{Symbol, TypeTerm};

/// Whether values of a type can have objects in them, outside of futures: an interface, or data whose declaration leads
/// to one, is in the type outside of `Fut`. A type parameter, the types of no value and of `null`, and an object of a
/// class do not count.
#[cycle(objects)]
pub fn holds_objects(program: &Named<'_>, term: &TypeTerm) -> bool
    ensures { result ≡ holds_objects_in (named_tree program.now).declarations
        (type_tree program.now.symbols term.now) }
{
    match term {
        TypeTerm::Interface(..) => true,
        TypeTerm::Data {
            name,
            arguments,
            ..
        } => data_holds(program, *name) || any_holds_objects(program, arguments),
        TypeTerm::Unresolved { .. }
        | TypeTerm::Int(_)
        | TypeTerm::String(_)
        | TypeTerm::Fut(..)
        | TypeTerm::Parameter(..)
        | TypeTerm::Bottom
        | TypeTerm::Null
        | TypeTerm::Class(_) => false,
    }
}

/// Whether values of one of several types can have objects in them, outside of futures.
#[cycle(objects)]
fn any_holds_objects(program: &Named<'_>, terms: &[TypeTerm]) -> bool
    ensures { result ≡ any_object_in (named_tree program.now).declarations
        (type_trees program.now.symbols terms.now) }
{
    for term in terms {
        if holds_objects(program, term) {
            return true;
        }
    }
    false
}

/// Whether a name stands for data whose declaration leads to an interface, outside of `Fut`.
fn data_holds(program: &Named<'_>, name: Symbol) -> bool
    ensures { result ≡ name_holds (named_tree program.now).declarations
        (meaning_of (spaces_of (named_tree program.now).declarations).types (name_of program.now.symbols name)) }
{
    match program.type_named(name) {
        Some(TypeMeaning::Data(taking)) => program.holds_objects(taking.declaration),
        Some(TypeMeaning::Int | TypeMeaning::String | TypeMeaning::Fut | TypeMeaning::Interface(_))
        | None => false,
    }
}

/// Whether `Fut` is in a type.
#[cycle(futures)]
pub fn holds_futures(term: &TypeTerm) -> bool
    ensures { (names : List Name) → result ≡ holds_futures_in (type_tree names term.now) }
{
    match term {
        TypeTerm::Fut(..) => true,
        TypeTerm::Data { arguments, .. } => any_holds_futures(arguments),
        TypeTerm::Unresolved { .. }
        | TypeTerm::Int(_)
        | TypeTerm::String(_)
        | TypeTerm::Interface(..)
        | TypeTerm::Parameter(..)
        | TypeTerm::Bottom
        | TypeTerm::Null
        | TypeTerm::Class(_) => false,
    }
}

/// Whether `Fut` is in one of several types.
#[cycle(futures)]
fn any_holds_futures(terms: &[TypeTerm]) -> bool
    ensures { (names : List Name) → result ≡ any_future_in (type_trees names terms.now) }
{
    for term in terms {
        if holds_futures(term) {
            return true;
        }
    }
    false
}
