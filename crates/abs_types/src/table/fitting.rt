//! Whether a type of a table fits another one.
ghost use Rattle.std.specs.Prelude.{◌≡◌, ◌≢◌, false, List};
ghost use Rattle.abs_tree.specs.Names.{name_of};
ghost use Rattle.abs_program.specs.NamedViews.{named_tree};
ghost use Rattle.abs_tree.specs.Syntax.{Name};
ghost use Rattle.abs_types.specs.PlainTypes.{PlainType, PlainClass, PlainInterface, PlainNull};
ghost use Rattle.abs_types.specs.Subtyping.{fits, takes_null as takes_null_of};
ghost use Rattle.abs_types.specs.TypeParts.{have_parts_alike};
ghost use Rattle.abs_types.specs.TypeShapes.{shape_type, type_at, IsAmong};
ghost use Rattle.abs_types.specs.TypeTables.{declarations_of, types_in};

use crate::subtyping::{extends, implements};
use crate::table::parts::Parts;
use crate::table::shape::TypePair;
use crate::table::{Shape, TypeIndex, TypeTable};
use abs_program::Named;
use abs_tree::Symbol;

impl TypeTable<'_> {
    /// Whether a type fits another one.
    pub fn fits(&self, one: TypeIndex, other: TypeIndex) -> bool
        requires one { IsAmong (types_in self.now) one }
        requires other { IsAmong (types_in self.now) other }
        ensures { result ≡ fits (declarations_of self.now) (type_at (types_in self.now) one)
            (type_at (types_in self.now) other) }
    {
        let mut pair = TypePair { one, other };
        loop {
            if self.are_same(pair.one, pair.other) {
                return true;
            }
            let Some(parts) = self.parts(pair.one, pair.other) else {
                return self.fits_apart(pair.one, pair.other);
            };
            match parts {
                Parts::Futures(values) => return self.fits(values.one, values.other),
                Parts::Applied { heads, arguments } => {
                    if !self.fits(arguments.one, arguments.other) {
                        return false;
                    }
                    pair = heads;
                }
            }
        }
    }

    /// Whether a type fits another one, if they are not the same, and neither both `Fut` nor both applied.
    pub(crate) fn fits_apart(&self, one: TypeIndex, other: TypeIndex) -> bool
        requires one { IsAmong (types_in self.now) one }
        requires other { IsAmong (types_in self.now) other }
        requires differ { type_at (types_in self.now) one ≢ type_at (types_in self.now) other }
        requires apart { have_parts_alike (type_at (types_in self.now) one) (type_at (types_in self.now) other)
            ≡ false }
        ensures { result ≡ fits (declarations_of self.now) (type_at (types_in self.now) one)
            (type_at (types_in self.now) other) }
    {
        match self.shape(one) {
            Shape::Bottom => true,
            Shape::Null => takes_null(self.shape(other)),
            Shape::Interface(name) => interface_fits(self.program, Symbol(name), self.shape(other)),
            Shape::Class(name) => class_fits(self.program, Symbol(name), self.shape(other)),
            // A type of another form fits types of its own form alone.
            _ => false,
        }
    }
}

/// Whether the type of `null` fits another type.
fn takes_null(other: Shape) -> bool
    ensures { (names : List Name) (types : List PlainType) → PlainNull ≢ shape_type names types other
        → result ≡ takes_null_of (shape_type names types other) }
{
    matches!(other, Shape::Interface(_) | Shape::Fut(_))
}

/// Whether the interface with a name fits another type.
fn interface_fits(program: &Named<'_>, name: Symbol, other: Shape) -> bool
    ensures { (types : List PlainType)
        → PlainInterface (name_of program.now.symbols name) ≢ shape_type program.now.symbols types other
        → result ≡ fits (named_tree program.now).declarations (PlainInterface (name_of program.now.symbols name))
        (shape_type program.now.symbols types other) }
{
    match other {
        Shape::Interface(other) => extends(program, name, Symbol(other)),
        _ => false,
    }
}

/// Whether an object of the class with a name fits another type.
fn class_fits(program: &Named<'_>, name: Symbol, other: Shape) -> bool
    ensures { (types : List PlainType)
        → PlainClass (name_of program.now.symbols name) ≢ shape_type program.now.symbols types other
        → result ≡ fits (named_tree program.now).declarations (PlainClass (name_of program.now.symbols name))
        (shape_type program.now.symbols types other) }
{
    match other {
        Shape::Interface(other) => implements(program, name, Symbol(other)),
        _ => false,
    }
}
