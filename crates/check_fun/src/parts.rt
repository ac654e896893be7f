//! The types of the parts of a constructor, in a type that is matched.
ghost use Rattle.std.specs.Prelude.{◌≡◌, ◌≢◌, length, nat_eq, Option, Some, None, option_and_then, if◌then◌else◌, IfOk, OnOk};
ghost use Rattle.std.specs.Str.{bytes_eq};
ghost use Rattle.abs_tree.specs.Names.{name_of};
ghost use Rattle.abs_types.specs.Heads.{IsSpine};
ghost use Rattle.abs_types.specs.PatternTypes.{arguments_of, constructor_parts, if_as_many, DataOf};
ghost use Rattle.abs_types.specs.PlainTypes.{PlainApplied, PlainType};
ghost use Rattle.abs_types.specs.TypeShapes.{type_at};
ghost use Rattle.abs_types.specs.TypeTables.{types_in};
ghost use Rattle.check_fun.specs.Contexts.{items_of, Context, FindsAll, Finds, Found, Knows, Stays};

use crate::checker::Checker;
use abs_tree::Symbol;
use abs_types::{Shape, TypeIndex};
use std::alloc::AllocError;

/// A head, with the arguments to which it is applied, from the last one on.
#[derive(Drop)]
struct Spine {
    head: TypeIndex,
    arguments: Vec<TypeIndex>,
}

impl Checker<'_> {
    /// The types of the parts of a constructor, if it is one of the subject's type, and has this many parts.
    ///
    /// # Errors
    /// [`AllocError`] if an allocation fails, or if there are too many types or type parameters.
    pub(crate) fn parts_matched(
        &mut self,
        subject: Option<TypeIndex>,
        constructor: Symbol,
        count: usize,
    ) -> Result<Option<Vec<TypeIndex>>, AllocError>
        requires { Found self.old subject }
        ensures found { (context : Context) (type : Option PlainType) → Knows self.old context
            → Finds self.old subject type → IfOk result (λ found. FindsAll self.new (items_of found)
            (option_and_then (if_as_many count) (option_and_then (λ given. constructor_parts context.declarations
            given (name_of context.names constructor)) type))) }
        ensures first { self.new.first ≡ self.old.first }
        ensures stays { OnOk result (Stays self.old self.new) }
    {
        match subject {
            Some(subject) => match self.parts(subject, constructor)? {
                Some(parts) => Ok(as_many(parts, count)),
                None => Ok(None),
            },
            None => Ok(None),
        }
    }

    /// The types of the parts of a constructor, if it is one of the subject's type.
    ///
    /// # Errors
    /// [`AllocError`] if an allocation fails, or if there are too many types or type parameters.
    fn parts(
        &mut self,
        subject: TypeIndex,
        constructor: Symbol,
    ) -> Result<Option<Vec<TypeIndex>>, AllocError>
        requires { Found self.old (Some subject) }
        ensures found { (context : Context) (type : PlainType) → Knows self.old context
            → Finds self.old (Some subject) (Some type)
            → IfOk result (λ found. FindsAll self.new (items_of found)
            (constructor_parts context.declarations type (name_of context.names constructor))) }
        ensures first { self.new.first ≡ self.old.first }
        ensures stays { OnOk result (Stays self.old self.new) }
    {
        let Some(found) = self.constructor_takes(constructor)? else {
            return Ok(None);
        };
        if let Shape::Bottom = self.table.shape(subject) {
            return Ok(Some(vec![in self.table.alloc; subject; found.takes.len()]?));
        }
        match self.arguments_of(subject, found.owner)? {
            Some(arguments) => Ok(Some(self.all_replaced(
                arguments.as_slice(),
                found.takes.as_slice(),
            )?)),
            None => Ok(None),
        }
    }

    /// The arguments to which data with a name is applied, if a type is such data.
    ///
    /// # Errors
    /// [`AllocError`] if an allocation fails, or if there are too many types.
    fn arguments_of(
        &mut self,
        subject: TypeIndex,
        owner: Symbol,
    ) -> Result<Option<Vec<TypeIndex>>, AllocError>
        requires { Found self.old (Some subject) }
        ensures found { (context : Context) (type : PlainType) → Knows self.old context
            → Finds self.old (Some subject) (Some type) → IfOk result (λ found. FindsAll self.new (items_of found)
            (option_and_then (λ (known : DataOf). if bytes_eq (name_of context.names owner) known.name then
            Some known.arguments else None) (arguments_of type))) }
        ensures first { self.new.first ≡ self.old.first }
        ensures stays { OnOk result (Stays self.old self.new) }
    {
        let owner = self.data(owner)?;
        let Spine {
            head,
            mut arguments,
        } = self.spine(subject)?;
        if !self.table.are_same(head, owner) {
            return Ok(None);
        }
        arguments.reverse();
        Ok(Some(arguments))
    }

    /// A type, walked down its heads as far as they are applied.
    ///
    /// # Errors
    /// [`AllocError`] if an allocation fails.
    fn spine(&self, index: TypeIndex) -> Result<Spine, AllocError>
        requires { Found self.now (Some index) }
        ensures is { IfOk result (λ spine. IsSpine (types_in self.now.table) index spine.head spine.arguments.items) }
        ensures last { IfOk result (λ spine. (one other : PlainType)
            → type_at (types_in self.now.table) spine.head ≢ PlainApplied one other) }
    {
        let mut head = index;
        let mut arguments = Vec::new(self.table.alloc);
        while let Shape::Applied {
            head: inner,
            argument,
        } = self.table.shape(head)
        {
            arguments.push(argument)?;
            head = inner;
        }
        Ok(Spine { head, arguments })
    }
}

/// Types, if there are this many.
fn as_many(types: Vec<TypeIndex>, count: usize) -> Option<Vec<TypeIndex>>
    ensures { items_of result ≡ (if nat_eq (length types.items) count then Some types.items else None) }
{
    if types.len() == count {
        Some(types)
    } else {
        None
    }
}
