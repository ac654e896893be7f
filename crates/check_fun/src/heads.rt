//! The type of an expression at its head, for the analysis: it asks whether an object is of an interface or of a class.
//! There all slots of the body count as visible, which gives the same type wherever the expression has one
//! ([`types_stay_in_wider_frames`](abs_types::types_stay_in_wider_frames)).
ghost use Rattle.std.specs.Prelude.{◌≡◌, Some, option_map, IfOk, OnOk};
ghost use Rattle.abs_types.specs.PlainTypes.{PlainType};
ghost use Rattle.check_fun.specs.Contexts.{offends, typed, Context, Finds, Found, Knows, Noted, Stays};
ghost use Rattle.check_fun.specs.ObjectHeads.{head_named, head_of};

use crate::checker::Checker;
use abs_tree::{Expr, Symbol};
use abs_types::{Shape, TypeIndex};
use std::alloc::AllocError;

/// What a type is at its head.
#[derive(Clone, Copy, Debug, PartialEq, Eq)]
pub enum Head {
    /// The interface with this name.
    Interface(Symbol),
    /// An object of the class with this name.
    Class(Symbol),
    /// Another type.
    Other,
}

impl Checker<'_> {
    /// What the type of an expression is at its head, if it has one. What offends in it is noted.
    ///
    /// # Errors
    /// [`AllocError`] if an allocation fails, or if there are too many types.
    pub fn head(&mut self, expr: &Expr) -> Result<Option<Head>, AllocError>
        ensures found { (context : Context) → Knows self.old context → IfOk result
            (λ found. option_map (head_named context.names) found ≡ option_map head_of (typed context expr.now)) }
        ensures noted { (context : Context) → Knows self.old context
            → OnOk result (Noted self.old.first (offends context expr.now) self.new.first) }
        ensures stays { OnOk result (Stays self.old self.new) }
    {
        let found = self.expression(expr)?;
        match found {
            Some(index) => Ok(Some(self.head_at(index))),
            None => Ok(None),
        }
    }

    /// What a type is at its head.
    pub fn head_at(&self, index: TypeIndex) -> Head
        requires { Found self.now (Some index) }
        ensures { (context : Context) (type : PlainType) → Knows self.now context
            → Finds self.now (Some index) (Some type) → head_named context.names result ≡ head_of type }
    {
        match self.table.shape(index) {
            Shape::Interface(name) => Head::Interface(Symbol(name)),
            Shape::Class(name) => Head::Class(Symbol(name)),
            _ => Head::Other,
        }
    }
}
