//! The checker: the types that it has met, what is around an expression, and the first offence so far.
ghost use Rattle.std.specs.Prelude.{All, IfSome};
ghost use Rattle.abs_types.specs.TypeShapes.{IsAmong};
ghost use Rattle.abs_types.specs.TypeTables.{types_in};

use abs_tree::{Offence, Symbol};
use abs_types::{TypeIndex, TypeTable};

/// Checks expressions of a program. It has a type for each slot that is visible, and for each variable of a pattern or
/// of `let`, if the subject of its pattern has one.
#[derive(Drop)]
pub struct Checker<'a> {
    pub table: TypeTable<'a>,
    pub first: Option<Offence>,
    pub(crate) slots: Vec<Option<TypeIndex>>,
    pub(crate) fields: Vec<TypeIndex>,
    pub(crate) this: Option<Symbol>,
    pub(crate) task: Option<TypeIndex>,
    pub(crate) bound: Vec<Option<TypeIndex>>,
    ghost slots_are: { ∥ All (λ slot. IfSome slot (IsAmong (types_in table))) slots.items ∥₁ },
    ghost fields_are: { ∥ All (IsAmong (types_in table)) fields.items ∥₁ },
    ghost task_is: { ∥ IfSome task (IsAmong (types_in table)) ∥₁ },
    ghost bound_are: { ∥ All (λ variable. IfSome variable (IsAmong (types_in table))) bound.items ∥₁ },
}
