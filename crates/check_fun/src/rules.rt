//! Typing rules: the type of an expression by those of its parts. None notes an offence.
ghost use Rattle.std.specs.Prelude.{◌≡◌, List, Option, Some, option_and_then, slice_get, IfOk};
ghost use Rattle.abs_tree.specs.SyntaxViews.{variable_tree};
ghost use Rattle.abs_types.specs.ExpressionOffences.{is_visible};
ghost use Rattle.abs_types.specs.OperatorTypes.{prefix_type, type_if};
ghost use Rattle.abs_types.specs.PlainTypes.{PlainType};
ghost use Rattle.abs_types.specs.Subtyping.{fits};
ghost use Rattle.abs_types.specs.Typing.{if_type, join_branches, let_type, variable_type};
ghost use Rattle.check_fun.specs.Contexts.{Context, FindsAll, Finds, FoundAll, Found, Knows, Stays};

use crate::checker::Checker;
use abs_tree::{Prefix, Variable};
use abs_types::TypeIndex;
use std::alloc::AllocError;

impl Checker<'_> {
    /// The type of a variable, if it is known.
    pub fn variable_type(&self, variable: Variable) -> Option<TypeIndex>
        ensures { (context : Context) → Knows self.now context → Finds self.now result
            (variable_type context.frame context.bound (variable_tree context.names variable)) }
    {
        match variable {
            Variable::Slot(slot) => index_at(&self.slots, slot),
            Variable::Bound(depth) => index_at(&self.bound, depth),
            Variable::Field(field) => field_at(&self.fields, field),
            Variable::Unresolved(_) => None,
        }
    }

    /// Whether a variable is there. One of a pattern whose subject has no type is there, and has no type either.
    pub(crate) fn is_visible(&self, variable: Variable) -> bool
        ensures { (context : Context) → Knows self.now context
            → result ≡ is_visible context.frame context.bound (variable_tree context.names variable) }
    {
        match variable {
            Variable::Bound(depth) => (depth as usize) < self.bound.len(),
            Variable::Slot(_) | Variable::Field(_) => self.variable_type(variable).is_some(),
            Variable::Unresolved(_) => false,
        }
    }

    /// The type of a `let`: that of its body, if the value fits the declared type.
    pub(crate) fn let_rule(
        &self,
        value: Option<TypeIndex>,
        declared: TypeIndex,
        body: Option<TypeIndex>,
    ) -> Option<TypeIndex>
        requires value { Found self.now value }
        requires declared { Found self.now (Some declared) }
        ensures { (context : Context) (given gives : Option PlainType) (type : PlainType) → Knows self.now context
            → Finds self.now value given → Finds self.now (Some declared) (Some type)
            → Finds self.now body gives
            → Finds self.now result (let_type context.declarations type given gives) }
    {
        let Some(value) = value else {
            return None;
        };
        if self.table.fits(value, declared) {
            body
        } else {
            None
        }
    }

    /// The type of an `if`: the join of both branches, if there is one and the condition is a `Bool`.
    #[tactic(auto, using(crate::proofs::ContextLemmas::found_stays, crate::proofs::ContextLemmas::stays_transitive))]
    pub(crate) fn if_rule(
        &mut self,
        condition: Option<TypeIndex>,
        first: Option<TypeIndex>,
        second: Option<TypeIndex>,
    ) -> Result<Option<TypeIndex>, AllocError>
        requires condition { Found self.old condition }
        requires first { Found self.old first }
        requires second { Found self.old second }
        ensures found { (context : Context) (given one other : Option PlainType) → Knows self.old context
            → Finds self.old condition given → Finds self.old first one → Finds self.old second other
            → IfOk result (λ found. Finds self.new found (if_type context.declarations given one other)) }
        ensures first { self.new.first ≡ self.old.first }
        ensures stays { Stays self.old self.new }
    {
        let Some(condition) = condition else {
            return Ok(None);
        };
        let Some(first) = first else {
            return Ok(None);
        };
        let Some(second) = second else {
            return Ok(None);
        };
        let asked = self.bool()?;
        if !self.table.fits(condition, asked) {
            return Ok(None);
        }
        self.join(first, second)
    }

    /// The type of an operator with the operand after it, if the operand fits what the operator asks for.
    pub(crate) fn prefix_rule(
        &mut self,
        prefix: Prefix,
        operand: TypeIndex,
    ) -> Result<Option<TypeIndex>, AllocError>
        requires { Found self.old (Some operand) }
        ensures found { (context : Context) (given : PlainType) → Knows self.old context
            → Finds self.old (Some operand) (Some given)
            → IfOk result (λ found. Finds self.new found (prefix_type context.declarations prefix given)) }
        ensures first { self.new.first ≡ self.old.first }
        ensures stays { Stays self.old self.new }
    {
        match prefix {
            Prefix::Not | Prefix::Tilde => {
                let bool = self.bool()?;
                Ok(self.fitting(operand, bool))
            }
            Prefix::Minus => {
                let int = self.int()?;
                Ok(self.fitting(operand, int))
            }
        }
    }

    /// A type, if the operand fits it.
    fn fitting(&self, operand: TypeIndex, asked: TypeIndex) -> Option<TypeIndex>
        requires operand { Found self.now (Some operand) }
        requires asked { Found self.now (Some asked) }
        ensures { (context : Context) (given wanted : PlainType) → Knows self.now context
            → Finds self.now (Some operand) (Some given) → Finds self.now (Some asked) (Some wanted)
            → Finds self.now result (type_if (fits context.declarations given wanted) wanted) }
    {
        if self.table.fits(operand, asked) {
            Some(asked)
        } else {
            None
        }
    }

    /// The join of types, from the left, if there is one; there is none of no type.
    #[tactic(auto, using(crate::proofs::ContextLemmas::stays_transitive))]
    pub(crate) fn join_all(&mut self, types: &[TypeIndex]) -> Result<Option<TypeIndex>, AllocError>
        requires { FoundAll self.old (Some types.now) }
        ensures found { (context : Context) (plain_types : List PlainType) → Knows self.old context
            → FindsAll self.old (Some types.now) (Some plain_types)
            → IfOk result (λ found. Finds self.new found (join_branches context.declarations plain_types)) }
        ensures first { self.new.first ≡ self.old.first }
        ensures stays { Stays self.old self.new }
    {
        let Some((first, others)) = types.split_first() else {
            return Ok(None);
        };
        let mut found = *first;
        for other in others {
            let Some(joined) = self.join(found, *other)? else {
                return Ok(None);
            };
            found = joined;
        }
        Ok(Some(found))
    }
}

/// The index with a place, if there is one there.
fn index_at(indices: &[Option<TypeIndex>], place: u32) -> Option<TypeIndex>
    ensures { result ≡ option_and_then (λ found. found) (slice_get indices.now place) }
{
    *indices.get(place as usize)?
}

/// The index of the type of the field with a place, if there are as many fields.
fn field_at(fields: &[TypeIndex], place: u32) -> Option<TypeIndex>
    ensures { result ≡ slice_get fields.now place }
{
    Some(*fields.get(place as usize)?)
}
