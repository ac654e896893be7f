//! Operators between operands, by the types of these. None notes an offence.
ghost use Rattle.std.specs.Prelude.{◌≡◌, List, Option, Some, length, IfOk};
ghost use Rattle.abs_tree.specs.declared.syntax.expression.Operator.{Operator};
ghost use Rattle.abs_types.specs.OperatorTypes.{both_are, equality_type, operand_types, operator_type, plus_type};
ghost use Rattle.abs_types.specs.PlainTypes.{PlainType};
ghost use Rattle.check_fun.specs.Contexts.{operators_of, Context, FindsAll, Finds, FoundAll, Found, Knows, Stays};

use crate::checker::Checker;
use abs_tree::{Operand, Operator};
use abs_types::{Shape, TypeIndex};
use std::alloc::AllocError;

impl Checker<'_> {
    /// The type of operators of one precedence, given those of the first operand, and of the others in their order:
    /// each operator takes what those before it give.
    #[tactic(auto, using(crate::proofs::ContextLemmas::stays_transitive))]
    pub(crate) fn operators_rule(
        &mut self,
        first: TypeIndex,
        operands: &[Operand],
        rights: &[TypeIndex],
    ) -> Result<Option<TypeIndex>, AllocError>
        requires first { Found self.old (Some first) }
        requires rights { FoundAll self.old (Some rights.now) }
        requires count { length operands.now ≡ length rights.now }
        ensures found { (context : Context) (left : PlainType) (types : List PlainType) → Knows self.old context
            → Finds self.old (Some first) (Some left) → FindsAll self.old (Some rights.now) (Some types)
            → IfOk result (λ found. Finds self.new found
            (operand_types context.declarations left (operators_of operands.now types))) }
        ensures first { self.new.first ≡ self.old.first }
        ensures stays { Stays self.old self.new }
    {
        let mut left = first;
        for (index, operand) in operands.iter().enumerate() {
            match self.operator_rule(operand.operator, left, rights[index])? {
                Some(found) => left = found,
                None => return Ok(None),
            }
        }
        Ok(Some(left))
    }

    /// The type of an operator between operands of two types.
    #[tactic(auto, using(crate::proofs::ContextLemmas::found_stays, crate::proofs::ContextLemmas::stays_transitive))]
    fn operator_rule(
        &mut self,
        operator: Operator,
        left: TypeIndex,
        right: TypeIndex,
    ) -> Result<Option<TypeIndex>, AllocError>
        requires left { Found self.old (Some left) }
        requires right { Found self.old (Some right) }
        ensures found { (context : Context) (one other : PlainType) → Knows self.old context
            → Finds self.old (Some left) (Some one) → Finds self.old (Some right) (Some other)
            → IfOk result (λ found. Finds self.new found (operator_type context.declarations operator one other)) }
        ensures first { self.new.first ≡ self.old.first }
        ensures stays { Stays self.old self.new }
    {
        match operator {
            Operator::Plus => Ok(self.sum_rule(left, right)),
            Operator::Minus | Operator::Times | Operator::Divide | Operator::Remainder => {
                let int = self.int()?;
                Ok(self.both_rule(int, int, left, right))
            }
            Operator::Less | Operator::LessEqual | Operator::Greater | Operator::GreaterEqual => {
                let int = self.int()?;
                let bool = self.bool()?;
                Ok(self.both_rule(int, bool, left, right))
            }
            Operator::Equal | Operator::NotEqual => self.equality_rule(left, right),
            Operator::And | Operator::Or => {
                let bool = self.bool()?;
                Ok(self.both_rule(bool, bool, left, right))
            }
        }
    }

    /// The type of `+`, if it has one: of two numbers or two strings. For an operand of no value the other one decides.
    fn sum_rule(&self, left: TypeIndex, right: TypeIndex) -> Option<TypeIndex>
        requires left { Found self.now (Some left) }
        requires right { Found self.now (Some right) }
        ensures { (one other : PlainType) → Finds self.now (Some left) (Some one)
            → Finds self.now (Some right) (Some other) → Finds self.now result (plus_type one other) }
    {
        let given = self.table.shape(right);
        match self.table.shape(left) {
            Shape::Int => match given {
                Shape::Int | Shape::Bottom => Some(left),
                _ => None,
            },
            Shape::String => match given {
                Shape::String | Shape::Bottom => Some(left),
                _ => None,
            },
            Shape::Bottom => match given {
                Shape::Int | Shape::String | Shape::Bottom => Some(right),
                _ => None,
            },
            _ => None,
        }
    }

    /// The type that an operator gives, if both operands fit the type that it asks for.
    fn both_rule(
        &self,
        asked: TypeIndex,
        gives: TypeIndex,
        left: TypeIndex,
        right: TypeIndex,
    ) -> Option<TypeIndex>
        requires asked { Found self.now (Some asked) }
        requires left { Found self.now (Some left) }
        requires right { Found self.now (Some right) }
        ensures { (context : Context) (wanted given one other : PlainType) → Knows self.now context
            → Finds self.now (Some asked) (Some wanted) → Finds self.now (Some gives) (Some given)
            → Finds self.now (Some left) (Some one) → Finds self.now (Some right) (Some other)
            → Finds self.now result (both_are context.declarations wanted given one other) }
    {
        if !self.table.fits(left, asked) {
            return None;
        }
        if self.table.fits(right, asked) {
            Some(gives)
        } else {
            None
        }
    }

    /// The type of `==` or `!=`: a `Bool`, if the operands have a join.
    #[tactic(auto, using(crate::proofs::ContextLemmas::stays_transitive))]
    fn equality_rule(
        &mut self,
        left: TypeIndex,
        right: TypeIndex,
    ) -> Result<Option<TypeIndex>, AllocError>
        requires left { Found self.old (Some left) }
        requires right { Found self.old (Some right) }
        ensures found { (context : Context) (one other : PlainType) → Knows self.old context
            → Finds self.old (Some left) (Some one) → Finds self.old (Some right) (Some other)
            → IfOk result (λ found. Finds self.new found (equality_type context.declarations one other)) }
        ensures first { self.new.first ≡ self.old.first }
        ensures stays { Stays self.old self.new }
    {
        match self.join(left, right)? {
            Some(_) => Ok(Some(self.bool()?)),
            None => Ok(None),
        }
    }
}
