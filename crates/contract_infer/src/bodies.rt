//! The contract terms of a body.
ghost use Rattle.std.specs.Prelude.{◌≡◌, ◌+◌, ℕ, List, map, option_map, get_or, slice_get, Some, IfOk, OnOk};
ghost use Rattle.abs_program.specs.Control.{Point, program_points};
ghost use Rattle.abs_program.specs.Flows.{Slots};
ghost use Rattle.abs_program.specs.InstructionViews.{effect_tree, exprs_tree};
ghost use Rattle.abs_program.specs.Instructions.{effect_of, expr_trees_of};
ghost use Rattle.abs_program.specs.ProgramBodies.{IsBodyOf};
ghost use Rattle.abs_tree.specs.Syntax.{Name, DeclTree};
ghost use Rattle.abs_tree.specs.SyntaxViews.{expr_trees, variable_tree};
ghost use Rattle.check_fun.specs.Contexts.{Knows, Stays};
ghost use Rattle.contract_infer.specs.BodyViews.{names_of, source_of, whole_context, IsViewOf, TermAdded};
ghost use Rattle.contract_infer.specs.SettledRows.{rows_of, AreSettledRows};
ghost use Rattle.contract_terms.specs.Accepts.{accepts_of, nothing};
ghost use Rattle.contract_terms.specs.BodyContexts.{variable_type_tree, BodyContext};
ghost use Rattle.contract_terms.specs.Settled.{settled_names};
ghost use Rattle.contract_terms.specs.Terms.{first_receivers, has_term as effect_has_term, receiver_in, target_of as target_of_effect, target_type, AreTerms, IsTerm};
ghost use Rattle.contract_terms.specs.Views.{accepts_tree, objects_tree, term_tree};

use crate::accepts::receivers_of;
use crate::reads::reads_of_all;
use abs_program::{Effect, Instruction};
use abs_tree::{Expr, Variable};
use check_fun::Checker;
use contract_terms::{Accepts, Objects, Term};
use std::alloc::AllocError;

/// What the slots of a body, the fields of `this` and the result let in.
#[derive(Drop)]
pub(crate) struct BodyView<'b> {
    pub(crate) slots: &'b [Accepts],
    pub(crate) fields: &'b [Accepts],
    pub(crate) result: Accepts,
}

impl BodyView<'_> {
    /// What a variable lets in.
    fn variable(&self, variable: Variable) -> Accepts
        ensures { (names : List Name) (declarations : List DeclTree) (body : BodyContext)
            → IsViewOf names declarations body self.now → accepts_tree names result
            ≡ accepts_of declarations (variable_type_tree body (variable_tree names variable)) }
    {
        match variable {
            Variable::Slot(slot) => accepts_at(self.slots, slot),
            Variable::Field(field) => accepts_at(self.fields, field),
            Variable::Bound(_) | Variable::Unresolved(_) => Accepts::NOTHING,
        }
    }

    /// What takes the value of a statement lets in.
    fn target(&self, effect: &Effect) -> Accepts
        ensures { (names : List Name) (declarations : List DeclTree) (body : BodyContext)
            → IsViewOf names declarations body self.now → accepts_tree names result
            ≡ accepts_of declarations (target_type body (effect_tree names effect.now)) }
    {
        if let Effect::Return = effect {
            return self.result;
        }
        match target_of(effect) {
            Some(variable) => self.variable(variable),
            None => Accepts::NOTHING,
        }
    }
}

/// What is let in at an index of a list. Past its end it is nothing.
fn accepts_at(list: &[Accepts], index: u32) -> Accepts
    ensures { (names : List Name) → accepts_tree names result
        ≡ get_or (map (accepts_tree names) list.now) index nothing }
{
    match list.get(index as usize) {
        Some(accepts) => *accepts,
        None => Accepts::NOTHING,
    }
}

/// The variable to which an effect gives a value.
fn target_of(effect: &Effect) -> Option<Variable>
    ensures { (names : List Name) → option_map (variable_tree names) result
        ≡ target_of_effect (effect_tree names effect.now) }
{
    match effect {
        Effect::Store(target)
        | Effect::Make { target, .. }
        | Effect::Send { target, .. }
        | Effect::CallOwn { target, .. }
        | Effect::Get { target, .. } => *target,
        Effect::Skip
        | Effect::Suspend
        | Effect::Await(_)
        | Effect::Choose
        | Effect::Return
        | Effect::Print
        | Effect::Clear(_)
        | Effect::CallOther { .. } => None,
    }
}

/// Whether an effect has a term.
fn has_term(effect: &Effect) -> bool
    ensures { (names : List Name) → result ≡ effect_has_term (effect_tree names effect.now) }
{
    match effect {
        Effect::Store(target) => target.is_some(),
        Effect::Make { .. }
        | Effect::Send { .. }
        | Effect::CallOwn { .. }
        | Effect::Get { .. }
        | Effect::Await(_)
        | Effect::Return => true,
        Effect::Skip
        | Effect::Suspend
        | Effect::Choose
        | Effect::Print
        | Effect::Clear(_)
        | Effect::CallOther { .. } => false,
    }
}

/// The objects that can be the first one of several expressions, which is the receiver of a message.
///
/// # Errors
/// [`AllocError`] if an allocation fails, or if there are too many types. So it is for each function here.
fn first_receivers(checker: &mut Checker<'_>, exprs: &[Expr]) -> Result<Objects, AllocError>
    ensures found { (names : List Name) (declarations : List DeclTree) (body : BodyContext)
        → Knows checker.old (whole_context names declarations body) → IfOk result (λ found.
        objects_tree names found ≡ first_receivers declarations body (expr_trees names exprs.now)) }
    ensures stays { OnOk result (Stays checker.old checker.new) }
{
    let Some(receiver) = exprs.first() else {
        return Ok(Objects::None);
    };
    match checker.head(receiver)? {
        Some(head) => Ok(receivers_of(head)),
        None => Ok(Objects::None),
    }
}

/// The objects that can be the receiver of a statement, if it sends a message.
fn receiver(
    checker: &mut Checker<'_>,
    instruction: &Instruction,
) -> Result<Option<Objects>, AllocError>
    ensures found { (names : List Name) (declarations : List DeclTree) (body : BodyContext)
        → Knows checker.old (whole_context names declarations body) → IfOk result (λ found.
        option_map (objects_tree names) found ≡ receiver_in declarations body
        (effect_tree names instruction.now.effect) (exprs_tree names instruction.now.exprs)) }
    ensures stays { OnOk result (Stays checker.old checker.new) }
{
    match instruction.effect {
        Effect::Send { .. } => Ok(Some(first_receivers(checker, instruction.exprs.as_slice())?)),
        _ => Ok(None),
    }
}

/// The term of a statement with an index, which names these settled slots.
fn term(
    checker: &mut Checker<'_>,
    view: &BodyView<'_>,
    index: u32,
    instruction: &Instruction,
    settled: &[u32],
) -> Result<Term, AllocError>
    ensures index { IfOk result (λ found. found.index ≡ index) }
    ensures found { (names : List Name) (declarations : List DeclTree) (body : BodyContext) (fact : Slots)
        → Knows checker.old (whole_context names declarations body) → IsViewOf names declarations body view.now
        → settled.now ≡ settled_names (effect_tree names instruction.now.effect) fact
        → IfOk result (λ found. IsTerm declarations body (effect_tree names instruction.now.effect)
        (exprs_tree names instruction.now.exprs) fact (term_tree names found)) }
    ensures stays { OnOk result (Stays checker.old checker.new) }
{
    let alloc = checker.table.alloc;
    Ok(Term {
        index,
        reads: reads_of_all(alloc, instruction.exprs.as_slice())?,
        accepts: view.target(&instruction.effect),
        receiver: receiver(checker, instruction)?,
        settled: Vec::from_slice(alloc, settled)?,
    })
}

/// Adds the term of the statement with an index, if it has one. These are the slots that it names and that are settled.
fn add_term(
    checker: &mut Checker<'_>,
    view: &BodyView<'_>,
    index: u32,
    settled: &[u32],
    terms: &mut Vec<Term>,
) -> Result<(), AllocError>
    ensures added { (body : BodyContext) (point : Point) (fact : Slots)
        → Knows checker.old (whole_context (names_of checker.old) (source_of checker.old).declarations body)
        → IsViewOf (names_of checker.old) (source_of checker.old).declarations body view.now
        → slice_get (program_points (source_of checker.old)) index ≡ Some point
        → settled.now ≡ settled_names (effect_of point.statement) fact
        → OnOk result (TermAdded (source_of checker.old).declarations body index
        (effect_of point.statement) (expr_trees_of point.statement) fact
        (map (term_tree (names_of checker.old)) terms.old.items)
        (map (term_tree (names_of checker.old)) terms.new.items)) }
    ensures stays { OnOk result (Stays checker.old checker.new) }
{
    let program = checker.table.program;
    let Some(instruction) = program.instruction(index) else {
        return Err(AllocError);
    };
    if has_term(&instruction.effect) {
        terms.push(term(checker, view, index, instruction, settled)?)?;
    }
    Ok(())
}

/// The index of the statement that comes this many after the first one.
fn index_at(first: u32, offset: usize) -> Result<u32, AllocError>
    ensures { IfOk result (λ index. index ≡ first + offset) }
{
    let Ok(offset) = u32::try_from(offset) else {
        return Err(AllocError);
    };
    match first.checked_add(offset) {
        Some(index) => Ok(index),
        None => Err(AllocError),
    }
}

/// The terms of a body, whose first statement has this index. There is a list for each statement, of the slots that it
/// names and that are settled there. The checker has entered the body, with all its slots visible.
pub(crate) fn terms_of_body(
    checker: &mut Checker<'_>,
    view: &BodyView<'_>,
    first: u32,
    rows: &[Vec<u32>],
) -> Result<Vec<Term>, AllocError>
    ensures found { (body : BodyContext)
        → Knows checker.old (whole_context (names_of checker.old) (source_of checker.old).declarations body)
        → IsViewOf (names_of checker.old) (source_of checker.old).declarations body view.now
        → IsBodyOf (source_of checker.old) body.body → body.body.index ≡ first
        → AreSettledRows body.body.statements (rows_of rows.now)
        → IfOk result (λ found. AreTerms (source_of checker.old) body
        (map (term_tree (names_of checker.old)) found.items)) }
    ensures stays { OnOk result (Stays checker.old checker.new) }
{
    let mut terms = Vec::new(checker.table.alloc);
    for (offset, settled) in rows.iter().enumerate() {
        let index = index_at(first, offset)?;
        add_term(checker, view, index, settled.as_slice(), &mut terms)?;
    }
    Ok(terms)
}
