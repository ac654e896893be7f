//! The declared types of the slots of a body and of the fields of a class, where they are in the tree.
ghost use Rattle.std.specs.Prelude.{◌≡◌, ◌∷◌, [], List, map, ℕ, if◌then◌else◌, IfOk};
ghost use Rattle.abs_program.specs.Slots.{is_this, maybe_side_slots, side_slots};
ghost use Rattle.abs_tree.specs.declared.syntax.slot.Slot.TheVariants.{Hidden};
ghost use Rattle.abs_tree.specs.Syntax.{Name};
ghost use Rattle.abs_tree.specs.SyntaxViews.{expr_tree, maybe_side, maybe_statements, member_tree, param_tree, side_tree, statement as statement_tree, statements as statement_trees};
ghost use Rattle.abs_types.specs.SlotTypes.{else_slot_types, no_types, slot_types as slot_types_of, statement_slot_types, statements_slot_types};
ghost use Rattle.contract_infer.specs.DeclaredTypes.{maybe_types, type_trees_at, Adds};
ghost use Rattle.contract_terms.specs.BodyContexts.{class_types};

use abs_tree::{Expr, Member, Param, RightSide, Stmt, TypeTerm};
use std::alloc::{AllocError, Global};

/// The types of the slots of a body so far.
#[derive(Drop)]
struct Slots<'b> {
    types: Vec<Option<&'b TypeTerm>>,
    /// Whether an allocation failed. Then a type is missing.
    failed: bool,
}

#[tactic(auto, using(crate::proofs::AddLemmas::adds_nil), unfolding(abs_types::specs::SlotTypes::statement_slot_types))]
impl<'b> Slots<'b> {
    /// Adds a slot.
    fn push(&mut self, term: Option<&'b TypeTerm>)
        ensures { (names : List Name) → Adds names (maybe_types names (term.entry ∷ [])) self.old self.new }
    {
        if self.types.push(term).is_err() {
            self.failed = true;
        }
    }

    /// Adds the hidden slot of a call on this receiver, unless that is `this`. It has no type.
    fn receiver(&mut self, receiver: &Expr)
        ensures { (names : List Name) (index : ℕ) → Adds names (no_types
            (if is_this (expr_tree names receiver.now) then [] else Hidden index ∷ [])) self.old self.new }
    {
        match receiver {
            Expr::This(_) => {}
            _ => self.push(None),
        }
    }

    /// Adds the hidden slot of a call on another object than `this`, if the right side is one.
    fn side(&mut self, side: &RightSide)
        ensures { (names : List Name) (index : ℕ)
            → Adds names (no_types (side_slots index (side_tree names side.now))) self.old self.new }
    {
        if let RightSide::Call { operands, .. } = side
            && let Some(receiver) = operands.first()
        {
            self.receiver(receiver);
        }
    }

    /// Adds the slot of the value of a declaration, if it has one.
    fn initial(&mut self, initial: &Option<RightSide>)
        ensures { (names : List Name) (index : ℕ)
            → Adds names (no_types (maybe_side_slots index (maybe_side names initial.now))) self.old self.new }
    {
        if let Some(side) = initial {
            self.side(side);
        }
    }

    /// Adds the slots of statements.
    #[cycle(slots)]
    fn statements(&mut self, stmts: &'b [Stmt])
        ensures { (names : List Name)
            → Adds names (statements_slot_types (statement_trees names stmts.now)) self.old self.new }
    {
        for stmt in stmts {
            self.statement(stmt);
        }
    }

    /// Adds the slots of a statement and of those in it.
    #[cycle(slots)]
    fn statement(&mut self, stmt: &'b Stmt)
        ensures { (names : List Name)
            → Adds names (statement_slot_types (statement_tree names stmt.now)) self.old self.new }
    {
        match stmt {
            Stmt::Block(_, block) => self.statements(block),
            Stmt::If { first, second, .. } => {
                self.statements(first);
                self.other(second);
            }
            Stmt::While { body, .. } => self.statements(body),
            Stmt::Declare {
                type_of,
                initial,
                ..
            } => {
                self.initial(initial);
                self.push(Some(type_of));
            }
            Stmt::Assign { side, .. } | Stmt::Do { side, .. } => self.side(side),
            Stmt::Skip { .. }
            | Stmt::Suspend { .. }
            | Stmt::Await { .. }
            | Stmt::Return { .. }
            | Stmt::Print { .. } => {}
        }
    }

    /// Adds the slots of the other branch of an `if`, if there is one.
    #[cycle(slots)]
    fn other(&mut self, branch: &'b Option<Vec<Stmt>>)
        ensures { (names : List Name)
            → Adds names (else_slot_types (maybe_statements names branch.now)) self.old self.new }
    {
        if let Some(branch) = branch {
            self.statements(branch);
        }
    }
}

/// The types of the slots of a body with these parameters. A hidden slot has none.
///
/// # Errors
/// [`AllocError`] if an allocation fails.
pub(crate) fn slot_types<'b>(
    alloc: Global,
    params: &'b [Param],
    stmts: &'b [Stmt],
) -> Result<Vec<Option<&'b TypeTerm>>, AllocError>
    ensures { (names : List Name) → IfOk result (λ found. maybe_types names found.items
        ≡ slot_types_of (map (param_tree names) params.now) (statement_trees names stmts.now)) }
{
    let mut slots = Slots {
        types: Vec::new(alloc),
        failed: false,
    };
    for param in params {
        slots.push(Some(&param.type_of));
    }
    slots.statements(stmts);
    if slots.failed {
        return Err(AllocError);
    }
    Ok(slots.types)
}

/// The types of the fields of a class, of which its parameters come first.
///
/// # Errors
/// [`AllocError`] if an allocation fails.
pub(crate) fn field_types<'b>(
    alloc: Global,
    params: &'b [Param],
    members: &'b [Member],
) -> Result<Vec<&'b TypeTerm>, AllocError>
    ensures { (names : List Name) → IfOk result (λ found. type_trees_at names found.items
        ≡ class_types (map (param_tree names) params.now) (map (member_tree names) members.now)) }
{
    let mut found = Vec::new(alloc);
    for param in params {
        found.push(&param.type_of)?;
    }
    for member in members {
        if let Member::Field { type_of, .. } = member {
            found.push(type_of)?;
        }
    }
    Ok(found)
}
