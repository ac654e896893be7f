//! What statements do and where control goes: an instruction for each statement, found by its index in constant time,
//! and where the bodies of methods begin.
ghost use Rattle.std.specs.Prelude.{◌≡◌, ◌≤◌, All, List, IfOk};
ghost use Rattle.std.specs.Option.{option_map};
ghost use Rattle.abs_program.specs.InstructionViews.{exprs_tree, instruction_tree, class_entry_tree};
ghost use Rattle.abs_program.specs.KeptControl.{IsControl, instruction_at, method_in, class_in};
ghost use Rattle.abs_tree.specs.Limits.{table_limit};
ghost use Rattle.abs_program.specs.SlotViews.{BodyHasSlots, DeclHasSlots};
ghost use Rattle.abs_tree.specs.Syntax.{Name};
ghost use Rattle.abs_tree.specs.SyntaxSizes.{all_statements};
ghost use Rattle.abs_tree.specs.SyntaxViews.{expr_trees, tree_of_parts};

use crate::tables::entries::{body_entries, class_entries};
use crate::tables::instructions::instructions;
use abs_tree::syntax::{Body, Decl, Expr, Mode, Variable};
use abs_tree::{Symbol, Symbols};
use std::alloc::{AllocError, Global};
use std::sync::Arc;

/// The expressions of a statement, in the order in which they are evaluated. A copy shares them.
#[derive(Drop)]
pub enum Exprs {
    /// No expression.
    None,
    /// One expression.
    One(Arc<Expr>),
    /// All operands of a call or of a creation.
    Several(Arc<Vec<Expr>>),
    /// The operands after the first one: the arguments of a call on `this`.
    Arguments(Arc<Vec<Expr>>),
}

impl Exprs {
    /// The expressions in order.
    pub fn as_slice(&self) -> &[Expr]
        ensures { (names : List Name) → expr_trees names result.now ≡ exprs_tree names self.now }
    {
        match self {
            Exprs::None => &[],
            Exprs::One(expr) => std::slice::from_ref(&**expr),
            Exprs::Several(operands) => operands.as_slice(),
            Exprs::Arguments(operands) => operands.as_slice().get(1..).unwrap_or(&[]),
        }
    }

    /// A copy, which shares the expressions.
    ///
    /// # Errors
    /// [`AllocError`] if there are as many copies already as can be counted.
    pub fn share(&self) -> Result<Exprs, AllocError>
        ensures { (names : List Name) → IfOk result (λ exprs. exprs_tree names exprs ≡ exprs_tree names self.now) }
    {
        match self {
            Exprs::None => Ok(Exprs::None),
            Exprs::One(expr) => Ok(Exprs::One(expr.clone()?)),
            Exprs::Several(operands) => Ok(Exprs::Several(operands.clone()?)),
            Exprs::Arguments(operands) => Ok(Exprs::Arguments(operands.clone()?)),
        }
    }
}

/// Where control goes after a statement: to the statement with an index, or nowhere where no statement of the body is
/// left.
#[derive(Clone, Copy, Debug, PartialEq, Eq)]
pub enum Successor {
    /// To the next statement.
    Next(Option<u32>),
    /// By the answer of a condition.
    ByAnswer {
        when_true: Option<u32>,
        when_false: Option<u32>,
    },
}

/// What happens with the values of a statement's expressions. The value goes to the target, if there is one.
#[derive(Drop)]
pub enum Effect {
    /// `skip`
    Skip,
    /// `suspend`
    Suspend,
    /// `await`, with the slots of the parts that a `?` follows; a part that is no slot has none.
    Await(Vec<Option<u32>>),
    /// The condition of `if` or `while`.
    Choose,
    /// `return`
    Return,
    /// `println`
    Print,
    /// A declaration without a value.
    Clear(Variable),
    /// An expression.
    Store(Option<Variable>),
    /// `new`
    Make {
        mode: Mode,
        class: Symbol,
        target: Option<Variable>,
    },
    /// `e!m(es)`
    Send {
        method: Symbol,
        target: Option<Variable>,
    },
    /// `this.m(es)`
    CallOwn {
        method: Symbol,
        target: Option<Variable>,
    },
    /// `e.m(es)` on another object than `this`, with the hidden slot of its result.
    CallOther {
        method: Symbol,
        slot: Option<u32>,
        target: Option<Variable>,
    },
    /// `x.get`, with the slot of `x`; a future that is no slot has none.
    Get {
        slot: Option<u32>,
        target: Option<Variable>,
    },
}

/// A statement as it is executed.
#[derive(Drop)]
pub struct Instruction {
    /// Where the statement begins: how many bytes of the source are before it.
    pub place: u32,
    /// The expressions that it evaluates, in this order.
    pub exprs: Exprs,
    /// What happens with their values.
    pub effect: Effect,
    /// Where control goes.
    pub goes: Successor,
}

/// A body: its first statement, and how many slots it has, of which the first are its parameters.
#[derive(Clone, Copy, Debug, PartialEq, Eq)]
pub struct BodyEntry {
    pub first: Option<u32>,
    pub slots: u32,
    pub params: u32,
}

/// What a new object of a class takes.
#[derive(Drop)]
pub struct ClassEntry {
    /// How many parameters the class has. They are its first fields.
    pub params: u32,
    /// The initial values of its other fields, in order; `null` for a field without one.
    pub initials: Arc<Vec<Arc<Expr>>>,
    /// The index among the members of the method `run`, if the class is active.
    pub run: Option<u32>,
}

/// The table of a program's statements, bodies and classes.
#[derive(Drop)]
pub struct Control {
    instructions: Vec<Instruction>,
    main: BodyEntry,
    methods: Vec<Vec<Option<BodyEntry>>>,
    classes: Vec<Option<ClassEntry>>,
}

impl Control {
    /// The table of these declarations and of this main block, which have at most as many statements as a table may
    /// have.
    ///
    /// # Errors
    /// [`AllocError`] if an allocation fails, or if there are too many declarations, members or parameters.
    pub fn new(
        alloc: Global,
        symbols: &Symbols<'_>,
        declarations: &[Decl],
        main: &Body,
    ) -> Result<Control, AllocError>
        requires few { all_statements (tree_of_parts symbols.now declarations.now main.now) ≤ table_limit }
        requires main_has_slots { BodyHasSlots symbols.now 0 main.now }
        requires methods_have_slots { All (DeclHasSlots symbols.now) declarations.now }
        ensures { IfOk result (λ control. IsControl symbols.now (tree_of_parts symbols.now declarations.now main.now)
            control) }
    {
        let entries = body_entries(alloc, symbols, declarations, main)?;
        Ok(Control {
            instructions: instructions(alloc, symbols, declarations, main)?,
            main: entries.main,
            methods: entries.methods,
            classes: class_entries(alloc, symbols, declarations)?,
        })
    }

    /// The instruction of the statement with an index.
    #[tactic(auto, unfolding(crate::specs::KeptControl::instruction_at))]
    pub fn instruction(&self, index: u32) -> Option<&Instruction>
        ensures { (names : List Name) → option_map (λ found. instruction_tree names found.now) result
            ≡ instruction_at names self.now index }
    {
        self.instructions.get(index as usize)
    }

    /// The body of the main block.
    pub fn main(&self) -> BodyEntry
        ensures { result ≡ self.now.main }
    {
        self.main
    }

    /// The body of the method at an index among the members of the class at an index.
    #[tactic(auto, unfolding(crate::specs::KeptControl::method_in))]
    pub fn method(&self, class: u32, member: u32) -> Option<BodyEntry>
        ensures { result ≡ method_in self.now.methods.items class member }
    {
        let row = self.methods.get(class as usize)?;
        *row.get(member as usize)?
    }

    /// What a new object of the class at an index takes.
    #[tactic(auto, unfolding(crate::specs::KeptControl::class_in))]
    pub fn class(&self, class: u32) -> Option<&ClassEntry>
        ensures { (names : List Name) → option_map (λ found. class_entry_tree names found.now) result
            ≡ class_in names self.now.classes.items class }
    {
        self.classes.get(class as usize)?.as_ref()
    }
}
