//! Statements. Copies share their expressions, so a copy costs the same whatever their size.
ghost use Rattle.std.specs.Prelude.{◌≡◌, List};
ghost use Rattle.abs_tree.specs.Syntax.{Name};
ghost use Rattle.abs_tree.specs.SyntaxPlaces.{side_place, statement_place};
ghost use Rattle.abs_tree.specs.SyntaxViews.{side_tree, statement};

use crate::syntax::{Expr, TypeTerm, Variable};
use crate::{Place, Symbol};
use std::sync::Arc;

/// Where a new object lives.
#[derive(Clone, Copy, Debug, PartialEq, Eq)]
pub enum Mode {
    /// `new C(es)`
    Plain,
    /// `new cog C(es)`
    Cog,
    /// `new local C(es)`, with the place of `local`.
    Local(Place),
}

/// The right side of `=`, which may also be a statement of its own. The operands of a call on an object are its
/// receiver, and after it its arguments.
#[derive(PartialEq, Eq, Drop)]
pub enum RightSide {
    /// `new C(es)`, with the place of the class.
    New {
        place: Place,
        mode: Mode,
        class_place: Place,
        class: Symbol,
        arguments: Arc<Vec<Expr>>,
    },
    /// `e`
    Value(Place, Arc<Expr>),
    /// `e!m(es)`
    Send {
        place: Place,
        method: Symbol,
        operands: Arc<Vec<Expr>>,
    },
    /// `e.get`, with the place of `get`.
    Get {
        place: Place,
        get_place: Place,
        future: Arc<Expr>,
    },
    /// `e.m(es)`, with the hidden slot of its result once names are resolved.
    Call {
        place: Place,
        method: Symbol,
        operands: Arc<Vec<Expr>>,
        slot: Option<u32>,
    },
}

impl RightSide {
    /// Where it begins.
    pub fn place(&self) -> Place
        ensures { (names : List Name) → result ≡ side_place (side_tree names self.now) }
    {
        match self {
            RightSide::New { place, .. }
            | RightSide::Value(place, ..)
            | RightSide::Send { place, .. }
            | RightSide::Get { place, .. }
            | RightSide::Call { place, .. } => *place,
        }
    }
}

/// A part of a guard.
#[derive(PartialEq, Eq, Drop)]
pub struct Test {
    pub place: Place,
    pub value: Arc<Expr>,
    /// Whether a `?` follows it.
    pub asks: bool,
}

/// Where a value goes.
#[derive(Clone, Copy, Debug, PartialEq, Eq)]
pub enum Target {
    /// `x = ..`
    Variable(Place, Variable),
    /// `this.x = ..`, with the place of the name.
    Field {
        place: Place,
        name_place: Place,
        name: Symbol,
    },
}

/// A statement, with the place of its first token. Each statement that is not a block has an index: statements are
/// numbered from 0 in the order in which they begin. A branch is a list of statements; without braces it has one.
#[derive(PartialEq, Eq, Drop)]
#[cycle(statements)]
pub enum Stmt {
    /// `{ s .. }`
    Block(Place, Vec<Stmt>),
    /// `skip;`
    Skip {
        index: u32,
        place: Place,
    },
    /// `suspend;`
    Suspend {
        index: u32,
        place: Place,
    },
    /// `await g && ..;`
    Await {
        index: u32,
        place: Place,
        guard: Vec<Test>,
    },
    /// `return e;`
    Return {
        index: u32,
        place: Place,
        value: Arc<Expr>,
    },
    /// `println(e);`
    Print {
        index: u32,
        place: Place,
        value: Arc<Expr>,
    },
    /// `if (e) { s .. }`, perhaps with `else { s .. }`
    If {
        index: u32,
        place: Place,
        condition: Arc<Expr>,
        first: Vec<Stmt>,
        second: Option<Vec<Stmt>>,
    },
    /// `while (e) { s .. }`
    While {
        index: u32,
        place: Place,
        condition: Arc<Expr>,
        body: Vec<Stmt>,
    },
    /// `T x;` or `T x = r;`, with the place of the variable.
    Declare {
        index: u32,
        place: Place,
        type_of: TypeTerm,
        variable_place: Place,
        variable: Variable,
        initial: Option<RightSide>,
    },
    /// `x = r;` or `this.x = r;`
    Assign {
        index: u32,
        place: Place,
        target: Target,
        side: RightSide,
    },
    /// `r;`
    Do {
        index: u32,
        place: Place,
        side: RightSide,
    },
}

impl Stmt {
    /// Where it begins.
    pub fn place(&self) -> Place
        ensures { (names : List Name) → result ≡ statement_place (statement names self.now) }
    {
        match self {
            Stmt::Block(place, _)
            | Stmt::Skip { place, .. }
            | Stmt::Suspend { place, .. }
            | Stmt::Await { place, .. }
            | Stmt::Return { place, .. }
            | Stmt::Print { place, .. }
            | Stmt::If { place, .. }
            | Stmt::While { place, .. }
            | Stmt::Declare { place, .. }
            | Stmt::Assign { place, .. }
            | Stmt::Do { place, .. } => *place,
        }
    }
}
