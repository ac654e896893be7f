//! Expressions.
ghost use Rattle.std.specs.Prelude.{◌≡◌, List};
ghost use Rattle.abs_tree.specs.Syntax.{Name};
ghost use Rattle.abs_tree.specs.SyntaxPlaces.{expr_place};
ghost use Rattle.abs_tree.specs.SyntaxViews.{expr_tree};

use crate::syntax::{Pattern, TypeTerm, Variable};
use crate::{Place, Symbol, Text};
use std::sync::Arc;

/// An operator between operands.
#[derive(Clone, Copy, Debug, PartialEq, Eq)]
pub enum Operator {
    /// `||`
    Or,
    /// `&&`
    And,
    /// `==`
    Equal,
    /// `!=`
    NotEqual,
    /// `<`
    Less,
    /// `<=`
    LessEqual,
    /// `>`
    Greater,
    /// `>=`
    GreaterEqual,
    /// `+`
    Plus,
    /// `-`
    Minus,
    /// `*`
    Times,
    /// `/`
    Divide,
    /// `%`
    Remainder,
}

/// An operator before an operand.
#[derive(Clone, Copy, Debug, PartialEq, Eq)]
pub enum Prefix {
    /// `!`
    Not,
    /// `~`
    Tilde,
    /// `-`
    Minus,
}

/// An expression, with the place of its first token. Where its first operand is in parentheses, that is the first
/// parenthesis.
#[derive(PartialEq, Eq, Drop)]
#[cycle(syntax_expressions)]
pub enum Expr {
    /// `let (T x) = e in e`, with the place of the variable. The type is boxed: in place it would make each expression
    /// larger.
    Let {
        place: Place,
        type_of: Box<TypeTerm>,
        variable_place: Place,
        variable: Variable,
        value: Box<Expr>,
        body: Box<Expr>,
    },
    /// `if e then e else e`
    If {
        place: Place,
        condition: Box<Expr>,
        first: Box<Expr>,
        second: Box<Expr>,
    },
    /// Operators of one precedence: the first operand, and each operator with its right operand.
    Operators {
        place: Place,
        first: Box<Expr>,
        operands: Vec<Operand>,
    },
    /// `!e`, `~e` or `-e`
    Prefixed {
        place: Place,
        prefix: Prefix,
        operand: Box<Expr>,
    },
    /// A number.
    Number(Place, i128),
    /// A string.
    Text(Place, Text),
    /// `null`
    Null(Place),
    /// `destiny`
    Destiny(Place),
    /// `this`
    This(Place),
    /// `this.x`, with the place of the name.
    Field {
        place: Place,
        name_place: Place,
        name: Symbol,
    },
    /// `this.m(es)`
    OwnCall {
        place: Place,
        method: Symbol,
        arguments: Arc<Vec<Expr>>,
    },
    /// `x`
    Variable(Place, Variable),
    /// `f(es)`
    Apply {
        place: Place,
        function: Symbol,
        arguments: Vec<Expr>,
    },
    /// `C` or `C(es)`
    Build {
        place: Place,
        constructor: Symbol,
        arguments: Vec<Expr>,
    },
    /// `case e { p => e; .. }`
    Case {
        place: Place,
        subject: Box<Expr>,
        branches: Vec<Branch>,
    },
}

impl Expr {
    /// Where it begins. Parentheses around it do not count.
    pub fn place(&self) -> Place
        ensures { (names : List Name) → result ≡ expr_place (expr_tree names self.now) }
    {
        match self {
            Expr::Let { place, .. }
            | Expr::If { place, .. }
            | Expr::Operators { place, .. }
            | Expr::Prefixed { place, .. }
            | Expr::Number(place, ..)
            | Expr::Text(place, ..)
            | Expr::Null(place)
            | Expr::Destiny(place)
            | Expr::This(place)
            | Expr::Field { place, .. }
            | Expr::OwnCall { place, .. }
            | Expr::Variable(place, ..)
            | Expr::Apply { place, .. }
            | Expr::Build { place, .. }
            | Expr::Case { place, .. } => *place,
        }
    }
}

/// An operator with its right operand.
#[derive(PartialEq, Eq, Drop)]
#[cycle(syntax_expressions)]
pub struct Operand {
    pub operator: Operator,
    pub right: Expr,
}

/// `p => e;`
#[derive(PartialEq, Eq, Drop)]
#[cycle(syntax_expressions)]
pub struct Branch {
    pub pattern: Pattern,
    pub value: Expr,
}
