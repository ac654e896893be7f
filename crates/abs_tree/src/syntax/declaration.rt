//! Declarations, and a source as a whole.
ghost use Rattle.std.specs.Prelude.{◌≡◌, ◌≤◌, All, List, length};
ghost use Rattle.abs_tree.specs.Syntax.{Name};
ghost use Rattle.abs_tree.specs.SyntaxPlaces.{decl_place};
ghost use Rattle.abs_tree.specs.SyntaxSizes.{all_statements, body_sizes, class_sizes};
ghost use Rattle.abs_tree.specs.SyntaxViews.{decl_tree, tree_of_parts};
ghost use Rattle.abs_tree.specs.Limits.{table_limit};

use crate::syntax::{Expr, Slot, Stmt, TypeTerm, Variable};
use crate::{Place, Symbol, Symbols};
use std::sync::Arc;

/// A name where it is declared.
#[derive(Clone, Copy, Debug, PartialEq, Eq)]
pub struct Declared {
    pub place: Place,
    pub name: Symbol,
}

/// A parameter: `T x`, with the place of the name.
#[derive(PartialEq, Eq, Drop)]
pub struct Param {
    pub type_of: TypeTerm,
    pub place: Place,
    pub variable: Variable,
}

/// A constructor of data, with the types of its arguments.
#[derive(PartialEq, Eq, Drop)]
pub struct Constructor {
    pub name: Declared,
    pub types: Vec<TypeTerm>,
}

/// The head of a method.
#[derive(PartialEq, Eq, Drop)]
pub struct Signature {
    pub result: TypeTerm,
    pub name: Declared,
    pub params: Vec<Param>,
}

/// The statements of a method or of the main block, and the place of its closing brace. Once variables are resolved, it
/// also has its slots. They follow from its parameters and its statements, so `==` leaves them out.
#[derive(Drop)]
#[derive_where(PartialEq, Eq)]
pub struct Body {
    pub statements: Vec<Stmt>,
    pub end: Place,
    #[derive_where(skip(EqHashOrd))]
    pub slots: Vec<Slot>,
}

/// A member of a class.
#[derive(PartialEq, Eq, Drop)]
pub enum Member {
    /// `T x;` or `T x = e;`
    Field {
        type_of: TypeTerm,
        name: Declared,
        initial: Option<Arc<Expr>>,
    },
    /// `T m(T x, ..) { s .. }`
    Method(Signature, Body),
}

/// A declaration.
#[derive(PartialEq, Eq, Drop)]
pub enum Decl {
    /// `data D<A, ..> = C(T, ..) | ..;`
    Data {
        place: Place,
        name: Declared,
        type_params: Vec<Declared>,
        constructors: Vec<Constructor>,
    },
    /// `def T f<A, ..>(T x, ..) = e;`
    Function {
        place: Place,
        result: TypeTerm,
        name: Declared,
        type_params: Vec<Declared>,
        params: Vec<Param>,
        value: Arc<Expr>,
    },
    /// `interface I extends J, .. { T m(T x, ..); .. }`
    Interface {
        place: Place,
        name: Declared,
        extended: Vec<Declared>,
        signatures: Vec<Signature>,
    },
    /// `class C(T x, ..) implements I, .. { members }`
    Class {
        place: Place,
        name: Declared,
        params: Vec<Param>,
        implemented: Vec<Declared>,
        members: Vec<Member>,
    },
}

impl Decl {
    /// Where it begins.
    pub fn place(&self) -> Place
        ensures { (names : List Name) → result ≡ decl_place (decl_tree names self.now) }
    {
        match self {
            Decl::Data { place, .. }
            | Decl::Function { place, .. }
            | Decl::Interface { place, .. }
            | Decl::Class { place, .. } => *place,
        }
    }
}

/// A source: its names, its declarations, and its main block.
#[derive(Drop)]
pub struct Program<'a> {
    pub symbols: Symbols<'a>,
    pub declarations: Vec<Decl>,
    pub main: Body,
    ghost few_names: { length symbols ≤ table_limit },
    ghost few_statements: { all_statements (tree_of_parts symbols declarations.items main) ≤ table_limit },
    ghost few_slots: { All (λ variables. variables ≤ table_limit)
        (body_sizes (tree_of_parts symbols declarations.items main)) },
    ghost few_fields: { All (λ fields. fields ≤ table_limit)
        (class_sizes (tree_of_parts symbols declarations.items main)) },
}
