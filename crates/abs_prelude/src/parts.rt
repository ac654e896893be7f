//! What makes declarations from a table of codes. The parts that no later code has taken yet are kept by sort, the
//! last ones at the end. A code that lacks a part gets `null`, `_` or the type of no value in its place.
ghost use Rattle.std.specs.Prelude.{◌≡◌, ◌≤◌, ◌++◌, ◌∷◌, [], List, length, map, IfOk, OnOk};
ghost use Rattle.abs_tree.specs.Limits.{table_limit};
ghost use Rattle.abs_tree.specs.Names.{name_of};
ghost use Rattle.abs_tree.specs.Syntax.{Name};
ghost use Rattle.abs_tree.specs.SyntaxViews.{declared as declared_tree, decl_tree};
ghost use Rattle.abs_prelude.specs.Prelude.{at as place_at};
ghost use Rattle.abs_prelude.specs.Codes.{with_code, with_declaration, with_head, with_named, with_plain, trees_of, final, last as last_ones, left};
ghost use Rattle.abs_prelude.specs.PartViews.{part_trees};

use crate::code::{Code, DeclarationForm, HeadForm, NamedForm, PlainForm};
use crate::text::symbol_of;
use abs_tree::{
    Branch, Constructor, Decl, Declared, Expr, Operand, Operator, Param, Pattern, Place, Symbol,
    Symbols, TypeTerm, Variable,
};
use std::alloc::{AllocError, Global};
use std::mem;
use std::sync::Arc;

/// Where the lines of the prelude's text begin.
const LINE_STARTS: [u16; 14] = [
    0, 18, 44, 83, 118, 148, 204, 266, 345, 427, 509, 614, 675, 736,
];

/// The parts that no code has taken yet, by sort.
#[derive(Drop)]
pub struct Parts {
    pub types: Vec<TypeTerm>,
    pub type_params: Vec<Declared>,
    pub constructors: Vec<Constructor>,
    pub params: Vec<Param>,
    pub patterns: Vec<Pattern>,
    pub expressions: Vec<Expr>,
    pub branches: Vec<Branch>,
    pub declarations: Vec<Decl>,
}

/// The declarations that a table of codes stands for.
///
/// # Errors
/// [`AllocError`] if an allocation fails, or the table of names does not have a name of a code.
pub fn build(alloc: Global, symbols: &Symbols<'_>, codes: &[Code]) -> Result<Vec<Decl>, AllocError>
    requires { length symbols.now ≤ table_limit }
    ensures { IfOk result (λ found. map (decl_tree symbols.now) found.items ≡ trees_of codes.now) }
{
    let mut parts = Parts {
        types: Vec::new(alloc),
        type_params: Vec::new(alloc),
        constructors: Vec::new(alloc),
        params: Vec::new(alloc),
        patterns: Vec::new(alloc),
        expressions: Vec::new(alloc),
        branches: Vec::new(alloc),
        declarations: Vec::new(alloc),
    };
    for code in codes {
        parts.add(alloc, symbols, *code)?;
    }
    Ok(parts.declarations)
}

/// Where a line of the prelude's text begins.
fn line_start(line: u8) -> u16
    ensures { result ≡ (place_at line 1).offset }
{
    match LINE_STARTS.get(usize::from(line.saturating_sub(1))) {
        Some(start) => *start,
        None => 0,
    }
}

/// The place of a line and a column of the prelude's text.
fn at(line: u8, column: u8) -> Place
    ensures { result ≡ place_at line column }
{
    Place {
        offset: u32::from(line_start(line)) + u32::from(column.saturating_sub(1)),
        line: u32::from(line),
        column: u32::from(column),
    }
}

/// Puts a part after the others of its sort.
fn push<T: Drop>(parts: &mut Vec<T>, part: T) -> Result<(), AllocError>
    ensures { OnOk result (parts.new.items ≡ parts.old.items ++ part ∷ []) }
{
    parts.push(part)?;
    Ok(())
}

/// Takes the last parts of a sort, as many as this, or all where there are fewer.
fn last<T>(parts: &mut Vec<T>, count: u8) -> Result<Vec<T>, AllocError>
    ensures taken { IfOk result (λ taken. taken.items ≡ last_ones count parts.old.items) }
    ensures rest { OnOk result (parts.new.items ≡ left count parts.old.items) }
{
    let start = parts.len().saturating_sub(usize::from(count));
    parts.split_off(start)
}

/// Takes the last part of a sort, or this one where there is none.
fn pop<T: Drop>(parts: &mut Vec<T>, missing: T) -> T
    ensures taken { result ≡ final missing parts.old.items }
    ensures rest { parts.new.items ≡ left 1 parts.old.items }
{
    parts.pop().unwrap_or(missing)
}

impl Parts {
    /// Adds the part of a code, and takes those which it consists of.
    fn add(&mut self, alloc: Global, symbols: &Symbols<'_>, code: Code) -> Result<(), AllocError>
        requires { length symbols.now ≤ table_limit }
        ensures { OnOk result
            (part_trees symbols.now self.new ≡ with_code (part_trees symbols.now self.old) code) }
    {
        match code {
            Code::Declaration(form, line, column, name) => {
                let name = symbol_of(symbols, name)?;
                let place = at(line, column);
                self.declaration(alloc, form, at(line, 1), Declared { place, name })
            }
            Code::Head(form, line, column, name) => {
                let name = symbol_of(symbols, name)?;
                self.head(form, at(line, column), name)
            }
            Code::Named(form, line, column, name) => {
                let name = symbol_of(symbols, name)?;
                self.named(form, at(line, column), name)
            }
            Code::Plain(form, line, column) => self.plain(alloc, form, at(line, column)),
        }
    }

    /// Adds a declaration.
    fn declaration(
        &mut self,
        alloc: Global,
        form: DeclarationForm,
        place: Place,
        name: Declared,
    ) -> Result<(), AllocError>
        ensures { (names : List Name) → OnOk result (part_trees names self.new
            ≡ with_declaration form place (declared_tree names name) (part_trees names self.old)) }
    {
        let type_params = mem::replace(&mut self.type_params, Vec::new(alloc));
        match form {
            DeclarationForm::Data => {
                let constructors = mem::replace(&mut self.constructors, Vec::new(alloc));
                let made = Decl::Data {
                    place,
                    name,
                    type_params,
                    constructors,
                };
                push(&mut self.declarations, made)
            }
            DeclarationForm::Function => {
                let params = mem::replace(&mut self.params, Vec::new(alloc));
                let type_of = pop(&mut self.types, TypeTerm::Bottom);
                let expression = pop(&mut self.expressions, Expr::Null(place));
                let value = Arc::new(alloc, expression)?;
                let made = Decl::Function {
                    place,
                    result: type_of,
                    name,
                    type_params,
                    params,
                    value,
                };
                push(&mut self.declarations, made)
            }
        }
    }

    /// Adds a part of the head of a declaration.
    fn head(&mut self, form: HeadForm, place: Place, name: Symbol) -> Result<(), AllocError>
        ensures { (names : List Name) → OnOk result (part_trees names self.new
            ≡ with_head form place (name_of names name) (part_trees names self.old)) }
    {
        match form {
            HeadForm::Type(count) => {
                let arguments = last(&mut self.types, count)?;
                let made = TypeTerm::Unresolved {
                    place,
                    name,
                    arguments,
                };
                push(&mut self.types, made)
            }
            HeadForm::TypeParameter => push(&mut self.type_params, Declared { place, name }),
            HeadForm::Constructor(count) => {
                let types = last(&mut self.types, count)?;
                let name = Declared { place, name };
                push(&mut self.constructors, Constructor { name, types })
            }
            HeadForm::Parameter => {
                let type_of = pop(&mut self.types, TypeTerm::Bottom);
                let variable = Variable::Unresolved(name);
                let made = Param {
                    type_of,
                    place,
                    variable,
                };
                push(&mut self.params, made)
            }
        }
    }

    /// Adds a part of a function's value that has a name.
    fn named(&mut self, form: NamedForm, place: Place, name: Symbol) -> Result<(), AllocError>
        ensures { (names : List Name) → OnOk result (part_trees names self.new
            ≡ with_named form place (name_of names name) (part_trees names self.old)) }
    {
        let variable = Variable::Unresolved(name);
        match form {
            NamedForm::Binds => push(&mut self.patterns, Pattern::Binds(place, variable)),
            NamedForm::Built(count) => {
                let arguments = last(&mut self.patterns, count)?;
                let made = Pattern::Built {
                    place,
                    constructor: name,
                    arguments,
                };
                push(&mut self.patterns, made)
            }
            NamedForm::Variable => push(&mut self.expressions, Expr::Variable(place, variable)),
            NamedForm::Apply(count) => {
                let arguments = last(&mut self.expressions, count)?;
                let made = Expr::Apply {
                    place,
                    function: name,
                    arguments,
                };
                push(&mut self.expressions, made)
            }
            NamedForm::Build(count) => {
                let arguments = last(&mut self.expressions, count)?;
                let made = Expr::Build {
                    place,
                    constructor: name,
                    arguments,
                };
                push(&mut self.expressions, made)
            }
        }
    }

    /// Adds a part of a function's value that has no name.
    fn plain(&mut self, alloc: Global, form: PlainForm, place: Place) -> Result<(), AllocError>
        ensures { (names : List Name) → OnOk result (part_trees names self.new
            ≡ with_plain form place (part_trees names self.old)) }
    {
        match form {
            PlainForm::Number(number) => {
                let made = Expr::Number(place, i128::from(number));
                push(&mut self.expressions, made)
            }
            PlainForm::Operators(operator) => self.operators(alloc, operator, place),
            PlainForm::If => self.choice(alloc, place),
            PlainForm::Branch => {
                let pattern = pop(&mut self.patterns, Pattern::Any(place));
                let value = pop(&mut self.expressions, Expr::Null(place));
                push(&mut self.branches, Branch { pattern, value })
            }
            PlainForm::Case(count) => {
                let branches = last(&mut self.branches, count)?;
                let looked_at = pop(&mut self.expressions, Expr::Null(place));
                let subject = Box::new(alloc, looked_at)?;
                let made = Expr::Case {
                    place,
                    subject,
                    branches,
                };
                push(&mut self.expressions, made)
            }
        }
    }

    /// Adds an operator with its two operands.
    fn operators(
        &mut self,
        alloc: Global,
        operator: Operator,
        place: Place,
    ) -> Result<(), AllocError>
        ensures { (names : List Name) → OnOk result (part_trees names self.new
            ≡ with_plain (PlainForm.Operators operator) place (part_trees names self.old)) }
    {
        let right = pop(&mut self.expressions, Expr::Null(place));
        let left = pop(&mut self.expressions, Expr::Null(place));
        let first = Box::new(alloc, left)?;
        let operands = vec![in alloc; Operand { operator, right }]?;
        let made = Expr::Operators {
            place,
            first,
            operands,
        };
        push(&mut self.expressions, made)
    }

    /// Adds an `if`.
    fn choice(&mut self, alloc: Global, place: Place) -> Result<(), AllocError>
        ensures { (names : List Name) → OnOk result (part_trees names self.new
            ≡ with_plain PlainForm.If place (part_trees names self.old)) }
    {
        let no = pop(&mut self.expressions, Expr::Null(place));
        let yes = pop(&mut self.expressions, Expr::Null(place));
        let test = pop(&mut self.expressions, Expr::Null(place));
        let condition = Box::new(alloc, test)?;
        let first = Box::new(alloc, yes)?;
        let second = Box::new(alloc, no)?;
        let made = Expr::If {
            place,
            condition,
            first,
            second,
        };
        push(&mut self.expressions, made)
    }
}
