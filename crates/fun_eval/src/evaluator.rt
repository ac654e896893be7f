//! The evaluator: what it keeps while it evaluates the expressions of a statement.
ghost use Rattle.std.specs.Prelude.{◌≡◌, ◌≤◌, []};
ghost use Rattle.abs_tree.specs.Limits.{application_limit};

use crate::library::Library;
use abs_program::Named;
use abs_values::Value;
use std::alloc::Global;

/// What evaluation keeps: the library of the program, the arguments of the functions that are being evaluated, the
/// variables that are bound, and how many functions were applied. Arguments and variables have a stack each, since an
/// argument may bind variables, which one stack would have between the arguments.
///
/// A function that evaluates a form of expression is not inlined. A function clears all its enums when it is entered,
/// and `evaluate` would have those of all forms.
#[derive(Drop)]
pub struct Evaluator<'a> {
    pub library: Library<'a>,
    pub arguments: Vec<Value>,
    pub bound: Vec<Value>,
    pub applications: u32,
    ghost few: { applications ≤ application_limit },
}

impl<'a> Evaluator<'a> {
    /// An evaluator for a statement of a program.
    pub fn new(alloc: Global, program: &'a Named<'a>) -> Evaluator<'a>
        ensures program { result.library.program.now ≡ program.now }
        ensures arguments { result.arguments.items ≡ [] }
        ensures bound { result.bound.items ≡ [] }
        ensures applications { result.applications ≡ 0 }
    {
        Evaluator {
            library: Library::new(alloc, program),
            arguments: Vec::new(alloc),
            bound: Vec::new(alloc),
            applications: 0,
        }
    }
}
