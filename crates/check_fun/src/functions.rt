//! Checks the functions of a program: the value of each fits its result type, or the first offence is noted.
ghost use Rattle.std.specs.Prelude.{◌++◌, Some, OnOk};
ghost use Rattle.abs_tree.specs.SyntaxPlaces.{expr_place};
ghost use Rattle.abs_tree.specs.SyntaxViews.{decl_tree, expr_tree, type_tree};
ghost use Rattle.abs_types.specs.Mistyped.{unfit};
ghost use Rattle.abs_types.specs.PlainTypes.{plain, PlainType};
ghost use Rattle.abs_types.specs.TypeOffences.{function_offences, function_offences_in};
ghost use Rattle.abs_types.specs.TypeTables.{Keeps};
ghost use Rattle.check_fun.specs.Contexts.{offends, typed, Context, Finds, Found, Knows, Noted, Stays};

use crate::checker::Checker;
use abs_tree::{Decl, Expr, Place, TypeTerm};
use abs_types::TypeIndex;
use std::alloc::AllocError;

impl Checker<'_> {
    /// Checks all functions of the program.
    ///
    /// # Errors
    /// [`AllocError`] if an allocation fails, or if there are too many types.
    pub fn functions(&mut self) -> Result<(), AllocError>
        ensures noted { (context : Context) → Knows self.old context
            → OnOk result (Noted self.old.first (function_offences context.declarations) self.new.first) }
        ensures keeps { OnOk result (Keeps self.old.table self.new.table) }
    {
        let program = self.table.program;
        for declaration in program.declarations.iter() {
            self.function(declaration)?;
        }
        Ok(())
    }

    /// Checks a declaration, if it is a function: its value fits its result type.
    fn function(&mut self, declaration: &Decl) -> Result<(), AllocError>
        ensures noted { (context : Context) → Knows self.old context → OnOk result (Noted self.old.first
            (function_offences_in context.declarations (decl_tree context.names declaration.now)) self.new.first) }
        ensures keeps { OnOk result (Keeps self.old.table self.new.table) }
    {
        let Decl::Function {
            params,
            result,
            value,
            ..
        } = declaration
        else {
            return Ok(());
        };
        self.enter_value(params.as_slice())?;
        self.asked_value(value, result)
    }

    /// Checks an expression, and that its type fits the one that the program writes; if not, it offends at its front.
    fn asked_value(&mut self, value: &Expr, asked: &TypeTerm) -> Result<(), AllocError>
        ensures noted { (context : Context) → Knows self.old context → OnOk result (Noted self.old.first
            (offends context value.now ++ unfit context.declarations (typed context value.now)
            (plain (type_tree context.names asked.now)) (expr_place (expr_tree context.names value.now)))
            self.new.first) }
        ensures stays { OnOk result (Stays self.old self.new) }
    {
        let asked = self.written(asked)?;
        self.asked(value, asked, value.place())
    }

    /// Checks an expression, and that its type fits the one that is asked for; if not, it offends at the place.
    ///
    /// # Errors
    /// [`AllocError`] if an allocation fails, or if there are too many types.
    pub fn asked(&mut self, value: &Expr, asked: TypeIndex, place: Place) -> Result<(), AllocError>
        requires { Found self.old (Some asked) }
        ensures noted { (context : Context) (type : PlainType) → Knows self.old context
            → Finds self.old (Some asked) (Some type) → OnOk result (Noted self.old.first
            (offends context value.now ++ unfit context.declarations (typed context value.now) type place)
            self.new.first) }
        ensures stays { OnOk result (Stays self.old self.new) }
    {
        let given = self.expression(value)?;
        self.note_unfit(given, asked, place);
        Ok(())
    }
}
