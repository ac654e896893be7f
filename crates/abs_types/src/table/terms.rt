//! Types of a table, of the terms of a program.
ghost use Rattle.std.specs.Prelude.{◌≡◌, IfOk};
ghost use Rattle.abs_tree.specs.Names.{name_of};
ghost use Rattle.abs_tree.specs.SyntaxViews.{type_tree, type_trees};
ghost use Rattle.abs_types.specs.Arguments.{data_type};
ghost use Rattle.abs_types.specs.PlainTypes.{plain};
ghost use Rattle.abs_types.specs.TypeTables.{Keeps, StandsFor};

use crate::table::{TypeIndex, TypeTable};
use abs_tree::{Symbol, TypeTerm};
use std::alloc::AllocError;

impl TypeTable<'_> {
    /// The type of a term of the program.
    ///
    /// # Errors
    /// [`AllocError`] if an allocation fails, or if there are 2^31 types.
    #[cycle(terms)]
    pub fn of_term(&mut self, term: &TypeTerm) -> Result<TypeIndex, AllocError>
        ensures found { IfOk result (λ index. StandsFor self.new index
            (plain (type_tree self.old.program.now.symbols term.now))) }
        ensures keeps { Keeps self.old self.new }
    {
        match term {
            TypeTerm::Unresolved {
                name,
                arguments,
                ..
            }
            | TypeTerm::Data {
                name,
                arguments,
                ..
            } => self.of_data(*name, arguments),
            TypeTerm::Int(_) => self.int(),
            TypeTerm::String(_) => self.string(),
            TypeTerm::Fut(_, value) => {
                let value = self.of_term(value)?;
                self.future(value)
            }
            TypeTerm::Interface(_, name) => self.interface(*name),
            TypeTerm::Parameter(_, index) => self.parameter(*index),
            TypeTerm::Bottom => self.bottom(),
            TypeTerm::Null => self.null(),
            TypeTerm::Class(name) => self.class(*name),
        }
    }

    /// The data type with a name that is applied to arguments.
    #[cycle(terms)]
    fn of_data(&mut self, name: Symbol, arguments: &[TypeTerm]) -> Result<TypeIndex, AllocError>
        ensures found { IfOk result (λ index. StandsFor self.new index
            (data_type self.old.program.now.symbols name arguments.now)) }
        ensures keeps { Keeps self.old self.new }
    {
        let mut found = self.data(name)?;
        for term in arguments {
            let argument = self.of_term(term)?;
            found = self.applied(found, argument)?;
        }
        Ok(found)
    }
}
