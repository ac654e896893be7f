//! Types: each name of one becomes what it stands for, and takes as many arguments as are declared.
ghost use Rattle.std.specs.Prelude.{◌≡◌, List, Some, None, fold, IfOk, OnOk};
ghost use Rattle.abs_program.specs.NameSpaces.{type_arity as arity_of_type};
ghost use Rattle.abs_tree.specs.Names.{name_of};
ghost use Rattle.abs_tree.specs.Offences.{earlier};
ghost use Rattle.abs_tree.specs.Syntax.{Name, UnresolvedType, DataType};
ghost use Rattle.abs_tree.specs.SyntaxViews.{type_tree, type_trees};
ghost use Rattle.abs_names.specs.Single.{unwritten as unwritten_at};
ghost use Rattle.abs_names.specs.TypeNames.{type_offences, types_offences, resolved_type, resolved_types, taken_by, future_type, named_type as tree_of_named};

use crate::walk::Walk;
use abs_program::TypeMeaning;
use abs_tree::{Place, Symbol, TypeTerm};
use std::alloc::AllocError;

/// The place of the first byte of a source, at which a type without a place is noted.
const START: Place = Place {
    offset: 0,
    line: 1,
    column: 1,
};

/// How many arguments the name of a type takes.
fn arity(meaning: TypeMeaning) -> u32
    ensures { result ≡ arity_of_type meaning }
{
    match meaning {
        TypeMeaning::Int | TypeMeaning::String | TypeMeaning::Interface(_) => 0,
        TypeMeaning::Fut => 1,
        TypeMeaning::Data(taking) => taking.arity,
    }
}

/// How many arguments a name takes as a type: a type parameter takes none.
fn taken(parameter: Option<u32>, meaning: Option<TypeMeaning>) -> Option<u32>
    ensures { result ≡ taken_by parameter meaning }
{
    match (parameter, meaning) {
        (Some(_), _) => Some(0),
        (None, Some(meaning)) => Some(arity(meaning)),
        (None, None) => None,
    }
}

impl Walk<'_> {
    /// Resolves a type.
    ///
    /// # Errors
    /// [`AllocError`] if an allocation fails.
    #[cycle(types)]
    pub fn type_term(&mut self, term: &TypeTerm) -> Result<TypeTerm, AllocError>
        ensures found { IfOk result (λ found. type_tree self.old.scope.names.after found
            ≡ resolved_type self.old.scope.scope.around (type_tree self.old.scope.names.before term.now)) }
        ensures noted { OnOk result (self.new.first ≡ fold earlier self.old.first
            (type_offences self.old.scope.scope.around (type_tree self.old.scope.names.before term.now))) }
        ensures scope { OnOk result (self.new.scope ≡ self.old.scope) }
    {
        match term {
            TypeTerm::Unresolved {
                place,
                name,
                arguments,
            } => self.named_type(*place, *name, arguments),
            TypeTerm::Int(place) => Ok(self.unwritten(*place, TypeTerm::Int(*place))),
            TypeTerm::String(place) => Ok(self.unwritten(*place, TypeTerm::String(*place))),
            TypeTerm::Fut(place, value) => {
                self.note_unless(false, *place);
                let value = self.type_term(value)?;
                Ok(TypeTerm::Fut(*place, Box::new(self.alloc, value)?))
            }
            TypeTerm::Data {
                place,
                name,
                arguments,
            } => self.data_type(*place, *name, arguments),
            TypeTerm::Interface(place, name) => {
                let name = self.scope.around().kept(*name);
                Ok(self.unwritten(*place, TypeTerm::Interface(*place, name)))
            }
            TypeTerm::Parameter(place, parameter) => {
                Ok(self.unwritten(*place, TypeTerm::Parameter(*place, *parameter)))
            }
            TypeTerm::Bottom => Ok(self.unwritten(START, TypeTerm::Bottom)),
            TypeTerm::Null => Ok(self.unwritten(START, TypeTerm::Null)),
            TypeTerm::Class(name) => {
                let name = self.scope.around().kept(*name);
                Ok(self.unwritten(START, TypeTerm::Class(name)))
            }
        }
    }

    /// Resolves types in order.
    #[cycle(types)]
    pub fn type_terms(&mut self, terms: &[TypeTerm]) -> Result<Vec<TypeTerm>, AllocError>
        ensures found { IfOk result (λ found. type_trees self.old.scope.names.after found.items
            ≡ resolved_types self.old.scope.scope.around (type_trees self.old.scope.names.before terms.now)) }
        ensures noted { OnOk result (self.new.first ≡ fold earlier self.old.first
            (types_offences self.old.scope.scope.around (type_trees self.old.scope.names.before terms.now))) }
        ensures scope { OnOk result (self.new.scope ≡ self.old.scope) }
    {
        let mut found = Vec::with_capacity(self.alloc, terms.len())?;
        for term in terms {
            found.push(self.type_term(term)?)?;
        }
        Ok(found)
    }

    /// Notes a type that is resolved already, since a source does not write it, and gives it back.
    fn unwritten(&mut self, place: Place, found: TypeTerm) -> TypeTerm
        ensures found { result ≡ found }
        ensures noted { self.new.first ≡ fold earlier self.old.first (unwritten_at place) }
        ensures scope { self.new.scope ≡ self.old.scope }
    {
        self.note_unless(false, place);
        found
    }

    /// Notes a data type that is resolved already, since a source does not write it, and resolves its arguments.
    ///
    /// # Errors
    /// [`AllocError`] if an allocation fails.
    #[cycle(types)]
    fn data_type(
        &mut self,
        place: Place,
        name: Symbol,
        arguments: &[TypeTerm],
    ) -> Result<TypeTerm, AllocError>
        ensures found { IfOk result (λ found. type_tree self.old.scope.names.after found
            ≡ resolved_type self.old.scope.scope.around (DataType place
            (name_of self.old.scope.names.before name) (type_trees self.old.scope.names.before arguments.now))) }
        ensures noted { OnOk result (self.new.first ≡ fold earlier self.old.first
            (type_offences self.old.scope.scope.around (DataType place
            (name_of self.old.scope.names.before name) (type_trees self.old.scope.names.before arguments.now)))) }
        ensures scope { OnOk result (self.new.scope ≡ self.old.scope) }
    {
        self.note_unless(false, place);
        let arguments = self.type_terms(arguments)?;
        let name = self.scope.around().kept(name);
        Ok(TypeTerm::Data {
            place,
            name,
            arguments,
        })
    }

    /// Resolves a type that is written as a name with arguments.
    #[cycle(types)]
    fn named_type(
        &mut self,
        place: Place,
        name: Symbol,
        arguments: &[TypeTerm],
    ) -> Result<TypeTerm, AllocError>
        ensures found { IfOk result (λ found. type_tree self.old.scope.names.after found
            ≡ resolved_type self.old.scope.scope.around (UnresolvedType place
            (name_of self.old.scope.names.before name) (type_trees self.old.scope.names.before arguments.now))) }
        ensures noted { OnOk result (self.new.first ≡ fold earlier self.old.first
            (type_offences self.old.scope.scope.around (UnresolvedType place
            (name_of self.old.scope.names.before name) (type_trees self.old.scope.names.before arguments.now)))) }
        ensures scope { OnOk result (self.new.scope ≡ self.old.scope) }
    {
        let parameter = self.scope.around().type_param(name);
        let meaning = self.scope.around().type_named(name);
        self.note_applied(taken(parameter, meaning), arguments.len(), place);
        let arguments = self.type_terms(arguments)?;
        let name = self.scope.around().kept(name);
        match (parameter, meaning) {
            (Some(parameter), _) => Ok(TypeTerm::Parameter(place, parameter)),
            (None, Some(meaning)) => self.known_type(place, name, arguments, meaning),
            (None, None) => Ok(TypeTerm::Unresolved {
                place,
                name,
                arguments,
            }),
        }
    }

    /// The type of a name that stands for a type, with resolved arguments.
    ///
    /// # Errors
    /// [`AllocError`] if an allocation fails.
    fn known_type(
        &self,
        place: Place,
        name: Symbol,
        arguments: Vec<TypeTerm>,
        meaning: TypeMeaning,
    ) -> Result<TypeTerm, AllocError>
        ensures { (names : List Name) → IfOk result (λ found. type_tree names found ≡ tree_of_named place
            (name_of names name) (type_trees names arguments.items) None (Some meaning)) }
    {
        match meaning {
            TypeMeaning::Int => Ok(TypeTerm::Int(place)),
            TypeMeaning::String => Ok(TypeTerm::String(place)),
            TypeMeaning::Fut => self.future_type(place, name, arguments),
            TypeMeaning::Data(_) => Ok(TypeTerm::Data {
                place,
                name,
                arguments,
            }),
            TypeMeaning::Interface(_) => Ok(TypeTerm::Interface(place, name)),
        }
    }

    /// `Fut` of one type; of another number of types it stays as it is.
    ///
    /// # Errors
    /// [`AllocError`] if an allocation fails.
    fn future_type(
        &self,
        place: Place,
        name: Symbol,
        mut arguments: Vec<TypeTerm>,
    ) -> Result<TypeTerm, AllocError>
        ensures { (names : List Name) → IfOk result (λ found. type_tree names found
            ≡ future_type place (name_of names name) (type_trees names arguments.items)) }
    {
        if arguments.len() != 1 {
            return Ok(TypeTerm::Unresolved {
                place,
                name,
                arguments,
            });
        }
        match arguments.pop() {
            Some(value) => Ok(TypeTerm::Fut(place, Box::new(self.alloc, value)?)),
            None => unreachable!(),
        }
    }
}
