//! The name spaces of a program: each declaration is added to its own, unless its name is taken.
ghost use Rattle.std.specs.Prelude.{◌≡◌, ◌+◌, fold, map, length, is_some, IfOk, OnOk};
ghost use Rattle.abs_program.specs.NameSpaces.{with_constructor, with_constructors, with_declaration, with_declarations};
ghost use Rattle.abs_tree.specs.Offences.{earlier};
ghost use Rattle.abs_tree.specs.SyntaxViews.{constructor_tree, decl_tree};
ghost use Rattle.abs_program.specs.Tables.{meaning_of};
ghost use Rattle.abs_names.specs.Single.{twice};
ghost use Rattle.abs_names.specs.Spaces.{constructors_offences, space_offences, spaces_offences};

use crate::around::Around;
use crate::walk::note_if;
use abs_program::{ConstructorMeaning, Taking, TypeMeaning};
use abs_tree::{Code, Constructor, Decl, Offence};
use std::alloc::AllocError;

/// What declares the names of a program: what is declared so far, and the first name that was taken.
#[derive(Drop)]
pub(crate) struct Declarer<'s> {
    pub around: Around<'s>,
    pub first: Option<Offence>,
}

/// A declaration that takes this many arguments.
///
/// # Errors
/// [`AllocError`] if they are too many.
fn taking(declaration: u32, arity: usize) -> Result<Taking, AllocError>
    ensures { IfOk result (λ found. found ≡ record { declaration = declaration; arity = arity }) }
{
    match u32::try_from(arity) {
        Ok(arity) => Ok(Taking { declaration, arity }),
        Err(_) => Err(AllocError),
    }
}

impl Declarer<'_> {
    /// Declares the constructors of the data with this index.
    ///
    /// # Errors
    /// [`AllocError`] if an allocation fails, or if there are too many names.
    fn constructors(&mut self, owner: u32, constructors: &[Constructor]) -> Result<(), AllocError>
        ensures names { OnOk result (self.new.around.names ≡ self.old.around.names) }
        ensures around { OnOk result (self.new.around.around ≡ record self.old.around.around {
          spaces = record self.old.around.around.spaces {
            constructors = with_constructors owner 0 self.old.around.around.spaces.constructors
                (map (constructor_tree self.old.around.names.before) constructors.now);
          };
        }) }
        ensures noted { OnOk result (self.new.first ≡ fold earlier self.old.first (constructors_offences owner 0
            self.old.around.around.spaces.constructors
            (map (constructor_tree self.old.around.names.before) constructors.now))) }
    {
        let mut index: u32 = 0;
        for constructor in constructors {
            self.constructor(owner, index, constructor)?;
            index = index.checked_add(1).ok_or(AllocError)?;
        }
        Ok(())
    }

    /// Declares a constructor, which is the one with this index of its data.
    ///
    /// # Errors
    /// [`AllocError`] if an allocation fails, or if there are too many names.
    fn constructor(
        &mut self,
        owner: u32,
        index: u32,
        constructor: &Constructor,
    ) -> Result<(), AllocError>
        ensures names { OnOk result (self.new.around.names ≡ self.old.around.names) }
        ensures around { OnOk result (self.new.around.around ≡ record self.old.around.around {
          spaces = record self.old.around.around.spaces {
            constructors = with_constructor owner index self.old.around.around.spaces.constructors
                (constructor_tree self.old.around.names.before constructor.now);
          };
        }) }
        ensures noted { OnOk result (self.new.first ≡ fold earlier self.old.first
            (twice (is_some (meaning_of self.old.around.around.spaces.constructors
            (constructor_tree self.old.around.names.before constructor.now).name.name))
            (constructor_tree self.old.around.names.before constructor.now).name.place)) }
    {
        let taking = taking(owner, constructor.types.len())?;
        let name = constructor.name;
        let taken = self
            .around
            .declare_constructor(name.name, ConstructorMeaning { taking, index })?;
        note_if(&mut self.first, taken, name.place, Code::N1);
        Ok(())
    }

    /// Adds the declaration with this index.
    ///
    /// # Errors
    /// [`AllocError`] if an allocation fails, or if there are too many names.
    fn declaration(&mut self, index: u32, declaration: &Decl) -> Result<(), AllocError>
        ensures names { OnOk result (self.new.around.names ≡ self.old.around.names) }
        ensures around { OnOk result (self.new.around.around ≡ record self.old.around.around {
          spaces = with_declaration index self.old.around.around.spaces
              (decl_tree self.old.around.names.before declaration.now);
        }) }
        ensures noted { OnOk result (self.new.first ≡ fold earlier self.old.first (space_offences index
            self.old.around.around.spaces (decl_tree self.old.around.names.before declaration.now))) }
    {
        match declaration {
            Decl::Data {
                name,
                type_params,
                constructors,
                ..
            } => {
                let meaning = TypeMeaning::Data(taking(index, type_params.len())?);
                let taken = self.around.declare_type(name.name, meaning)?;
                note_if(&mut self.first, taken, name.place, Code::N1);
                self.constructors(index, constructors.as_slice())
            }
            Decl::Function { name, params, .. } => {
                let taking = taking(index, params.len())?;
                let taken = self.around.declare_function(name.name, taking)?;
                note_if(&mut self.first, taken, name.place, Code::N1);
                Ok(())
            }
            Decl::Interface { name, .. } => {
                let taken = self
                    .around
                    .declare_type(name.name, TypeMeaning::Interface(index))?;
                note_if(&mut self.first, taken, name.place, Code::N1);
                Ok(())
            }
            Decl::Class { name, params, .. } => {
                let taking = taking(index, params.len())?;
                let taken = self.around.declare_class(name.name, taking)?;
                note_if(&mut self.first, taken, name.place, Code::N1);
                Ok(())
            }
        }
    }

    /// Adds declarations in order, the first of which has this index, and returns the index after the last.
    ///
    /// # Errors
    /// [`AllocError`] if an allocation fails, or if there are too many names.
    pub fn declarations(&mut self, begin: u32, declarations: &[Decl]) -> Result<u32, AllocError>
        ensures next { IfOk result (λ next. next ≡ begin + length declarations.now) }
        ensures names { OnOk result (self.new.around.names ≡ self.old.around.names) }
        ensures around { OnOk result (self.new.around.around ≡ record self.old.around.around {
          spaces = with_declarations begin self.old.around.around.spaces
              (map (decl_tree self.old.around.names.before) declarations.now);
        }) }
        ensures noted { OnOk result (self.new.first ≡ fold earlier self.old.first (spaces_offences begin
            self.old.around.around.spaces (map (decl_tree self.old.around.names.before) declarations.now))) }
    {
        let mut index = begin;
        for declaration in declarations {
            self.declaration(index, declaration)?;
            index = index.checked_add(1).ok_or(AllocError)?;
        }
        Ok(index)
    }
}
