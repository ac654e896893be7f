//! What is around a part of a source: the names that it may have, what is declared, and the type parameters.
ghost use Rattle.std.specs.Prelude.{◌≡◌, ◌≤◌, [], length, take, map, is_some, IfOk, OnOk};
ghost use Rattle.abs_graph.specs.Views.{graph_of};
ghost use Rattle.abs_program.specs.KeptSpaces.{spaces_by_name, AreProper};
ghost use Rattle.abs_tree.specs.Limits.{table_limit};
ghost use Rattle.abs_tree.specs.Names.{number_of_name, name_of};
ghost use Rattle.abs_program.specs.NameSpaces.{built_in, function_arity as arity_of_function, means_interface as names_interface};
ghost use Rattle.abs_program.specs.Supertypes.{supertypes_in};
ghost use Rattle.abs_tree.specs.SyntaxViews.{decl_tree, declared as declared_tree};
ghost use Rattle.abs_program.specs.Tables.{meaning_of, with_first};
ghost use Rattle.abs_program.specs.declared.name_spaces.FunctionMeaning.TheVariants.{Defined};
ghost use Rattle.abs_names.specs.TypeNames.{around_of, function_taking, constructor_taking, class_taking};

use abs_program::{
    ConstructorMeaning, FunctionMeaning, Meanings, NameSpaces, Taking, TypeMeaning, supertype_graph,
};
use abs_tree::{Decl, Declared, Symbol, Symbols};
use std::alloc::{AllocError, Global};
use std::marker::Model;

/// The symbol that no table has, since a table has fewer names.
const NO_NAME: Symbol = Symbol(u32::MAX);

/// What is around a part of a source. Contracts see two tables of names, those of what is read and those of what is
/// made, and what is around by the definitions.
#[derive(Drop)]
pub(crate) struct Around<'s> {
    symbols: &'s Symbols<'s>,
    /// How many of the names what is read may have.
    readable: u32,
    spaces: NameSpaces,
    type_params: Meanings<u32>,
}

impl<'s> Model for Around<'s> {
    ghost use Rattle.std.specs.Prelude.{◌≤◌, length, take};
    ghost use Rattle.abs_tree.specs.Limits.{table_limit};
    ghost use Rattle.abs_program.specs.KeptSpaces.{named, ProperNumbers, spaces_by_name, AreProper};
    ghost use Rattle.abs_names.specs.Visible.{Known};

    ghost Value = { Known };

    ghost view = { λ s. record {
      names = record { before = take s.readable s.symbols.now; after = s.symbols.now };
      around = record {
        spaces = spaces_by_name s.symbols.now s.spaces;
        type_params = named s.symbols.now (λ index. index) s.type_params;
      };
    } };

    ghost invariant = { λ s. (length s.symbols.now ≤ table_limit) × ProperNumbers s.symbols.now s.type_params
        × AreProper s.symbols.now s.spaces };
}

impl<'s> Around<'s> {
    /// What is around before anything is declared but what is built in: all names may be read.
    ///
    /// # Errors
    /// [`AllocError`] if an allocation fails, or if the table does not have the names of what is built in.
    pub fn new(alloc: Global, symbols: &'s Symbols<'s>) -> Result<Around<'s>, AllocError>
        requires few { length symbols.now ≤ table_limit }
        ensures names { IfOk result (λ found. found.names ≡ record { before = symbols.now; after = symbols.now }) }
        ensures around { IfOk result (λ found. found.around ≡ around_of built_in []) }
    {
        let mut types = Meanings::new(alloc);
        types.push(number_of(symbols, b"Fut")?, TypeMeaning::Fut)?;
        types.push(number_of(symbols, b"String")?, TypeMeaning::String)?;
        types.push(number_of(symbols, b"Int")?, TypeMeaning::Int)?;
        let mut functions = Meanings::new(alloc);
        functions.push(number_of(symbols, b"toString")?, FunctionMeaning::ToString)?;
        Ok(Around {
            symbols,
            readable: symbols.len() as u32,
            spaces: NameSpaces {
                types,
                constructors: Meanings::new(alloc),
                functions,
                classes: Meanings::new(alloc),
            },
            type_params: Meanings::new(alloc),
        })
    }

    /// From now on what is read may have this many names of the table, the first ones.
    pub fn read(&mut self, readable: u32)
        ensures before { self.new.names.before ≡ take readable self.old.names.after }
        ensures after { self.new.names.after ≡ self.old.names.after }
        ensures around { self.new.around ≡ self.old.around }
    {
        self.readable = readable;
    }

    /// From now on what is read may have all names of the table.
    pub fn read_all(&mut self)
        ensures before { self.new.names.before ≡ self.old.names.after }
        ensures after { self.new.names.after ≡ self.old.names.after }
        ensures around { self.new.around ≡ self.old.around }
    {
        self.readable = self.symbols.len() as u32;
    }

    /// Declares a type, unless one with its name is declared. Returns whether one is.
    ///
    /// # Errors
    /// [`AllocError`] if an allocation fails, or if there are too many types.
    pub fn declare_type(&mut self, name: Symbol, meaning: TypeMeaning) -> Result<bool, AllocError>
        ensures taken { IfOk result (λ taken. taken
            ≡ is_some (meaning_of self.old.around.spaces.types (name_of self.old.names.before name))) }
        ensures names { OnOk result (self.new.names ≡ self.old.names) }
        ensures around { OnOk result (self.new.around ≡ record self.old.around {
          spaces = record self.old.around.spaces {
            types = with_first self.old.around.spaces.types (name_of self.old.names.before name) meaning;
          };
        }) }
    {
        let name = self.kept(name);
        let number = self.symbols.number(name);
        self.spaces.types.push_first(number, meaning)
    }

    /// Declares a constructor, unless one with its name is declared. Returns whether one is.
    ///
    /// # Errors
    /// [`AllocError`] if an allocation fails, or if there are too many constructors.
    pub fn declare_constructor(
        &mut self,
        name: Symbol,
        meaning: ConstructorMeaning,
    ) -> Result<bool, AllocError>
        ensures taken { IfOk result (λ taken. taken
            ≡ is_some (meaning_of self.old.around.spaces.constructors (name_of self.old.names.before name))) }
        ensures names { OnOk result (self.new.names ≡ self.old.names) }
        ensures around { OnOk result (self.new.around ≡ record self.old.around {
          spaces = record self.old.around.spaces {
            constructors = with_first self.old.around.spaces.constructors (name_of self.old.names.before name) meaning;
          };
        }) }
    {
        let name = self.kept(name);
        let number = self.symbols.number(name);
        self.spaces.constructors.push_first(number, meaning)
    }

    /// Declares a function, unless one with its name is declared. Returns whether one is.
    ///
    /// # Errors
    /// [`AllocError`] if an allocation fails, or if there are too many functions.
    pub fn declare_function(&mut self, name: Symbol, taking: Taking) -> Result<bool, AllocError>
        ensures taken { IfOk result (λ taken. taken
            ≡ is_some (meaning_of self.old.around.spaces.functions (name_of self.old.names.before name))) }
        ensures names { OnOk result (self.new.names ≡ self.old.names) }
        ensures around { OnOk result (self.new.around ≡ record self.old.around {
          spaces = record self.old.around.spaces {
            functions = with_first self.old.around.spaces.functions (name_of self.old.names.before name)
                (Defined taking);
          };
        }) }
    {
        let name = self.kept(name);
        let number = self.symbols.number(name);
        self.spaces
            .functions
            .push_first(number, FunctionMeaning::Defined(taking))
    }

    /// Declares a class, unless one with its name is declared. Returns whether one is.
    ///
    /// # Errors
    /// [`AllocError`] if an allocation fails, or if there are too many classes.
    pub fn declare_class(&mut self, name: Symbol, taking: Taking) -> Result<bool, AllocError>
        ensures taken { IfOk result (λ taken. taken
            ≡ is_some (meaning_of self.old.around.spaces.classes (name_of self.old.names.before name))) }
        ensures names { OnOk result (self.new.names ≡ self.old.names) }
        ensures around { OnOk result (self.new.around ≡ record self.old.around {
          spaces = record self.old.around.spaces {
            classes = with_first self.old.around.spaces.classes (name_of self.old.names.before name) taking;
          };
        }) }
    {
        let name = self.kept(name);
        let number = self.symbols.number(name);
        self.spaces.classes.push_first(number, taking)
    }

    /// Makes these the type parameters.
    ///
    /// # Errors
    /// [`AllocError`] if an allocation fails, or if there are too many of them.
    pub fn set_type_params(&mut self, params: &[Declared]) -> Result<(), AllocError>
        ensures names { self.new.names ≡ self.old.names }
        ensures around { OnOk result (self.new.around ≡ around_of self.old.around.spaces
            (map (declared_tree self.old.names.before) params.now)) }
    {
        self.type_params.shorten(0);
        let mut index: u32 = 0;
        for param in params {
            self.add_type_param(param.name, index)?;
            index = index.checked_add(1).ok_or(AllocError)?;
        }
        Ok(())
    }

    /// Adds a type parameter with this index, unless there is one with its name.
    ///
    /// # Errors
    /// [`AllocError`] if an allocation fails, or if there are too many of them.
    fn add_type_param(&mut self, name: Symbol, index: u32) -> Result<(), AllocError>
        ensures names { self.new.names ≡ self.old.names }
        ensures around { OnOk result (self.new.around ≡ record self.old.around {
          type_params = with_first self.old.around.type_params (name_of self.old.names.before name) index;
        }) }
    {
        let name = self.kept(name);
        let number = self.symbols.number(name);
        self.type_params.push_first(number, index)?;
        Ok(())
    }

    /// The symbol for a name of what is read, among the names of what is made. A symbol that no name of what is read
    /// has stays without a name.
    pub fn kept(&self, name: Symbol) -> Symbol
        ensures { name_of self.now.names.after result ≡ name_of self.now.names.before name }
    {
        if name.0 < self.readable {
            name
        } else {
            NO_NAME
        }
    }

    /// A number for a name of what is made, which is the same for equal names alone.
    pub fn number(&self, name: Symbol) -> u32
        ensures { result ≡ number_of_name self.now.names.after (name_of self.now.names.after name) }
    {
        self.symbols.number(name)
    }

    /// The type parameter with this name, by its index.
    pub fn type_param(&self, name: Symbol) -> Option<u32>
        ensures { result ≡ meaning_of self.now.around.type_params (name_of self.now.names.before name) }
    {
        let name = self.kept(name);
        self.type_params.look_up(self.symbols.number(name))
    }

    /// What a name stands for as that of a type; a type parameter does not count.
    pub fn type_named(&self, name: Symbol) -> Option<TypeMeaning>
        ensures { result ≡ meaning_of self.now.around.spaces.types (name_of self.now.names.before name) }
    {
        self.spaces.type_named(self.symbols, self.kept(name))
    }

    /// Whether a name is that of an interface.
    pub fn is_interface(&self, name: Symbol) -> bool
        ensures { result ≡ names_interface
            (meaning_of self.now.around.spaces.types (name_of self.now.names.before name)) }
    {
        matches!(self.type_named(name), Some(TypeMeaning::Interface(_)))
    }

    /// The graph of resolved declarations: for each of them the interfaces that it extends or implements in one step.
    ///
    /// # Errors
    /// [`AllocError`] if an allocation fails.
    pub fn supertypes(
        &self,
        alloc: Global,
        declarations: &[Decl],
    ) -> Result<Vec<Vec<u32>>, AllocError>
        ensures { IfOk result (λ graph. graph_of graph.items
            ≡ supertypes_in self.now.around.spaces (map (decl_tree self.now.names.after) declarations.now)) }
    {
        supertype_graph(alloc, self.symbols, &self.spaces, declarations)
    }

    /// The name spaces, by the numbers of names.
    pub fn into_spaces(self) -> NameSpaces
        ensures spaces { spaces_by_name self.entry.names.after result ≡ self.entry.around.spaces }
        ensures proper { AreProper self.entry.names.after result }
    {
        let Around { spaces, .. } = self;
        spaces
    }

    /// How many arguments a name takes as that of a function.
    pub fn function_taking(&self, name: Symbol) -> Option<u32>
        ensures { result ≡ function_taking self.now.around (name_of self.now.names.before name) }
    {
        match self.spaces.function(self.symbols, self.kept(name)) {
            Some(meaning) => Some(function_arity(meaning)),
            None => None,
        }
    }

    /// How many arguments a name takes as that of a constructor.
    pub fn constructor_taking(&self, name: Symbol) -> Option<u32>
        ensures { result ≡ constructor_taking self.now.around (name_of self.now.names.before name) }
    {
        match self.spaces.constructor(self.symbols, self.kept(name)) {
            Some(meaning) => Some(meaning.taking.arity),
            None => None,
        }
    }

    /// How many arguments a name takes as that of a class.
    pub fn class_taking(&self, name: Symbol) -> Option<u32>
        ensures { result ≡ class_taking self.now.around (name_of self.now.names.before name) }
    {
        match self.spaces.class(self.symbols, self.kept(name)) {
            Some(taking) => Some(taking.arity),
            None => None,
        }
    }
}

/// The number of a name that is built in.
///
/// # Errors
/// [`AllocError`] if the table does not have it.
fn number_of(symbols: &Symbols<'_>, name: &[u8]) -> Result<u32, AllocError>
    requires { length symbols.now ≤ table_limit }
    ensures name { IfOk result (λ number. name_of symbols.now (record { 0 = number }) ≡ name.now) }
    ensures number { IfOk result (λ number. number ≡ number_of_name symbols.now name.now) }
{
    match symbols.find(name) {
        Some(symbol) => Ok(symbol.0),
        None => Err(AllocError),
    }
}

/// How many arguments the name of a function takes.
fn function_arity(meaning: FunctionMeaning) -> u32
    ensures { result ≡ arity_of_function meaning }
{
    match meaning {
        FunctionMeaning::ToString => 1,
        FunctionMeaning::Defined(taking) => taking.arity,
    }
}
