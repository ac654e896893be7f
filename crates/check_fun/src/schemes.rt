//! What functions and constructors take and give, as types of the table.
ghost use Rattle.std.specs.Prelude.{◌≡◌, Some, map, option_and_then, slice_get, IfOk, OnOk};
ghost use Rattle.std.specs.List.{range_with_len};
ghost use Rattle.abs_tree.specs.Names.{name_of};
ghost use Rattle.abs_tree.specs.SyntaxViews.{decl_tree, param_tree, type_trees};
ghost use Rattle.abs_types.specs.PlainTypes.{applied_to, plains, PlainData, PlainParameter};
ghost use Rattle.abs_types.specs.Schemes.{data_scheme, declared_scheme, param_types, scheme_of_constructor, scheme_of_function, to_string_scheme};
ghost use Rattle.check_fun.specs.Contexts.{Context, FindsAll, Finds, FindsConstructor, FindsScheme, Knows, Stays};

use crate::checker::Checker;
use abs_program::FunctionMeaning;
use abs_tree::{Decl, Param, Symbol, TypeTerm};
use abs_types::TypeIndex;
use std::alloc::AllocError;

/// What a function or a constructor takes, in order, and what it gives, with this many type parameters.
#[derive(Drop)]
pub(crate) struct TypeScheme {
    pub(crate) parameters: u32,
    pub(crate) takes: Vec<TypeIndex>,
    pub(crate) gives: TypeIndex,
}

/// What a constructor takes, in order, and the name of its data, with this many type parameters.
#[derive(Drop)]
pub(crate) struct ConstructorTakes {
    pub(crate) owner: Symbol,
    pub(crate) parameters: u32,
    pub(crate) takes: Vec<TypeIndex>,
}

/// A number of type parameters in 32 bits.
///
/// # Errors
/// [`AllocError`] if it takes more bits.
fn counted(count: usize) -> Result<u32, AllocError>
    ensures { IfOk result (λ found. found ≡ count) }
{
    match u32::try_from(count) {
        Ok(found) => Ok(found),
        Err(_) => Err(AllocError),
    }
}

impl Checker<'_> {
    /// The scheme of the function with a name, if there is one.
    ///
    /// # Errors
    /// [`AllocError`] if an allocation fails, or if there are too many types or type parameters.
    pub(crate) fn function_scheme(&mut self, name: Symbol) -> Result<Option<TypeScheme>, AllocError>
        ensures found { (context : Context) → Knows self.old context → IfOk result (λ found. FindsScheme self.new found
            (scheme_of_function context.declarations (name_of context.names name))) }
        ensures first { self.new.first ≡ self.old.first }
        ensures stays { OnOk result (Stays self.old self.new) }
    {
        match self.table.program.function(name) {
            Some(FunctionMeaning::ToString) => Ok(Some(self.to_string_scheme()?)),
            Some(FunctionMeaning::Defined(taking)) => self.declared_scheme(taking.declaration),
            None => Ok(None),
        }
    }

    /// The scheme of the constructor with a name, if there is one.
    ///
    /// # Errors
    /// [`AllocError`] if an allocation fails, or if there are too many types or type parameters.
    pub(crate) fn constructor_scheme(
        &mut self,
        name: Symbol,
    ) -> Result<Option<TypeScheme>, AllocError>
        ensures found { (context : Context) → Knows self.old context → IfOk result (λ found. FindsScheme self.new found
            (scheme_of_constructor context.declarations (name_of context.names name))) }
        ensures first { self.new.first ≡ self.old.first }
        ensures stays { OnOk result (Stays self.old self.new) }
    {
        let Some(
            ConstructorTakes {
                owner,
                parameters,
                takes,
            },
        ) = self.constructor_takes(name)?
        else {
            return Ok(None);
        };
        let gives = self.own_type(owner, parameters)?;
        Ok(Some(TypeScheme {
            parameters,
            takes,
            gives,
        }))
    }

    /// What the constructor with a name takes, if there is one.
    ///
    /// # Errors
    /// [`AllocError`] if an allocation fails, or if there are too many types or type parameters.
    pub(crate) fn constructor_takes(
        &mut self,
        name: Symbol,
    ) -> Result<Option<ConstructorTakes>, AllocError>
        ensures found { (context : Context) → Knows self.old context
            → IfOk result (λ found. FindsConstructor self.new context found
            (scheme_of_constructor context.declarations (name_of context.names name))) }
        ensures first { self.new.first ≡ self.old.first }
        ensures stays { OnOk result (Stays self.old self.new) }
    {
        let program = self.table.program;
        match program.constructor(name) {
            Some(meaning) => match program
                .declarations
                .get(meaning.taking.declaration as usize)
            {
                Some(declaration) => self.takes_declared(declaration, meaning.index),
                None => Ok(None),
            },
            None => Ok(None),
        }
    }

    /// What the constructor with an index of a declaration takes, if that is data which has it.
    ///
    /// # Errors
    /// [`AllocError`] if an allocation fails, or if there are too many types or type parameters.
    fn takes_declared(
        &mut self,
        declaration: &Decl,
        index: u32,
    ) -> Result<Option<ConstructorTakes>, AllocError>
        ensures found { (context : Context) → Knows self.old context
            → IfOk result (λ found. FindsConstructor self.new context found
            (data_scheme index (decl_tree context.names declaration.now))) }
        ensures first { self.new.first ≡ self.old.first }
        ensures stays { OnOk result (Stays self.old self.new) }
    {
        match declaration {
            Decl::Data {
                name,
                type_params,
                constructors,
                ..
            } => match constructors.get(index as usize) {
                Some(constructor) => Ok(Some(ConstructorTakes {
                    owner: name.name,
                    parameters: counted(type_params.len())?,
                    takes: self.all_written(constructor.types.as_slice())?,
                })),
                None => Ok(None),
            },
            _ => Ok(None),
        }
    }

    /// The scheme of `toString`.
    ///
    /// # Errors
    /// [`AllocError`] if an allocation fails, or if there are too many types.
    fn to_string_scheme(&mut self) -> Result<TypeScheme, AllocError>
        ensures found { IfOk result (λ found. FindsScheme self.new (Some found) (Some to_string_scheme)) }
        ensures first { self.new.first ≡ self.old.first }
        ensures stays { OnOk result (Stays self.old self.new) }
    {
        let any = self.parameter(0)?;
        let gives = self.string()?;
        Ok(TypeScheme {
            parameters: 1,
            takes: vec![in self.table.alloc; any; 1]?,
            gives,
        })
    }

    /// The scheme of the declaration with an index, if it is a function.
    ///
    /// # Errors
    /// [`AllocError`] if an allocation fails, or if there are too many types or type parameters.
    fn declared_scheme(&mut self, declaration: u32) -> Result<Option<TypeScheme>, AllocError>
        ensures found { (context : Context) → Knows self.old context → IfOk result (λ found. FindsScheme self.new found
            (option_and_then declared_scheme (slice_get context.declarations declaration))) }
        ensures first { self.new.first ≡ self.old.first }
        ensures stays { OnOk result (Stays self.old self.new) }
    {
        match self.table.program.declarations.get(declaration as usize) {
            Some(declaration) => self.scheme_declared(declaration),
            None => Ok(None),
        }
    }

    /// The scheme of a declaration, if it is a function.
    ///
    /// # Errors
    /// [`AllocError`] if an allocation fails, or if there are too many types or type parameters.
    fn scheme_declared(&mut self, declaration: &Decl) -> Result<Option<TypeScheme>, AllocError>
        ensures found { (context : Context) → Knows self.old context → IfOk result (λ found. FindsScheme self.new found
            (declared_scheme (decl_tree context.names declaration.now))) }
        ensures first { self.new.first ≡ self.old.first }
        ensures stays { OnOk result (Stays self.old self.new) }
    {
        match declaration {
            Decl::Function {
                result,
                type_params,
                params,
                ..
            } => Ok(Some(TypeScheme {
                parameters: counted(type_params.len())?,
                takes: self.param_types(params.as_slice())?,
                gives: self.written(result)?,
            })),
            _ => Ok(None),
        }
    }

    /// The types of parameters, in their order.
    ///
    /// # Errors
    /// [`AllocError`] if an allocation fails, or if there are too many types.
    pub fn param_types(&mut self, params: &[Param]) -> Result<Vec<TypeIndex>, AllocError>
        ensures found { (context : Context) → Knows self.old context
            → IfOk result (λ found. FindsAll self.new (Some found.items)
            (Some (param_types (map (param_tree context.names) params.now)))) }
        ensures first { self.new.first ≡ self.old.first }
        ensures stays { OnOk result (Stays self.old self.new) }
    {
        let mut found = Vec::with_capacity(self.table.alloc, params.len())?;
        for param in params {
            found.push(self.written(&param.type_of)?)?;
        }
        Ok(found)
    }

    /// Types that the program writes, in their order.
    ///
    /// # Errors
    /// [`AllocError`] if an allocation fails, or if there are too many types.
    fn all_written(&mut self, terms: &[TypeTerm]) -> Result<Vec<TypeIndex>, AllocError>
        ensures found { (context : Context) → Knows self.old context
            → IfOk result (λ found. FindsAll self.new (Some found.items)
            (Some (plains (type_trees context.names terms.now)))) }
        ensures first { self.new.first ≡ self.old.first }
        ensures stays { OnOk result (Stays self.old self.new) }
    {
        let mut found = Vec::with_capacity(self.table.alloc, terms.len())?;
        for term in terms {
            found.push(self.written(term)?)?;
        }
        Ok(found)
    }

    /// The data type with a name, applied to as many type parameters as it has.
    ///
    /// # Errors
    /// [`AllocError`] if an allocation fails, or if there are too many types.
    fn own_type(&mut self, owner: Symbol, parameters: u32) -> Result<TypeIndex, AllocError>
        ensures found { (context : Context) → Knows self.old context
            → IfOk result (λ found. Finds self.new (Some found) (Some (applied_to
            (PlainData (name_of context.names owner)) (map PlainParameter (range_with_len 0 parameters))))) }
        ensures first { self.new.first ≡ self.old.first }
        ensures stays { OnOk result (Stays self.old self.new) }
    {
        let mut found = self.data(owner)?;
        for index in 0..parameters {
            let parameter = self.parameter(index)?;
            found = self.applied(found, parameter)?;
        }
        Ok(found)
    }
}
