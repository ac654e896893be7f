//! Names that are declared twice in one list: type parameters, parameters, fields, methods.
ghost use Rattle.std.specs.Prelude.{◌≡◌, ◌++◌, [], List, fold, map, IfOk, OnOk};
ghost use Rattle.abs_tree.specs.Offences.{earlier};
ghost use Rattle.abs_tree.specs.Syntax.{Name};
ghost use Rattle.abs_tree.specs.SyntaxViews.{declared as declared_tree, param_tree, member_tree, signature_tree, decl_tree};
ghost use Rattle.abs_names.specs.Repeats.{repeated, param_names as names_of_params, class_names as names_of_class, method_names as names_of_methods, signature_names as names_of_signatures, signatures_repeats, members_repeats, declaration_repeats, declarations_repeats};

use crate::walk::{Walk, note_if};
use abs_tree::{Code, Decl, Declared, Member, Param, Signature, Variable};
use indexmap::IndexSet;
use std::alloc::{AllocError, Global};

/// The names that parameters declare, in order.
fn param_names(alloc: Global, params: &[Param]) -> Result<Vec<Declared>, AllocError>
    ensures { (names : List Name) → IfOk result (λ found. map (declared_tree names) found.items
        ≡ names_of_params (map (param_tree names) params.now)) }
{
    let mut found = Vec::new(alloc);
    for param in params {
        if let Variable::Unresolved(name) = param.variable {
            let place = param.place;
            found.push(Declared { place, name })?;
        }
    }
    Ok(found)
}

/// The names of the fields of a class, in order: its parameters, and the fields among its members.
fn class_names(
    alloc: Global,
    params: &[Param],
    members: &[Member],
) -> Result<Vec<Declared>, AllocError>
    ensures { (names : List Name) → IfOk result (λ found. map (declared_tree names) found.items
        ≡ names_of_class (map (param_tree names) params.now) (map (member_tree names) members.now)) }
{
    let mut found = param_names(alloc, params)?;
    for member in members {
        if let Member::Field { name, .. } = member {
            found.push(*name)?;
        }
    }
    Ok(found)
}

/// The names of the methods among the members of a class, in order.
fn method_names(alloc: Global, members: &[Member]) -> Result<Vec<Declared>, AllocError>
    ensures { (names : List Name) → IfOk result (λ found. map (declared_tree names) found.items
        ≡ names_of_methods (map (member_tree names) members.now)) }
{
    let mut found = Vec::new(alloc);
    for member in members {
        if let Member::Method(signature, _) = member {
            found.push(signature.name)?;
        }
    }
    Ok(found)
}

/// The names of heads of methods, in order.
fn signature_names(alloc: Global, signatures: &[Signature]) -> Result<Vec<Declared>, AllocError>
    ensures { (names : List Name) → IfOk result (λ found. map (declared_tree names) found.items
        ≡ names_of_signatures (map (signature_tree names) signatures.now)) }
{
    let mut found = Vec::with_capacity(alloc, signatures.len())?;
    for signature in signatures {
        found.push(signature.name)?;
    }
    Ok(found)
}

impl Walk<'_> {
    /// Notes each of these declarations whose name an earlier one of them has.
    ///
    /// # Errors
    /// [`AllocError`] if an allocation fails.
    fn note_repeated(&mut self, declared: &[Declared]) -> Result<(), AllocError>
        ensures noted { OnOk result (self.new.first ≡ fold earlier self.old.first
            (repeated [] (map (declared_tree self.old.scope.names.before) declared.now))) }
        ensures scope { OnOk result (self.new.scope ≡ self.old.scope) }
    {
        let mut seen = IndexSet::new(self.alloc);
        for one in declared {
            let name = self.scope.around().kept(one.name);
            let is_new = seen.insert(self.scope.around().number(name))?;
            note_if(&mut self.first, !is_new, one.place, Code::N1);
        }
        Ok(())
    }

    /// Notes each parameter whose name an earlier one has.
    ///
    /// # Errors
    /// [`AllocError`] if an allocation fails.
    fn note_params(&mut self, params: &[Param]) -> Result<(), AllocError>
        ensures noted { OnOk result (self.new.first ≡ fold earlier self.old.first
            (repeated [] (names_of_params (map (param_tree self.old.scope.names.before) params.now)))) }
        ensures scope { OnOk result (self.new.scope ≡ self.old.scope) }
    {
        let names = param_names(self.alloc, params)?;
        self.note_repeated(names.as_slice())
    }

    /// Notes each parameter of a method of an interface whose name an earlier one of the method has.
    ///
    /// # Errors
    /// [`AllocError`] if an allocation fails.
    fn note_signatures(&mut self, signatures: &[Signature]) -> Result<(), AllocError>
        ensures noted { OnOk result (self.new.first ≡ fold earlier self.old.first
            (signatures_repeats (map (signature_tree self.old.scope.names.before) signatures.now))) }
        ensures scope { OnOk result (self.new.scope ≡ self.old.scope) }
    {
        for signature in signatures {
            self.note_params(signature.params.as_slice())?;
        }
        Ok(())
    }

    /// Notes each parameter of a method whose name an earlier one of the method has.
    ///
    /// # Errors
    /// [`AllocError`] if an allocation fails.
    fn note_members(&mut self, members: &[Member]) -> Result<(), AllocError>
        ensures noted { OnOk result (self.new.first ≡ fold earlier self.old.first
            (members_repeats (map (member_tree self.old.scope.names.before) members.now))) }
        ensures scope { OnOk result (self.new.scope ≡ self.old.scope) }
    {
        for member in members {
            if let Member::Method(signature, _) = member {
                self.note_params(signature.params.as_slice())?;
            }
        }
        Ok(())
    }

    /// Notes each name in a list of a declaration that an earlier declaration of the list has.
    ///
    /// # Errors
    /// [`AllocError`] if an allocation fails.
    fn note_declaration(&mut self, declaration: &Decl) -> Result<(), AllocError>
        ensures noted { OnOk result (self.new.first ≡ fold earlier self.old.first
            (declaration_repeats (decl_tree self.old.scope.names.before declaration.now))) }
        ensures scope { OnOk result (self.new.scope ≡ self.old.scope) }
    {
        match declaration {
            Decl::Data { type_params, .. } => self.note_repeated(type_params.as_slice()),
            Decl::Function {
                type_params,
                params,
                ..
            } => {
                self.note_repeated(type_params.as_slice())?;
                self.note_params(params.as_slice())
            }
            Decl::Interface { signatures, .. } => {
                let names = signature_names(self.alloc, signatures.as_slice())?;
                self.note_repeated(names.as_slice())?;
                self.note_signatures(signatures.as_slice())
            }
            Decl::Class {
                params,
                members,
                ..
            } => {
                let fields = class_names(self.alloc, params.as_slice(), members.as_slice())?;
                self.note_repeated(fields.as_slice())?;
                let methods = method_names(self.alloc, members.as_slice())?;
                self.note_repeated(methods.as_slice())?;
                self.note_members(members.as_slice())
            }
        }
    }

    /// Notes each name in a list of these declarations that an earlier declaration of the list has.
    ///
    /// # Errors
    /// [`AllocError`] if an allocation fails.
    pub fn note_declarations(&mut self, declarations: &[Decl]) -> Result<(), AllocError>
        ensures noted { OnOk result (self.new.first ≡ fold earlier self.old.first
            (declarations_repeats (map (decl_tree self.old.scope.names.before) declarations.now))) }
        ensures scope { OnOk result (self.new.scope ≡ self.old.scope) }
    {
        for declaration in declarations {
            self.note_declaration(declaration)?;
        }
        Ok(())
    }
}
