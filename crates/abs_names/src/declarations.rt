//! Declarations, which are resolved in place.
ghost use Rattle.std.specs.Prelude.{◌≡◌, [], All, fold, map, length, OnOk};
ghost use Rattle.abs_tree.specs.Offences.{earlier};
ghost use Rattle.abs_program.specs.SlotViews.{DeclHasSlots};
ghost use Rattle.abs_tree.specs.SyntaxViews.{declared as declared_tree, constructor_tree, signature_tree, decl_tree};
ghost use Rattle.abs_names.specs.NameOffences.{interfaces_offences, constructor_types_offences, signature_offences, signatures_offences, declaration_offences, declarations_offences};
ghost use Rattle.abs_names.specs.Resolution.{resolved_constructors, resolved_signature, resolved_signatures, resolved_declaration, resolved_declarations};

use crate::scope::Routine;
use crate::walk::Walk;
use abs_tree::{Constructor, Decl, Declared, Signature};
use std::alloc::AllocError;

impl Walk<'_> {
    /// Resolves the types of constructors.
    ///
    /// # Errors
    /// [`AllocError`] if an allocation fails.
    fn constructors(&mut self, constructors: &mut Vec<Constructor>) -> Result<(), AllocError>
        ensures found { OnOk result (map (constructor_tree self.old.scope.names.after) constructors.new.items
            ≡ resolved_constructors self.old.scope.scope.around
            (map (constructor_tree self.old.scope.names.before) constructors.old.items)) }
        ensures noted { OnOk result (self.new.first ≡ fold earlier self.old.first (constructor_types_offences
            self.old.scope.scope.around (map (constructor_tree self.old.scope.names.before) constructors.old.items))) }
        ensures scope { OnOk result (self.new.scope ≡ self.old.scope) }
    {
        for constructor in constructors.iter_mut() {
            self.keep(&mut constructor.name);
            constructor.types = self.type_terms(constructor.types.as_slice())?;
        }
        Ok(())
    }

    /// Notes each of these names after `extends` or `implements` that is not one of an interface.
    fn interfaces(&mut self, names: &mut Vec<Declared>)
        ensures found { map (declared_tree self.old.scope.names.after) names.new.items
            ≡ map (declared_tree self.old.scope.names.before) names.old.items }
        ensures noted { self.new.first ≡ fold earlier self.old.first (interfaces_offences self.old.scope.scope.around
            (map (declared_tree self.old.scope.names.before) names.old.items)) }
        ensures scope { self.new.scope ≡ self.old.scope }
    {
        for name in names.iter_mut() {
            let known = self.scope.around().is_interface(name.name);
            self.note_unless(known, name.place);
            self.keep(name);
        }
    }

    /// Resolves the types in the head of a method, whose parameters become slots.
    ///
    /// # Errors
    /// [`AllocError`] if an allocation fails, or if there are too many parameters.
    pub fn signature(&mut self, signature: &mut Signature) -> Result<(), AllocError>
        ensures found { OnOk result (signature_tree self.old.scope.names.after signature.new ≡ resolved_signature
            self.old.scope.scope.around (signature_tree self.old.scope.names.before signature.old)) }
        ensures params { OnOk result (length signature.new.params.items ≡ length signature.old.params.items) }
        ensures noted { OnOk result (self.new.first ≡ fold earlier self.old.first (signature_offences
            self.old.scope.scope.around (signature_tree self.old.scope.names.before signature.old))) }
        ensures scope { OnOk result (self.new.scope ≡ self.old.scope) }
    {
        signature.result = self.type_term(&signature.result)?;
        self.keep(&mut signature.name);
        self.make_slots(&mut signature.params)
    }

    /// Resolves the types in heads of methods.
    ///
    /// # Errors
    /// [`AllocError`] if an allocation fails, or if there are too many parameters.
    fn signatures(&mut self, signatures: &mut Vec<Signature>) -> Result<(), AllocError>
        ensures found { OnOk result (map (signature_tree self.old.scope.names.after) signatures.new.items
            ≡ resolved_signatures self.old.scope.scope.around
            (map (signature_tree self.old.scope.names.before) signatures.old.items)) }
        ensures noted { OnOk result (self.new.first ≡ fold earlier self.old.first (signatures_offences
            self.old.scope.scope.around (map (signature_tree self.old.scope.names.before) signatures.old.items))) }
        ensures scope { OnOk result (self.new.scope ≡ self.old.scope) }
    {
        for signature in signatures.iter_mut() {
            self.signature(signature)?;
        }
        Ok(())
    }

    /// Resolves a declaration.
    ///
    /// # Errors
    /// [`AllocError`] if an allocation fails, or if there are too many fields, parameters or slots.
    fn declaration(&mut self, declaration: &mut Decl) -> Result<(), AllocError>
        requires { self.old.scope.scope.fields ≡ [] }
        ensures found { OnOk result (decl_tree self.old.scope.names.after declaration.new ≡ resolved_declaration
            self.old.scope.scope.around.spaces (decl_tree self.old.scope.names.before declaration.old)) }
        ensures noted { OnOk result (self.new.first ≡ fold earlier self.old.first (declaration_offences
            self.old.scope.scope.around.spaces (decl_tree self.old.scope.names.before declaration.old))) }
        ensures has_slots { OnOk result (DeclHasSlots self.old.scope.names.after declaration.new) }
        ensures names { OnOk result (self.new.scope.names ≡ self.old.scope.names) }
        ensures spaces { OnOk result (self.new.scope.scope.around.spaces ≡ self.old.scope.scope.around.spaces) }
        ensures fields { OnOk result (self.new.scope.scope.fields ≡ []) }
    {
        match declaration {
            Decl::Data {
                name,
                type_params,
                constructors,
                ..
            } => {
                self.scope.set_type_params(type_params.as_slice())?;
                self.keep(name);
                self.keep_all(type_params);
                self.constructors(constructors)
            }
            Decl::Function {
                result,
                name,
                type_params,
                params,
                value,
                ..
            } => {
                self.scope.set_type_params(type_params.as_slice())?;
                self.begin(Routine::Function, params.as_slice())?;
                *result = self.type_term(result)?;
                self.keep(name);
                self.keep_all(type_params);
                self.make_slots(params)?;
                *value = self.shared(value)?;
                Ok(())
            }
            Decl::Interface {
                name,
                extended,
                signatures,
                ..
            } => {
                self.scope.set_type_params(&[])?;
                self.keep(name);
                self.interfaces(extended);
                self.signatures(signatures)
            }
            Decl::Class {
                name,
                params,
                implemented,
                members,
                ..
            } => {
                self.scope.set_type_params(&[])?;
                self.keep(name);
                self.interfaces(implemented);
                self.class(params, members)
            }
        }
    }

    /// Resolves declarations in order.
    ///
    /// # Errors
    /// [`AllocError`] if an allocation fails, or if there are too many fields, parameters or slots.
    pub fn declarations(&mut self, declarations: &mut Vec<Decl>) -> Result<(), AllocError>
        requires { self.old.scope.scope.fields ≡ [] }
        ensures found { OnOk result (map (decl_tree self.old.scope.names.after) declarations.new.items
            ≡ resolved_declarations self.old.scope.scope.around.spaces
            (map (decl_tree self.old.scope.names.before) declarations.old.items)) }
        ensures noted { OnOk result (self.new.first ≡ fold earlier self.old.first (declarations_offences
            self.old.scope.scope.around.spaces (map (decl_tree self.old.scope.names.before) declarations.old.items))) }
        ensures has_slots { OnOk result (All (DeclHasSlots self.old.scope.names.after) declarations.new.items) }
        ensures names { OnOk result (self.new.scope.names ≡ self.old.scope.names) }
        ensures spaces { OnOk result (self.new.scope.scope.around.spaces ≡ self.old.scope.scope.around.spaces) }
        ensures fields { OnOk result (self.new.scope.scope.fields ≡ []) }
    {
        for declaration in declarations.iter_mut() {
            self.declaration(declaration)?;
        }
        Ok(())
    }
}
