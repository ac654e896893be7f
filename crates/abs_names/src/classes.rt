//! Classes: their parameters and the fields among their members are fields, and their members are resolved in place.
ghost use Rattle.std.specs.Prelude.{◌≡◌, ◌≤◌, [], All, fold, length, map, IfOk, OnOk};
ghost use Rattle.abs_tree.specs.Offences.{earlier as earlier_of};
ghost use Rattle.abs_tree.specs.Limits.{table_limit};
ghost use Rattle.abs_program.specs.SlotViews.{MemberHasSlots};
ghost use Rattle.abs_tree.specs.Syntax.{AtField};
ghost use Rattle.abs_tree.specs.SyntaxViews.{param_tree, member_tree};
ghost use Rattle.abs_names.specs.NameOffences.{params_offences, member_offences, members_offences, class_offences};
ghost use Rattle.abs_names.specs.Resolution.{resolved_params, resolved_member, resolved_members};
ghost use Rattle.abs_names.specs.Scopes.{with_param_fields, with_member_fields, class_fields, fields_after};

use crate::scope::Routine;
use crate::walk::Walk;
use abs_tree::limits::TABLE_LIMIT;
use abs_tree::{Member, Param, Variable};
use std::alloc::AllocError;

impl Walk<'_> {
    /// Adds the parameters of a class to its fields.
    ///
    /// # Errors
    /// [`AllocError`] if an allocation fails, or if there are too many fields.
    fn add_params(&mut self, params: &[Param]) -> Result<(), AllocError>
        ensures names { OnOk result (self.new.scope.names ≡ self.old.scope.names) }
        ensures scope { OnOk result (self.new.scope.scope ≡ record self.old.scope.scope {
          fields = with_param_fields self.old.scope.scope.fields 0
              (map (param_tree self.old.scope.names.before) params.now);
        }) }
        ensures few { OnOk result (length params.now ≤ table_limit) }
        ensures first { OnOk result (self.new.first ≡ self.old.first) }
    {
        if params.len() > TABLE_LIMIT as usize {
            return Err(AllocError);
        }
        let mut index = 0;
        for param in params {
            if let Variable::Unresolved(name) = param.variable {
                self.scope.add_field(name, index)?;
            }
            index += 1;
        }
        Ok(())
    }

    /// Resolves the types of the parameters of a class, which become its first fields.
    ///
    /// # Errors
    /// [`AllocError`] if an allocation fails, or if there are too many of them.
    fn make_fields(&mut self, params: &mut Vec<Param>) -> Result<(), AllocError>
        ensures found { OnOk result (map (param_tree self.old.scope.names.after) params.new.items ≡ resolved_params
            self.old.scope.scope.around AtField 0 (map (param_tree self.old.scope.names.before) params.old.items)) }
        ensures noted { OnOk result (self.new.first ≡ fold earlier_of self.old.first (params_offences
            self.old.scope.scope.around (map (param_tree self.old.scope.names.before) params.old.items))) }
        ensures scope { OnOk result (self.new.scope ≡ self.old.scope) }
    {
        let mut index: u32 = 0;
        for param in params.iter_mut() {
            self.param(param, Variable::Field(index))?;
            index = index.checked_add(1).ok_or(AllocError)?;
        }
        Ok(())
    }

    /// Resolves a member of a class, and returns how many fields there are up to it, where `earlier` come before it.
    ///
    /// # Errors
    /// [`AllocError`] if an allocation fails, or if there are too many fields, parameters or slots.
    fn member(&mut self, earlier: u32, member: &mut Member) -> Result<u32, AllocError>
        ensures found { OnOk result (member_tree self.old.scope.names.after member.new ≡ resolved_member
            self.old.scope.scope.around self.old.scope.scope.fields earlier
            (member_tree self.old.scope.names.before member.old)) }
        ensures noted { OnOk result (self.new.first ≡ fold earlier_of self.old.first (member_offences
            self.old.scope.scope.around self.old.scope.scope.fields earlier
            (member_tree self.old.scope.names.before member.old))) }
        ensures count { IfOk result
            (λ found. found ≡ fields_after earlier (member_tree self.old.scope.names.before member.old)) }
        ensures has_slots { OnOk result (MemberHasSlots self.old.scope.names.after member.new) }
        ensures names { OnOk result (self.new.scope.names ≡ self.old.scope.names) }
        ensures around { OnOk result (self.new.scope.scope.around ≡ self.old.scope.scope.around) }
        ensures fields { OnOk result (self.new.scope.scope.fields ≡ self.old.scope.scope.fields) }
    {
        match member {
            Member::Field {
                type_of,
                name,
                initial,
            } => {
                *type_of = self.type_term(type_of)?;
                self.keep(name);
                self.initial(earlier, initial)?;
                earlier.checked_add(1).ok_or(AllocError)
            }
            Member::Method(signature, body) => {
                let slots = self.begin(Routine::Method, signature.params.as_slice())?;
                self.signature(signature)?;
                self.body(slots, body)?;
                Ok(earlier)
            }
        }
    }

    /// Resolves the members of a class, where `earlier` fields come before them.
    ///
    /// # Errors
    /// [`AllocError`] if an allocation fails, or if there are too many fields, parameters or slots.
    fn members(&mut self, earlier: u32, members: &mut Vec<Member>) -> Result<(), AllocError>
        ensures found { OnOk result (map (member_tree self.old.scope.names.after) members.new.items ≡ resolved_members
            self.old.scope.scope.around self.old.scope.scope.fields earlier
            (map (member_tree self.old.scope.names.before) members.old.items)) }
        ensures noted { OnOk result (self.new.first ≡ fold earlier_of self.old.first (members_offences
            self.old.scope.scope.around self.old.scope.scope.fields earlier
            (map (member_tree self.old.scope.names.before) members.old.items))) }
        ensures has_slots { OnOk result (All (MemberHasSlots self.old.scope.names.after) members.new.items) }
        ensures names { OnOk result (self.new.scope.names ≡ self.old.scope.names) }
        ensures around { OnOk result (self.new.scope.scope.around ≡ self.old.scope.scope.around) }
        ensures fields { OnOk result (self.new.scope.scope.fields ≡ self.old.scope.scope.fields) }
    {
        let mut earlier = earlier;
        for member in members.iter_mut() {
            earlier = self.member(earlier, member)?;
        }
        Ok(())
    }

    /// Adds the fields among the members of a class, where `earlier` fields come before them.
    ///
    /// # Errors
    /// [`AllocError`] if an allocation fails, or if there are too many fields.
    fn add_members(&mut self, earlier: u32, members: &[Member]) -> Result<(), AllocError>
        ensures names { OnOk result (self.new.scope.names ≡ self.old.scope.names) }
        ensures scope { OnOk result (self.new.scope.scope ≡ record self.old.scope.scope {
          fields = with_member_fields self.old.scope.scope.fields earlier
              (map (member_tree self.old.scope.names.before) members.now);
        }) }
        ensures first { OnOk result (self.new.first ≡ self.old.first) }
    {
        let mut index = earlier;
        for member in members {
            if let Member::Field { name, .. } = member {
                self.scope.add_field(name.name, index)?;
                index = index.checked_add(1).ok_or(AllocError)?;
            }
        }
        Ok(())
    }

    /// Resolves a class: its parameters, and its members.
    ///
    /// # Errors
    /// [`AllocError`] if an allocation fails, or if there are too many fields, parameters or slots.
    pub fn class(
        &mut self,
        params: &mut Vec<Param>,
        members: &mut Vec<Member>,
    ) -> Result<(), AllocError>
        requires { self.old.scope.scope.fields ≡ [] }
        ensures params { OnOk result (map (param_tree self.old.scope.names.after) params.new.items ≡ resolved_params
            self.old.scope.scope.around AtField 0 (map (param_tree self.old.scope.names.before) params.old.items)) }
        ensures members { OnOk result (map (member_tree self.old.scope.names.after) members.new.items ≡ resolved_members
            self.old.scope.scope.around (class_fields (map (param_tree self.old.scope.names.before) params.old.items)
            (map (member_tree self.old.scope.names.before) members.old.items)) (length params.old.items)
            (map (member_tree self.old.scope.names.before) members.old.items)) }
        ensures noted { OnOk result (self.new.first ≡ fold earlier_of self.old.first (class_offences
            self.old.scope.scope.around (map (param_tree self.old.scope.names.before) params.old.items)
            (map (member_tree self.old.scope.names.before) members.old.items))) }
        ensures has_slots { OnOk result (All (MemberHasSlots self.old.scope.names.after) members.new.items) }
        ensures names { OnOk result (self.new.scope.names ≡ self.old.scope.names) }
        ensures around { OnOk result (self.new.scope.scope.around ≡ self.old.scope.scope.around) }
        ensures fields { OnOk result (self.new.scope.scope.fields ≡ []) }
    {
        self.add_params(params.as_slice())?;
        let earlier = params.len() as u32;
        self.add_members(earlier, members.as_slice())?;
        self.make_fields(params)?;
        self.members(earlier, members)?;
        self.scope.end_class();
        Ok(())
    }
}
