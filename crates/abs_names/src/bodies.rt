//! Parameters, bodies and initial values, which are resolved in place: the parameters of a body are its first slots.
ghost use Rattle.std.specs.Prelude.{◌≡◌, ◌≤◌, ◌++◌, [], fold, length, map, IfOk, OnOk};
ghost use Rattle.abs_tree.specs.Offences.{earlier as earlier_of};
ghost use Rattle.abs_tree.specs.Limits.{table_limit};
ghost use Rattle.abs_program.specs.Slots.{param_slots, statements_slots};
ghost use Rattle.abs_tree.specs.Syntax.{AtSlot};
ghost use Rattle.abs_tree.specs.SyntaxViews.{variable_tree, param_tree, maybe_expr, statements as statement_trees};
ghost use Rattle.abs_names.specs.NameOffences.{params_offences, statements_offences, maybe_expr_offences};
ghost use Rattle.abs_names.specs.Resolution.{resolved_params, resolved_statements, resolved_maybe_expr};
ghost use Rattle.abs_names.specs.TypeNames.{type_offences, resolved_type};
ghost use Rattle.abs_names.specs.Scopes.{body_scope};
ghost use Rattle.abs_names.specs.declared.scope.Routine.TheVariants.{Initial};

use crate::scope::Routine;
use crate::slots::Slots;
use crate::walk::Walk;
use abs_tree::{Body, Expr, Param, Slot, Variable};
use std::alloc::AllocError;
use std::sync::Arc;

impl Walk<'_> {
    /// Resolves the type of a parameter, which becomes this slot or field.
    ///
    /// # Errors
    /// [`AllocError`] if an allocation fails.
    pub fn param(&mut self, param: &mut Param, variable: Variable) -> Result<(), AllocError>
        ensures found { OnOk result (param_tree self.old.scope.names.after param.new ≡ record {
          type_of = resolved_type self.old.scope.scope.around
              (param_tree self.old.scope.names.before param.old).type_of;
          place = (param_tree self.old.scope.names.before param.old).place;
          variable = variable_tree self.old.scope.names.after variable;
        }) }
        ensures noted { OnOk result (self.new.first ≡ fold earlier_of self.old.first (type_offences
            self.old.scope.scope.around (param_tree self.old.scope.names.before param.old).type_of)) }
        ensures scope { OnOk result (self.new.scope ≡ self.old.scope) }
    {
        param.type_of = self.type_term(&param.type_of)?;
        param.variable = variable;
        Ok(())
    }

    /// Resolves the types of the parameters of a body, which become its first slots.
    ///
    /// # Errors
    /// [`AllocError`] if an allocation fails, or if there are too many of them.
    pub fn make_slots(&mut self, params: &mut Vec<Param>) -> Result<(), AllocError>
        ensures found { OnOk result (map (param_tree self.old.scope.names.after) params.new.items ≡ resolved_params
            self.old.scope.scope.around AtSlot 0 (map (param_tree self.old.scope.names.before) params.old.items)) }
        ensures noted { OnOk result (self.new.first ≡ fold earlier_of self.old.first (params_offences
            self.old.scope.scope.around (map (param_tree self.old.scope.names.before) params.old.items))) }
        ensures scope { OnOk result (self.new.scope ≡ self.old.scope) }
    {
        let mut index: u32 = 0;
        for param in params.iter_mut() {
            self.param(param, Variable::Slot(index))?;
            index = index.checked_add(1).ok_or(AllocError)?;
        }
        Ok(())
    }

    /// Begins a body: beside the fields its parameters are visible, and they are its first slots.
    ///
    /// # Errors
    /// [`AllocError`] if an allocation fails, or if there are too many parameters.
    pub fn begin(&mut self, routine: Routine, params: &[Param]) -> Result<Slots, AllocError>
        ensures slots { IfOk result (λ slots. slots.items.items ≡ param_slots (length params.now)) }
        ensures names { OnOk result (self.new.scope.names ≡ self.old.scope.names) }
        ensures scope { OnOk result (self.new.scope.scope ≡ body_scope self.old.scope.scope.around routine
            self.old.scope.scope.fields (map (param_tree self.old.scope.names.before) params.now)) }
        ensures first { OnOk result (self.new.first ≡ self.old.first) }
    {
        self.scope.begin(routine);
        let mut slots = Slots::new(self.alloc);
        for param in params {
            let index = slots.items.len() as u32;
            let index = slots.add(Slot::Parameter(index))?;
            if let Variable::Unresolved(name) = param.variable {
                self.scope.declare(name, Variable::Slot(index))?;
            }
        }
        Ok(slots)
    }

    /// Resolves a body that has begun with these slots. It then has all its slots.
    ///
    /// # Errors
    /// [`AllocError`] if an allocation fails, or if there are too many slots.
    pub fn body(&mut self, slots: Slots, body: &mut Body) -> Result<(), AllocError>
        ensures found { OnOk result (statement_trees self.old.scope.names.after body.new.statements.items
            ≡ resolved_statements self.old.scope.scope (length slots.items.items)
            (statement_trees self.old.scope.names.before body.old.statements.items)) }
        ensures end { body.new.end ≡ body.old.end }
        ensures slots { OnOk result (body.new.slots.items ≡ slots.items.items
            ++ statements_slots (statement_trees self.old.scope.names.before body.old.statements.items)) }
        ensures few { OnOk result (length body.new.slots.items ≤ table_limit) }
        ensures noted { OnOk result (self.new.first ≡ fold earlier_of self.old.first (statements_offences
            self.old.scope.scope (length slots.items.items)
            (statement_trees self.old.scope.names.before body.old.statements.items))) }
        ensures scope { OnOk result (self.new.scope ≡ self.old.scope) }
    {
        let mut slots = slots;
        body.statements = self.block(&mut slots, body.statements.as_slice())?;
        body.slots = slots.items;
        Ok(())
    }

    /// Resolves the initial value of a field, if it has one. The fields before it are visible.
    ///
    /// # Errors
    /// [`AllocError`] if an allocation fails.
    pub fn initial(
        &mut self,
        earlier: u32,
        initial: &mut Option<Arc<Expr>>,
    ) -> Result<(), AllocError>
        ensures found { OnOk result (maybe_expr self.old.scope.names.after initial.new ≡ resolved_maybe_expr
            (body_scope self.old.scope.scope.around (Initial earlier) self.old.scope.scope.fields [])
            (maybe_expr self.old.scope.names.before initial.old)) }
        ensures noted { OnOk result (self.new.first ≡ fold earlier_of self.old.first (maybe_expr_offences
            (body_scope self.old.scope.scope.around (Initial earlier) self.old.scope.scope.fields [])
            (maybe_expr self.old.scope.names.before initial.old))) }
        ensures names { OnOk result (self.new.scope.names ≡ self.old.scope.names) }
        ensures around { OnOk result (self.new.scope.scope.around ≡ self.old.scope.scope.around) }
        ensures fields { OnOk result (self.new.scope.scope.fields ≡ self.old.scope.scope.fields) }
    {
        if let Some(value) = initial {
            self.scope.begin(Routine::Initial(earlier));
            let found = self.shared(value)?;
            *initial = Some(found);
        }
        Ok(())
    }
}
