//! Right sides: each call by `.` on another object than `this` gets a hidden slot.
ghost use Rattle.std.specs.Prelude.{◌≡◌, ◌++◌, ℕ, List, Option, None, fold, length, IfOk, OnOk};
ghost use Rattle.abs_tree.specs.Offences.{earlier};
ghost use Rattle.abs_program.specs.Slots.{side_slots, maybe_side_slots};
ghost use Rattle.abs_tree.specs.Names.{name_of};
ghost use Rattle.abs_tree.specs.Syntax.{Name, NewOf, CallOf};
ghost use Rattle.abs_tree.specs.declared.place.Place.{Place as PlaceAt};
ghost use Rattle.abs_tree.specs.SyntaxViews.{expr_trees, side_tree, maybe_side};
ghost use Rattle.abs_names.specs.NameOffences.{exprs_offences, side_offences, maybe_side_offences};
ghost use Rattle.abs_names.specs.Resolution.{resolved_exprs, hidden_slot, resolved_side, resolved_maybe_side};

use crate::slots::Slots;
use crate::walk::Walk;
use abs_tree::{Expr, Mode, Place, RightSide, Slot, Symbol};
use std::alloc::AllocError;
use std::sync::Arc;

impl Walk<'_> {
    /// Resolves a right side of the statement with this index, if there is one.
    ///
    /// # Errors
    /// [`AllocError`] if an allocation fails.
    pub fn maybe_side(
        &mut self,
        slots: &mut Slots,
        index: u32,
        side: &Option<RightSide>,
    ) -> Result<Option<RightSide>, AllocError>
        ensures found { IfOk result (λ found. maybe_side self.old.scope.names.after found
            ≡ resolved_maybe_side self.old.scope.scope (length slots.old.items.items)
            (maybe_side self.old.scope.names.before side.now)) }
        ensures noted { OnOk result (self.new.first ≡ fold earlier self.old.first
            (maybe_side_offences self.old.scope.scope (maybe_side self.old.scope.names.before side.now))) }
        ensures slots { OnOk result (slots.new.items.items
            ≡ slots.old.items.items ++ maybe_side_slots index (maybe_side self.old.scope.names.before side.now)) }
        ensures scope { OnOk result (self.new.scope ≡ self.old.scope) }
    {
        match side {
            Some(side) => Ok(Some(self.side(slots, index, side)?)),
            None => Ok(None),
        }
    }

    /// Resolves a right side of the statement with this index. A call by `.` on another object than `this` gets a slot.
    ///
    /// # Errors
    /// [`AllocError`] if an allocation fails.
    pub fn side(
        &mut self,
        slots: &mut Slots,
        index: u32,
        side: &RightSide,
    ) -> Result<RightSide, AllocError>
        ensures found { IfOk result (λ found. side_tree self.old.scope.names.after found
            ≡ resolved_side self.old.scope.scope (length slots.old.items.items)
            (side_tree self.old.scope.names.before side.now)) }
        ensures noted { OnOk result (self.new.first ≡ fold earlier self.old.first
            (side_offences self.old.scope.scope (side_tree self.old.scope.names.before side.now))) }
        ensures slots { OnOk result (slots.new.items.items
            ≡ slots.old.items.items ++ side_slots index (side_tree self.old.scope.names.before side.now)) }
        ensures scope { OnOk result (self.new.scope ≡ self.old.scope) }
    {
        match side {
            RightSide::New {
                place,
                mode,
                class_place,
                class,
                arguments,
            } => self.creation(*place, *mode, *class_place, *class, arguments),
            RightSide::Value(place, value) => Ok(RightSide::Value(*place, self.shared(value)?)),
            RightSide::Send {
                place,
                method,
                operands,
            } => Ok(RightSide::Send {
                place: *place,
                method: self.scope.around().kept(*method),
                operands: self.shared_exprs(operands)?,
            }),
            RightSide::Get {
                place,
                get_place,
                future,
            } => Ok(RightSide::Get {
                place: *place,
                get_place: *get_place,
                future: self.shared(future)?,
            }),
            RightSide::Call {
                place,
                method,
                operands,
                ..
            } => self.call(slots, index, *place, *method, operands),
        }
    }

    /// Resolves the creation of an object.
    fn creation(
        &mut self,
        place: Place,
        mode: Mode,
        class_place: Place,
        class: Symbol,
        arguments: &[Expr],
    ) -> Result<RightSide, AllocError>
        ensures found { IfOk result (λ found. side_tree self.old.scope.names.after found
            ≡ NewOf place mode class_place (name_of self.old.scope.names.before class)
            (resolved_exprs self.old.scope.scope (expr_trees self.old.scope.names.before arguments.now))) }
        ensures noted { OnOk result (self.new.first ≡ fold earlier self.old.first
            (side_offences self.old.scope.scope (NewOf place mode class_place
            (name_of self.old.scope.names.before class) (expr_trees self.old.scope.names.before arguments.now)))) }
        ensures scope { OnOk result (self.new.scope ≡ self.old.scope) }
    {
        let taken = self.scope.around().class_taking(class);
        self.note_applied(taken, arguments.len(), class_place);
        Ok(RightSide::New {
            place,
            mode,
            class_place,
            class: self.scope.around().kept(class),
            arguments: self.shared_exprs(arguments)?,
        })
    }

    /// Resolves a call by `.` of the statement with this index, and gives it a slot unless its receiver is `this`.
    fn call(
        &mut self,
        slots: &mut Slots,
        index: u32,
        place: Place,
        method: Symbol,
        operands: &[Expr],
    ) -> Result<RightSide, AllocError>
        ensures found { IfOk result (λ found. side_tree self.old.scope.names.after found
            ≡ resolved_side self.old.scope.scope (length slots.old.items.items)
            (CallOf place (name_of self.old.scope.names.before method)
            (expr_trees self.old.scope.names.before operands.now) None)) }
        ensures noted { OnOk result (self.new.first ≡ fold earlier self.old.first
            (side_offences self.old.scope.scope
            (CallOf place (name_of self.old.scope.names.before method)
            (expr_trees self.old.scope.names.before operands.now) None))) }
        ensures slots { OnOk result (slots.new.items.items
            ≡ slots.old.items.items ++ side_slots index
            (CallOf place (name_of self.old.scope.names.before method)
            (expr_trees self.old.scope.names.before operands.now) None)) }
        ensures scope { OnOk result (self.new.scope ≡ self.old.scope) }
    {
        let slot = hidden(slots, index, operands)?;
        Ok(RightSide::Call {
            place,
            method: self.scope.around().kept(method),
            operands: self.shared_exprs(operands)?,
            slot,
        })
    }

    /// Resolves expressions that are shared.
    fn shared_exprs(&mut self, exprs: &[Expr]) -> Result<Arc<Vec<Expr>>, AllocError>
        ensures found { IfOk result (λ found. expr_trees self.old.scope.names.after found.value.items
            ≡ resolved_exprs self.old.scope.scope (expr_trees self.old.scope.names.before exprs.now)) }
        ensures noted { OnOk result (self.new.first ≡ fold earlier self.old.first
            (exprs_offences self.old.scope.scope (expr_trees self.old.scope.names.before exprs.now))) }
        ensures scope { OnOk result (self.new.scope ≡ self.old.scope) }
    {
        let found = self.expressions(exprs)?;
        Ok(Arc::new(self.alloc, found)?)
    }
}

/// The hidden slot of a call by `.` of the statement with this index, if its receiver is not `this`.
fn hidden(slots: &mut Slots, index: u32, operands: &[Expr]) -> Result<Option<u32>, AllocError>
    ensures found { (names : List Name) → IfOk result
        (λ found. found ≡ hidden_slot (length slots.old.items.items) (expr_trees names operands.now)) }
    ensures slots { (names : List Name) (place : PlaceAt) (method : Name) (slot : Option ℕ) → OnOk result
        (slots.new.items.items ≡ slots.old.items.items
        ++ side_slots index (CallOf place method (expr_trees names operands.now) slot)) }
{
    match operands.first() {
        Some(Expr::This(_)) | None => Ok(None),
        Some(_) => Ok(Some(slots.add(Slot::Hidden(index))?)),
    }
}
