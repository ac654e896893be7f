//! What becomes of the task that moves: its frames, its state and its result, and the fields of the object to which a
//! value goes.
ghost use Rattle.std.specs.Prelude.{◌≡◌, ℕ, List, Option, ◌∷◌, map, set, OnOk, OnErr};
ghost use Rattle.abs_tree.specs.Syntax.{Name};
ghost use Rattle.abs_values.specs.ValueViews.{value_tree};
ghost use Rattle.config_state.specs.Configurations.{FrameState};
ghost use Rattle.config_state.specs.Views.{frame_state, object_state, task_state};
ghost use Rattle.config_state.specs.declared.frame.Frame.{Frame};
ghost use Rattle.step_rules.specs.Changes.{Change, with_fields};
ghost use Rattle.step_rules.specs.Placing.{AreFieldsAfter, IsTurn, frames_of, writing};
ghost use Rattle.step_rules.specs.Targets.{slots_after};
ghost use Rattle.step_rules.specs.declared.plan.Turn.TheVariants.{Enters};

use crate::plan::Turn;
use crate::room::reserve_one;
use abs_values::{Value, Values};
use config_state::{Frame, Frames, ObjectCell, State, Target, TaskCell};
use std::alloc::{AllocError, Global};

/// Puts in place what becomes of a task.
///
/// # Errors
/// [`AllocError`] if a frame is pushed, and an allocation fails or there are as many frames already as there may be.
/// The task and the objects are unchanged then.
pub(crate) fn take_turn(
    alloc: Global,
    cell: &mut TaskCell,
    objects: &mut [ObjectCell],
    turn: Turn,
) -> Result<(), AllocError>
    ensures task { OnOk result ((names : List Name) (index : ℕ) (change : Change)
        → IsTurn names objects.old index cell.old turn change → task_state names cell.new ≡ change.task) }
    ensures objects { OnOk result ((names : List Name) (index : ℕ) (change : Change)
        → IsTurn names objects.old index cell.old turn change
        → map (object_state names) objects.new ≡ with_fields (map (object_state names) objects.old) change.written) }
    ensures err_task { OnErr result (cell.new ≡ cell.old) }
    ensures err_objects { OnErr result (objects.new ≡ objects.old) }
    ensures memory { OnErr result ((frame : Frame) × (next : Option ℕ) × (turn ≡ Enters frame next)) }
{
    let frames = &mut cell.frames;
    match turn {
        Turn::Takes => cell.state = State::Running,
        Turn::GoesOn {
            target,
            value,
            next,
        } => {
            advance(&mut frames.items, next);
            put_in_frame(&mut frames.items, objects, target, value);
        }
        Turn::Enters { frame, next } => enter(&mut frames.items, frame, next)?,
        Turn::Leaves(value) => leave(&mut frames.items, objects, value),
        Turn::Waits => cell.state = State::Awaiting,
        Turn::Yields(next) => {
            advance(&mut frames.items, next);
            cell.state = State::Ready;
        }
        Turn::Ends(result) => {
            cell.frames = Frames {
                items: Vec::new(alloc),
            };
            cell.state = State::Ready;
            cell.outcome = Some(result);
        }
    }
    Ok(())
}

/// The innermost frame goes on with a statement.
fn advance(frames: &mut [Frame], next: Option<u32>)
    ensures { (names : List Name) (frame : FrameState) (others : List FrameState)
        → frames_of names frames.old ≡ frame ∷ others
        → frames_of names frames.new ≡ record frame { next = next } ∷ others }
{
    if let Some(frame) = frames.last_mut() {
        frame.next = next;
    }
}

/// A value goes to a target of the innermost frame, whose object is one of these.
fn put_in_frame(frames: &mut [Frame], objects: &mut [ObjectCell], target: Target, value: Value)
    ensures frames { (names : List Name) (frame : FrameState) (others : List FrameState)
        → frames_of names frames.old ≡ frame ∷ others → frames_of names frames.new
        ≡ record frame { slots = slots_after target (value_tree value) frame.slots } ∷ others }
    ensures objects { (names : List Name) (frame : FrameState) (others : List FrameState)
        → frames_of names frames.old ≡ frame ∷ others
        → map (object_state names) objects.new ≡ with_fields (map (object_state names) objects.old)
        (writing (map (object_state names) objects.old) frame.object target (value_tree value)) }
{
    if let Some(frame) = frames.last_mut() {
        put_in_object(&mut frame.slots, objects, frame.object, target, value);
    }
}

/// A value goes to a target: to one of these slots, or to a field of the object with an index, if there is one.
fn put_in_object(
    slots: &mut Values,
    objects: &mut [ObjectCell],
    object: Option<u32>,
    target: Target,
    value: Value,
)
    ensures slots { slots.new ≡ slots_after target (value_tree value) slots.old }
    ensures objects { (names : List Name)
        → map (object_state names) objects.new ≡ with_fields (map (object_state names) objects.old)
        (writing (map (object_state names) objects.old) object target (value_tree value)) }
{
    let Some(object) = object else {
        put(slots, None, target, value);
        return;
    };
    if (object as usize) < objects.len() {
        let fields = &mut objects[object as usize].fields;
        put(slots, Some(fields), target, value);
    } else {
        put(slots, None, target, value);
    }
}

/// A value goes to a target: to one of these slots, or to one of these fields, if there are fields.
fn put(slots: &mut Values, fields: Option<&mut Values>, target: Target, value: Value)
    ensures slots { slots.new ≡ slots_after target (value_tree value) slots.old }
    ensures fields { AreFieldsAfter target (value_tree value) fields.entry fields.exit }
{
    match target {
        Target::Nothing => {}
        Target::Local(slot) => put_at(slots, slot, value),
        Target::Field(field) => {
            if let Some(fields) = fields {
                put_at(fields, field, value);
            }
        }
    }
}

/// A value goes to a place in a list. Where there is no such place, the list stays as it is.
fn put_at(values: &mut Values, index: u32, value: Value)
    ensures { values.new ≡ set values.old index (value_tree value) }
{
    if (index as usize) < values.len() {
        values.set(index as usize, value);
    }
}

/// A frame is pushed. The one below it goes on with a statement, later.
///
/// # Errors
/// [`AllocError`] if an allocation fails, or if there are as many frames already as there may be. The frames are
/// unchanged then.
fn enter(frames: &mut Vec<Frame>, frame: Frame, next: Option<u32>) -> Result<(), AllocError>
    ensures frames { OnOk result ((names : List Name) (below : FrameState) (others : List FrameState)
        → frames_of names frames.old.items ≡ below ∷ others → frames_of names frames.new.items
        ≡ frame_state names frame ∷ record below { next = next } ∷ others) }
    ensures err { OnErr result (frames.new.items ≡ frames.old.items) }
{
    reserve_one(frames)?;
    advance(frames, next);
    frames.push_reserved(frame);
    Ok(())
}

/// The innermost frame is popped, and a value goes to its target in the frame below.
fn leave(frames: &mut Vec<Frame>, objects: &mut [ObjectCell], value: Value)
    ensures frames { (names : List Name) (frame below : FrameState) (others : List FrameState)
        → frames_of names frames.old.items ≡ frame ∷ below ∷ others → frames_of names frames.new.items
        ≡ record below { slots = slots_after frame.target (value_tree value) below.slots } ∷ others }
    ensures objects { (names : List Name) (frame below : FrameState) (others : List FrameState)
        → frames_of names frames.old.items ≡ frame ∷ below ∷ others
        → map (object_state names) objects.new ≡ with_fields (map (object_state names) objects.old)
        (writing (map (object_state names) objects.old) below.object frame.target (value_tree value)) }
{
    if let Some(frame) = frames.pop() {
        put_in_frame(frames, objects, frame.target, value);
    }
}
