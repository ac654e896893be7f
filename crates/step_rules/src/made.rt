//! The plans of the rules that make objects and tasks.
ghost use Rattle.std.specs.Prelude.{◌≡◌, true, List, Some, slice_get, IfOk, OnErr};
ghost use Rattle.std.specs.Option.{option_map};
ghost use Rattle.abs_program.specs.Control.{Point};
ghost use Rattle.abs_program.specs.InstructionViews.{class_entry_tree};
ghost use Rattle.abs_tree.specs.Names.{name_of};
ghost use Rattle.abs_program.specs.NamedViews.{program_tree};
ghost use Rattle.abs_tree.specs.Syntax.{Name};
ghost use Rattle.abs_tree.specs.SyntaxViews.{variable_tree};
ghost use Rattle.config_state.specs.Bodies.{class_taking as class_found};
ghost use Rattle.config_state.specs.ConfigViews.{configuration};
ghost use Rattle.config_state.specs.Views.{task_state};
ghost use Rattle.step_rules.specs.Lookups.{Runner, place_of, successor as successor_of};
ghost use Rattle.step_rules.specs.Moves.{Moves, config_of, names_of, program_of};
ghost use Rattle.step_rules.specs.NewEntries.{cog_for as cog_made, home_of as home_in, run_task as run_started};
ghost use Rattle.step_rules.specs.ObjectRules.{call_on, call_rule, new_rule};
ghost use Rattle.step_rules.specs.Plans.{IsNoFault, planned};

use crate::Did;
use crate::lookups::{callable, class_taking, method, object_of, successor, target_of, task_for};
use crate::mover::Mover;
use crate::plan::{Plan, Turn};
use abs_program::{ClassEntry, Named};
use abs_tree::{Mode, Symbol, Variable};
use abs_values::{Fault, Value, Values};
use config_state::{Cog, Config, ObjectCell, TaskCell};
use std::alloc::{AllocError, Global};

/// new: an object is made, for `cog` also its cog, and for an active class a task of `run`.
///
/// # Errors
/// [`AllocError`] if an allocation fails. So it is for each call here.
pub(crate) fn make(
    alloc: Global,
    at: Mover<'_>,
    mode: Mode,
    class: Symbol,
    target: Option<Variable>,
    values: Values,
) -> Result<Plan, AllocError>
    ensures plan { IfOk result (λ plan. (runner : Runner) (point : Point) → Moves at.entry runner point
        → planned (names_of at.entry) (config_of at.entry) runner plan
        ≡ Some (new_rule (program_of at.entry) (config_of at.entry) runner (place_of point)
        (successor_of point.goes true) mode (name_of (names_of at.entry) class)
        (option_map (variable_tree (names_of at.entry)) target) values)) }
    ensures memory { OnErr result ((runner : Runner) (point : Point) → Moves at.entry runner point
        → IsNoFault (new_rule (program_of at.entry) (config_of at.entry) runner (place_of point)
        (successor_of point.goes true) mode (name_of (names_of at.entry) class)
        (option_map (variable_tree (names_of at.entry)) target) values)) }
{
    let Some(entry) = class_taking(at.program, class) else {
        return Ok(Plan::fault(Fault::Mistyped));
    };
    let object = at.config.objects.len() as u32;
    let cog = home_of(mode, at.config, at.cell.cog);
    let task = run_task(alloc, at.program, cog, object, class, entry)?;
    let turn = Turn::GoesOn {
        target: target_of(target),
        value: Value::Object(object),
        next: successor(&at.instruction.goes, true),
    };
    let mut plan = Plan::of(turn, Did::Made);
    plan.cog = cog_for(mode, at.cell.cog, at.instruction.place);
    plan.object = Some(ObjectCell {
        cog,
        place: at.instruction.place,
        class,
        fields: values,
    });
    plan.task = task;
    Ok(plan)
}

/// The cog that `new` makes, if it makes one.
fn cog_for(mode: Mode, parent: u32, place: u32) -> Option<Cog>
    ensures { result ≡ cog_made mode parent place }
{
    match mode {
        Mode::Cog => Some(Cog {
            parent: Some(parent),
            place,
            holder: None,
        }),
        Mode::Plain | Mode::Local(_) => None,
    }
}

/// The cog of the new object.
fn home_of(mode: Mode, config: &Config, cog: u32) -> u32
    ensures { (names : List Name) → result ≡ home_in mode (configuration names config.now) cog }
{
    match mode {
        Mode::Cog => config.cogs.len() as u32,
        Mode::Plain | Mode::Local(_) => cog,
    }
}

/// The task of the method `run` of a new object, if its class is active.
fn run_task(
    alloc: Global,
    program: &Named<'_>,
    cog: u32,
    object: u32,
    class: Symbol,
    entry: &ClassEntry,
) -> Result<Option<TaskCell>, AllocError>
    requires { class_found (program_tree program.now) (name_of program.now.symbols class)
        ≡ Some (class_entry_tree program.now.symbols entry.now) }
    ensures { IfOk result (λ task. option_map (task_state program.now.symbols) task
        ≡ run_started (program_tree program.now) cog object (name_of program.now.symbols class) entry.now.run) }
{
    if entry.run.is_none() {
        return Ok(None);
    }
    let run = program.symbols.symbol_of(b"run");
    let Some(body) = method(program, class, run) else {
        return Ok(None);
    };
    let arguments = Values::new(Vec::new(alloc));
    Ok(Some(task_for(alloc, body, cog, object, run, None, arguments)?))
}

/// call: a task of the method is made, in the cog of the object.
pub(crate) fn send(
    alloc: Global,
    at: Mover<'_>,
    method: Symbol,
    target: Option<Variable>,
    values: Values,
) -> Result<Plan, AllocError>
    ensures plan { IfOk result (λ plan. (runner : Runner) (point : Point) → Moves at.entry runner point
        → planned (names_of at.entry) (config_of at.entry) runner plan
        ≡ Some (call_rule (program_of at.entry) (config_of at.entry) runner (place_of point)
        (successor_of point.goes true) (name_of (names_of at.entry) method)
        (option_map (variable_tree (names_of at.entry)) target) values)) }
    ensures memory { OnErr result ((runner : Runner) (point : Point) → Moves at.entry runner point
        → IsNoFault (call_rule (program_of at.entry) (config_of at.entry) runner (place_of point)
        (successor_of point.goes true) (name_of (names_of at.entry) method)
        (option_map (variable_tree (names_of at.entry)) target) values)) }
{
    let mut items = values.into_items();
    if items.is_empty() {
        return Ok(Plan::fault(Fault::Mistyped));
    }
    match items.remove(0) {
        Value::Object(object) => send_to(alloc, at, object, method, target, Values::new(items)),
        Value::Null => Ok(Plan::fault(Fault::Null)),
        _ => Ok(Plan::fault(Fault::Mistyped)),
    }
}

/// call on an object with an index: a task of the method is made, in the cog of the object.
///
/// # Errors
/// [`AllocError`] if an allocation fails.
fn send_to(
    alloc: Global,
    at: Mover<'_>,
    object: u32,
    method: Symbol,
    target: Option<Variable>,
    arguments: Values,
) -> Result<Plan, AllocError>
    ensures plan { IfOk result (λ plan. (runner : Runner) (point : Point) → Moves at.entry runner point
        → planned (names_of at.entry) (config_of at.entry) runner plan
        ≡ Some (call_on (program_of at.entry) (config_of at.entry) runner (place_of point)
        (successor_of point.goes true) object (name_of (names_of at.entry) method)
        (option_map (variable_tree (names_of at.entry)) target) arguments
        (slice_get (config_of at.entry).objects object))) }
    ensures memory { OnErr result ((runner : Runner) (point : Point) → Moves at.entry runner point
        → IsNoFault (call_on (program_of at.entry) (config_of at.entry) runner (place_of point)
        (successor_of point.goes true) object (name_of (names_of at.entry) method)
        (option_map (variable_tree (names_of at.entry)) target) arguments
        (slice_get (config_of at.entry).objects object))) }
{
    let Some(cell) = object_of(at.config, Some(object)) else {
        return Ok(Plan::fault(Fault::Mistyped));
    };
    let Some(body) = callable(at.program, cell.class, method, arguments.len()) else {
        return Ok(Plan::fault(Fault::Mistyped));
    };
    let place = Some(at.instruction.place);
    let task = task_for(alloc, body, cell.cog, object, method, place, arguments)?;
    let turn = Turn::GoesOn {
        target: target_of(target),
        value: Value::Future(at.config.tasks.len() as u32),
        next: successor(&at.instruction.goes, true),
    };
    let mut plan = Plan::of(turn, Did::Called);
    plan.task = Some(task);
    Ok(plan)
}
