//! Puts the plan of an event in place. Room is made first; then nothing can fail.
ghost use Rattle.std.specs.Prelude.{◌≡◌, ◌<◌, ◌++◌, List, length, Some, IfOk, OnOk, OnErr};
ghost use Rattle.abs_tree.specs.Syntax.{Name};
ghost use Rattle.config_state.specs.ConfigViews.{configuration};
ghost use Rattle.config_state.specs.Views.{configuration_of};
ghost use Rattle.config_state.specs.WellFormed.{IsWellFormed};
ghost use Rattle.config_state.specs.declared.object.ObjectCell.{ObjectCell};
ghost use Rattle.config_state.specs.declared.task.TaskCell.{TaskCell};
ghost use Rattle.step_rules.specs.Changes.{Change, configuration_after, with_holder};
ghost use Rattle.step_rules.specs.Placing.{IsTurn};
ghost use Rattle.step_rules.specs.Plans.{NeedsRoom, plan_change, plan_lines};

use crate::Did;
use crate::plan::{Plan, Turn};
use crate::room::{add, make_room};
use crate::turns::take_turn;
use config_state::{Cog, Cogs, Config, Lines, Objects, Tasks};
use std::alloc::{AllocError, Global};

/// Puts the plan of a task's event in place.
///
/// # Errors
/// [`AllocError`] if an allocation fails, or if a list has as many entries already as it may have. Configuration and
/// lines are unchanged then.
pub(crate) fn install(
    alloc: Global,
    config: &mut Config,
    task: u32,
    plan: Plan,
    lines: &mut Lines,
) -> Result<Did, AllocError>
    requires formed { (names : List Name) × (change : Change)
        × (plan_change names (configuration names config.old) task plan ≡ Some change)
        × ∥ IsWellFormed (configuration_after (configuration names config.old) task change) ∥₁ }
    ensures config { OnOk result ((names : List Name) (change : Change)
        → plan_change names (configuration names config.old) task plan ≡ Some change
        → configuration names config.new ≡ configuration_after (configuration names config.old) task change) }
    ensures lines { OnOk result (lines.new ≡ lines.old ++ plan_lines plan) }
    ensures kind { IfOk result (λ did. did ≡ plan.did) }
    ensures err_config { OnErr result (config.new ≡ config.old) }
    ensures err_lines { OnErr result (lines.new ≡ lines.old) }
    ensures memory { OnErr result (NeedsRoom plan) }
{
    let did = plan.did;
    put_in_place(
        alloc,
        &mut config.cogs,
        &mut config.objects,
        &mut config.tasks,
        task,
        plan,
        lines,
    )?;
    Ok(did)
}

/// Puts a plan in place in the lists of a configuration.
///
/// # Errors
/// [`AllocError`] if an allocation fails, or if a list has as many entries already as it may have. The lists are
/// unchanged then.
fn put_in_place(
    alloc: Global,
    cogs: &mut Cogs,
    objects: &mut Objects,
    tasks: &mut Tasks,
    task: u32,
    plan: Plan,
    lines: &mut Lines,
) -> Result<(), AllocError>
    requires there { task < length tasks.old }
    ensures config { OnOk result ((names : List Name) (change : Change)
        → plan_change names (configuration_of names cogs.old objects.old tasks.old) task plan ≡ Some change
        → configuration_of names cogs.new objects.new tasks.new
        ≡ configuration_after (configuration_of names cogs.old objects.old tasks.old) task change) }
    ensures lines { OnOk result (lines.new ≡ lines.old ++ plan_lines plan) }
    ensures err_cogs { OnErr result (cogs.new ≡ cogs.old) }
    ensures err_objects { OnErr result (objects.new ≡ objects.old) }
    ensures err_tasks { OnErr result (tasks.new ≡ tasks.old) }
    ensures err_lines { OnErr result (lines.new ≡ lines.old) }
    ensures memory { OnErr result (NeedsRoom plan) }
{
    let Plan {
        turn,
        cog,
        object,
        task: new,
        line,
        did: _,
    } = plan;
    make_room(&mut cogs.items, &cog)?;
    make_room(&mut objects.items, &object)?;
    make_room(&mut tasks.items, &new)?;
    make_room(&mut lines.items, &line)?;
    let holder = holder_after(&turn, task);
    let cell = &mut tasks.items[task as usize];
    // A frame that is pushed needs the last room. Nothing fails after this.
    take_turn(alloc, cell, &mut objects.items, turn)?;
    hold(&mut cogs.items, cell.cog, holder);
    add(&mut cogs.items, cog);
    add(&mut objects.items, object);
    add(&mut tasks.items, new);
    add(&mut lines.items, line);
    Ok(())
}

/// The holder of the cog of a task after its turn: the task, or nobody.
fn holder_after(turn: &Turn, task: u32) -> Option<u32>
    ensures { (names : List Name) (objects : List ObjectCell) (cell : TaskCell) (change : Change)
        → IsTurn names objects task cell turn.now change → result ≡ change.holder }
{
    match turn {
        Turn::Takes | Turn::GoesOn { .. } | Turn::Enters { .. } | Turn::Leaves(_) => Some(task),
        Turn::Waits | Turn::Yields(_) | Turn::Ends(_) => None,
    }
}

/// The cog with an index gets this holder, if there is such a cog.
fn hold(cogs: &mut [Cog], index: u32, holder: Option<u32>)
    ensures { cogs.new ≡ with_holder cogs.old index holder }
{
    if (index as usize) < cogs.len() {
        cogs[index as usize].holder = holder;
    }
}
