//! The first two steps of an event: the input of a task, and its output. Only a task that runs has expressions, those
//! of its next statement.
ghost use Rattle.std.specs.Prelude.{◌≡◌, ◌<◌, List, length, Some, IsSome, IfOk};
ghost use Rattle.std.specs.Option.{option_map};
ghost use Rattle.abs_program.specs.InstructionViews.{class_entry_tree, exprs_tree, instruction_tree, shared_expr_trees};
ghost use Rattle.abs_program.specs.Instructions.{instruction_of};
ghost use Rattle.abs_values.specs.Results.{results_tree};
ghost use Rattle.abs_program.specs.NamedViews.{program_tree};
ghost use Rattle.abs_tree.specs.Syntax.{Name};
ghost use Rattle.abs_tree.specs.SyntaxViews.{expr_trees};
ghost use Rattle.config_state.specs.ConfigViews.{configuration};
ghost use Rattle.config_state.specs.OfProgram.{IsConfigOf};
ghost use Rattle.config_state.specs.Views.{frame_state};
ghost use Rattle.fun_eval.specs.Reading.{env_scope, scope_tree};
ghost use Rattle.step_rules.specs.Events.{event_of};
ghost use Rattle.step_rules.specs.InputViews.{class_made, initials_tree, input_tree, exprs_by, running_point};
ghost use Rattle.step_rules.specs.Inputs.{Input as InputTree, initials_of, input_of, output_of, scope_of};

use crate::enabled::innermost;
use crate::inputs::{Initials, Input};
use crate::lookups::{class_taking, object_of};
use abs_program::{ClassEntry, Effect, Exprs, Instruction, Named};
use abs_tree::Expr;
use abs_values::{Env, Output, Value, Values};
use config_state::{Config, Frame, State};
use fun_eval::{Scope, eval_all_in};
use std::alloc::{AllocError, Global};
use std::sync::Arc;

/// The input of a task that has an event: what the expressions of its innermost frame can read, the expressions of its
/// next statement, and for `new` also the initial values of the fields of the class. Its lists of values are copies,
/// and its expressions are shared.
///
/// # Errors
/// [`AllocError`] if an allocation fails.
pub fn input(
    alloc: Global,
    program: &Named<'_>,
    config: &Config,
    task: u32,
) -> Result<Input, AllocError>
    requires of_program { ∥ IsConfigOf (program_tree program.now) (configuration program.now.symbols config.now) ∥₁ }
    requires there { task < length config.now.tasks }
    requires has_step { IsSome (event_of (program_tree program.now) (configuration program.now.symbols config.now)
        task) }
    ensures { IfOk result (λ input. input_of (program_tree program.now) (configuration program.now.symbols config.now)
        task ≡ Some (input_tree program.now.symbols input)) }
{
    let cell = config.tasks.at(task as usize);
    let Some(frame) = innermost(cell) else {
        unreachable!()
    };
    let instruction = next_instruction(program, cell.state, frame);
    Ok(Input {
        env: env(alloc, config, frame)?,
        exprs: shared_exprs(instruction)?,
        inits: shared_initials(made_class(program, instruction))?,
    })
}

/// The output for the input of a task: the values of its expressions, and for `new` those of the initial values too, or
/// the first fault. It is evaluated in place, so nothing is copied. A task without a frame has no input, and gets no
/// values.
///
/// # Errors
/// [`AllocError`] if an allocation fails.
pub(crate) fn output(
    alloc: Global,
    program: &Named<'_>,
    config: &Config,
    task: u32,
) -> Result<Output, AllocError>
    requires there { task < length config.now.tasks }
    ensures { IfOk result (λ output. (input : InputTree)
        → input_of (program_tree program.now) (configuration program.now.symbols config.now) task ≡ Some input
        → results_tree output ≡ output_of (program_tree program.now) input) }
{
    let cell = config.tasks.at(task as usize);
    let Some(frame) = innermost(cell) else {
        return Ok(Output::Values(Values::new(Vec::new(alloc))));
    };
    let instruction = next_instruction(program, cell.state, frame);
    eval_all_in(
        alloc,
        program,
        scope(config, frame),
        exprs(instruction),
        initials(made_class(program, instruction)),
    )
}

/// The next instruction of a task with this state and this innermost frame, if it runs and one is left.
fn next_instruction<'p>(
    program: &'p Named<'_>,
    state: State,
    frame: &Frame,
) -> Option<&'p Instruction>
    ensures { option_map (λ found. instruction_tree program.now.symbols found.now) result
        ≡ option_map instruction_of (running_point (program_tree program.now) state
        (frame_state program.now.symbols frame.now)) }
{
    match state {
        State::Running => program.instruction(frame.next?),
        State::Ready | State::Awaiting => None,
    }
}

/// What a new object takes, if the instruction is a `new` whose class is there.
fn made_class<'p>(
    program: &'p Named<'_>,
    instruction: Option<&Instruction>,
) -> Option<&'p ClassEntry>
    ensures { option_map (λ entry. class_entry_tree program.now.symbols entry.now) result
        ≡ class_made (program_tree program.now)
        (option_map (λ found. instruction_tree program.now.symbols found.now) instruction.entry) }
{
    match &instruction?.effect {
        Effect::Make { class, .. } => class_taking(program, *class),
        _ => None,
    }
}

/// What the expressions of a frame can read, where it is. Nothing is copied.
fn scope<'c>(config: &'c Config, frame: &'c Frame) -> Scope<'c>
    ensures { (names : List Name) → scope_tree result
        ≡ scope_of (configuration names config.now) (frame_state names frame.now) }
{
    let fields: &[Value] = match object_of(config, frame.object) {
        Some(object) => object.fields.as_slice(),
        None => &[],
    };
    Scope {
        this: frame.object,
        slots: frame.slots.as_slice(),
        fields,
    }
}

/// A copy of what the expressions of a frame can read.
///
/// # Errors
/// [`AllocError`] if an allocation fails.
fn env(alloc: Global, config: &Config, frame: &Frame) -> Result<Env, AllocError>
    ensures { (names : List Name) → IfOk result (λ env. env_scope env
        ≡ scope_of (configuration names config.now) (frame_state names frame.now)) }
{
    let fields = match object_of(config, frame.object) {
        Some(object) => object.fields.copied(alloc)?,
        None => Values::new(Vec::new(alloc)),
    };
    Ok(Env {
        this: frame.object,
        slots: frame.slots.copied(alloc)?,
        fields,
    })
}

/// The expressions of an instruction; none without one.
fn exprs(instruction: Option<&Instruction>) -> &[Expr]
    ensures { (names : List Name) → expr_trees names result.now
        ≡ exprs_by (option_map (λ found. instruction_tree names found.now) instruction.entry) }
{
    match instruction {
        Some(instruction) => instruction.exprs.as_slice(),
        None => &[],
    }
}

/// The expressions of an instruction, shared; none without one.
///
/// # Errors
/// [`AllocError`] if there are as many copies already as can be counted.
fn shared_exprs(instruction: Option<&Instruction>) -> Result<Exprs, AllocError>
    ensures { (names : List Name) → IfOk result (λ exprs. exprs_tree names exprs
        ≡ exprs_by (option_map (λ found. instruction_tree names found.now) instruction.entry)) }
{
    match instruction {
        Some(instruction) => instruction.exprs.share(),
        None => Ok(Exprs::None),
    }
}

/// The initial values of the fields of a class; none without one.
fn initials(class: Option<&ClassEntry>) -> &[Arc<Expr>]
    ensures { (names : List Name) → shared_expr_trees names result.now
        ≡ initials_of (option_map (λ entry. class_entry_tree names entry.now) class.entry) }
{
    match class {
        Some(class) => class.initials.as_slice(),
        None => &[],
    }
}

/// The initial values of the fields of a class, shared; none without one.
///
/// # Errors
/// [`AllocError`] if there are as many copies already as can be counted.
fn shared_initials(class: Option<&ClassEntry>) -> Result<Initials, AllocError>
    ensures { (names : List Name) → IfOk result (λ initials. initials_tree names initials
        ≡ initials_of (option_map (λ entry. class_entry_tree names entry.now) class.entry)) }
{
    match class {
        Some(class) => Ok(Initials::Row(class.initials.clone()?)),
        None => Ok(Initials::None),
    }
}
