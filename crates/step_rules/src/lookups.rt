//! What the plans of events look up, and the frames and tasks that they make.
ghost use Rattle.std.specs.Prelude.{◌≡◌, List, Some, IfOk};
ghost use Rattle.std.specs.Option.{option_map};
ghost use Rattle.abs_program.specs.InstructionViews.{goes_tree, class_entry_tree};
ghost use Rattle.abs_tree.specs.Names.{name_of};
ghost use Rattle.abs_values.specs.Operations.{truth_of as truth_in};
ghost use Rattle.abs_program.specs.NamedViews.{program_tree};
ghost use Rattle.abs_tree.specs.Syntax.{Name};
ghost use Rattle.abs_tree.specs.SyntaxViews.{variable_tree};
ghost use Rattle.abs_values.specs.ValueViews.{value_tree};
ghost use Rattle.abs_program.specs.ProgramBodies.{BodyAt, entry_of_body};
ghost use Rattle.config_state.specs.Bodies.{class_taking as class_found, method_at};
ghost use Rattle.config_state.specs.ConfigViews.{configuration};
ghost use Rattle.config_state.specs.Configurations.{object_at};
ghost use Rattle.config_state.specs.First.{frame_for as frame_at_start};
ghost use Rattle.config_state.specs.Views.{frame_state, object_state, task_state};
ghost use Rattle.step_rules.specs.Lookups.{callable as callable_at, class_of as class_in, successor as successor_of, unit_value as unit_in};
ghost use Rattle.step_rules.specs.NewEntries.{task_for as task_at_start};
ghost use Rattle.step_rules.specs.Plans.{only as only_of};
ghost use Rattle.step_rules.specs.Targets.{target_of as target_in};

use abs_program::{BodyEntry, ClassEntry, Named, Successor};
use abs_tree::{Symbol, Variable};
use abs_values::{Value, Values, answer_of};
use config_state::{Config, Frame, Frames, ObjectCell, State, Target, TaskCell};
use std::alloc::{AllocError, Global};

/// Where the value of a statement goes.
pub(crate) fn target_of(target: Option<Variable>) -> Target
    ensures { (names : List Name) → result ≡ target_in (option_map (variable_tree names) target) }
{
    match target {
        Some(Variable::Slot(slot)) => Target::Local(slot),
        Some(Variable::Field(field)) => Target::Field(field),
        _ => Target::Nothing,
    }
}

/// Where control goes after a statement, by the answer of its condition.
pub(crate) fn successor(goes: &Successor, answer: bool) -> Option<u32>
    ensures { result ≡ successor_of (goes_tree goes.now) answer }
{
    match goes {
        Successor::Next(index) => *index,
        Successor::ByAnswer {
            when_true,
            when_false,
        } => { if answer { *when_true } else { *when_false } }
    }
}

/// The value of a list that has just one.
pub(crate) fn only(values: Values) -> Option<Value>
    ensures { option_map value_tree result ≡ only_of values }
{
    let mut items = values.into_items();
    if items.len() == 1 { items.pop() } else { None }
}

/// The answer that a value is, if it is a Bool.
pub(crate) fn truth_of(program: &Named<'_>, value: &Value) -> Option<bool>
    ensures { result ≡ truth_in program.now.symbols (value_tree value.now) }
{
    let symbols = &program.symbols;
    answer_of(
        value,
        symbols.symbol_of(b"True"),
        symbols.symbol_of(b"False"),
    )
}

/// The value `Unit`.
///
/// # Errors
/// [`AllocError`] if an allocation fails. So it is for each call here.
pub(crate) fn unit_value(alloc: Global, program: &Named<'_>) -> Result<Value, AllocError>
    ensures { IfOk result (λ value. value_tree value ≡ unit_in program.now.symbols) }
{
    let unit = program.symbols.symbol_of(b"Unit");
    Value::built(alloc, unit, Vec::new(alloc))?.ok_or(AllocError)
}

/// What a new object of the class with a name takes, if there is that class.
pub(crate) fn class_taking<'p>(program: &'p Named<'_>, class: Symbol) -> Option<&'p ClassEntry>
    ensures { option_map (λ entry. class_entry_tree program.now.symbols entry.now) result
        ≡ class_found (program_tree program.now) (name_of program.now.symbols class) }
{
    program.class_entry(program.class(class)?.declaration)
}

/// The object with an index, if there is an index and an object with it.
pub(crate) fn object_of(config: &Config, object: Option<u32>) -> Option<&ObjectCell>
    ensures { (names : List Name) → option_map (λ cell. object_state names cell.now) result
        ≡ object_at (configuration names config.now) object }
{
    config.objects.items.get(object? as usize)
}

/// The class of the object with an index, if there is an index and an object with it.
pub(crate) fn class_of(config: &Config, object: Option<u32>) -> Option<Symbol>
    ensures { (names : List Name) → option_map (name_of names) result
        ≡ class_in (object_at (configuration names config.now) object) }
{
    let cell = object_of(config, object)?;
    Some(cell.class)
}

/// The body of the method with a name of the class with a name.
pub(crate) fn method(program: &Named<'_>, class: Symbol, method: Symbol) -> Option<BodyEntry>
    ensures { result ≡ option_map entry_of_body (method_at (program_tree program.now)
        (name_of program.now.symbols class) (name_of program.now.symbols method)) }
{
    let class = program.class(class)?.declaration;
    program.body(class, program.method(class, method)?)
}

/// The body of the method with a name of the class with a name, if it has this number of parameters.
pub(crate) fn callable(
    program: &Named<'_>,
    class: Symbol,
    name: Symbol,
    arguments: usize,
) -> Option<BodyEntry>
    ensures { result ≡ option_map entry_of_body (callable_at (program_tree program.now)
        (name_of program.now.symbols class) (name_of program.now.symbols name) arguments) }
{
    let body = method(program, class, name)?;
    if body.params as usize == arguments {
        Some(body)
    } else {
        None
    }
}

/// A frame at the start of the body of a method. Its first slots have the values of the arguments, and all others null.
pub(crate) fn frame_for(
    body: BodyEntry,
    method: Symbol,
    object: Option<u32>,
    arguments: Values,
    target: Target,
) -> Result<Frame, AllocError>
    ensures { (names : List Name) → IfOk result (λ frame. frame_state names frame
        ≡ frame_at_start body (Some (name_of names method)) object arguments target) }
{
    let mut slots = arguments;
    for _ in 0..body.slots.saturating_sub(body.params) {
        slots.push(Value::Null)?;
    }
    Ok(Frame {
        method: Some(method),
        object,
        slots,
        next: body.first,
        target,
    })
}

/// A new task of a method. It is ready, and executes the body alone.
pub(crate) fn task_for(
    alloc: Global,
    body: BodyEntry,
    cog: u32,
    object: u32,
    method: Symbol,
    call: Option<u32>,
    arguments: Values,
) -> Result<TaskCell, AllocError>
    ensures { (names : List Name) (at : BodyAt) → entry_of_body at ≡ body
        → IfOk result (λ task. task_state names task
        ≡ task_at_start at cog object (name_of names method) call arguments) }
{
    let frame = frame_for(body, method, Some(object), arguments, Target::Nothing)?;
    Ok(TaskCell {
        cog,
        object: Some(object),
        method: Some(method),
        call,
        frames: Frames {
            items: vec![in alloc; frame]?,
        },
        state: State::Ready,
        outcome: None,
    })
}
