//! The plans of the rules that touch nothing but the frames of their task and the fields of its object, and of those by
//! which frames end. None of them looks at a configuration.
//!
//! A fault is reported as a fault whatever the statement is: its plan is `Plan::fault`, whose kind is Finished, and its
//! event is no local one.
ghost use Rattle.std.specs.Prelude.{◌≡◌, suc, List, [], length, Some, None, option_and_then, IfOk, OnErr};
ghost use Rattle.std.specs.Option.{option_map};
ghost use Rattle.abs_program.specs.InstructionViews.{goes_tree};
ghost use Rattle.abs_program.specs.NamedViews.{program_tree};
ghost use Rattle.abs_tree.specs.Names.{name_of};
ghost use Rattle.abs_tree.specs.Syntax.{Name};
ghost use Rattle.abs_tree.specs.SyntaxViews.{variable_tree};
ghost use Rattle.abs_values.specs.ValueTrees.{NullValue, ValueTree};
ghost use Rattle.abs_values.specs.ValueViews.{value_tree};
ghost use Rattle.abs_values.specs.declared.value.Value.TheVariants.{Null};
ghost use Rattle.abs_program.specs.ProgramBodies.{entry_of_body};
ghost use Rattle.config_state.specs.Configurations.{Configuration, object_at, fields_of};
ghost use Rattle.config_state.specs.declared.frame.Target.TheVariants.{Nothing};
ghost use Rattle.step_rules.specs.Events.{local_change};
ghost use Rattle.step_rules.specs.LocalRules.{call_own_rule, used_of};
ghost use Rattle.step_rules.specs.Lookups.{Runner, callable as callable_at};
ghost use Rattle.step_rules.specs.ObjectRules.{goes_on};
ghost use Rattle.step_rules.specs.Plans.{IsNoFault, choose_change, give_change, planned, print_change, store_change};
ghost use Rattle.step_rules.specs.declared.plan.Turn.TheVariants.{GoesOn};

use crate::Did;
use crate::lookups::{callable, frame_for, successor, target_of, truth_of};
use crate::plan::{Plan, Turn};
use abs_program::{BodyEntry, Named, Successor};
use abs_tree::{Symbol, Variable};
use abs_values::{Evaluated, Fault, Value, Values};
use config_state::Target;
use std::alloc::AllocError;

/// The innermost frame goes on, and nothing else changes.
pub(crate) fn advance(next: Option<u32>, did: Did) -> Plan
    ensures { (names : List Name) (config : Configuration) (at : Runner) → planned names config at result
        ≡ Some (goes_on config at.index at.task Nothing NullValue next at.frame at.others [] did) }
{
    Plan::of(onward(next), did)
}

/// The innermost frame goes on, and no value goes anywhere.
fn onward(next: Option<u32>) -> Turn
    ensures { result ≡ GoesOn Nothing Null next }
{
    Turn::GoesOn {
        target: Target::Nothing,
        value: Value::Null,
        next,
    }
}

/// assign: the value goes to the target.
pub(crate) fn store(target: Target, next: Option<u32>, value: Option<Value>) -> Plan
    ensures { (names : List Name) (config : Configuration) (at : Runner) → planned names config at result
        ≡ Some (store_change config at target next (option_map value_tree value)) }
{
    match value {
        Some(value) => Plan::of(
            Turn::GoesOn {
                target,
                value,
                next,
            },
            Did::Went,
        ),
        None => Plan::fault(Fault::Mistyped),
    }
}

/// if, while: control goes by the answer of the condition.
pub(crate) fn choose(program: &Named<'_>, goes: &Successor, value: Option<Value>) -> Plan
    ensures { (config : Configuration) (at : Runner) → planned program.now.symbols config at result
        ≡ Some (choose_change program.now.symbols config at (goes_tree goes.now) (option_map value_tree value)) }
{
    let Some(value) = value else {
        return Plan::fault(Fault::Mistyped);
    };
    match truth_of(program, &value) {
        Some(answer) => advance(successor(goes, answer), Did::Went),
        None => Plan::fault(Fault::Mistyped),
    }
}

/// print: the string is a line.
pub(crate) fn print(next: Option<u32>, value: Option<Value>) -> Plan
    ensures { (names : List Name) (config : Configuration) (at : Runner) → planned names config at result
        ≡ Some (print_change config at next (option_map value_tree value)) }
{
    match value {
        Some(Value::Text(text)) => {
            let mut plan = Plan::of(onward(next), Did::Printed);
            plan.line = Some(text);
            plan
        }
        _ => Plan::fault(Fault::Mistyped),
    }
}

/// return: the value goes to the frame below, or it is the result of the task.
pub(crate) fn give(frames: usize, value: Option<Value>) -> Plan
    ensures { (names : List Name) (config : Configuration) (at : Runner) → frames ≡ suc (length at.others)
        → planned names config at result ≡ Some (give_change config at (option_map value_tree value)) }
{
    match value {
        Some(value) => {
            if frames > 1 {
                Plan::of(Turn::Leaves(value), Did::Went)
            } else {
                Plan::of(Turn::Ends(Evaluated::Good(value)), Did::Finished)
            }
        }
        None => Plan::fault(Fault::Mistyped),
    }
}

/// own call: a frame of the method is pushed, with the own object. The class is that of this object, if there is one.
///
/// # Errors
/// [`AllocError`] if an allocation fails.
pub(crate) fn enter(
    program: &Named<'_>,
    class: Option<Symbol>,
    object: Option<u32>,
    next: Option<u32>,
    method: Symbol,
    target: Option<Variable>,
    values: Values,
) -> Result<Plan, AllocError>
    ensures plan { IfOk result (λ plan. (config : Configuration) (at : Runner) → at.frame.object ≡ object
        → planned program.now.symbols config at plan ≡ Some (local_change at
        (call_own_rule (used_of (program_tree program.now) (option_map (name_of program.now.symbols) class))
        (name_of program.now.symbols method) (option_map (variable_tree program.now.symbols) target)
        next at.frame at.others (fields_of (object_at config at.frame.object)) values))) }
    ensures memory { OnErr result ((at : Runner) (fields : List ValueTree) → at.task.outcome ≡ None
        → IsNoFault (local_change at
        (call_own_rule (used_of (program_tree program.now) (option_map (name_of program.now.symbols) class))
        (name_of program.now.symbols method) (option_map (variable_tree program.now.symbols) target)
        next at.frame at.others fields values))) }
{
    let Some(body) = own_method(program, class, method, values.len()) else {
        return Ok(Plan::fault(Fault::Mistyped));
    };
    let frame = frame_for(body, method, object, values, target_of(target))?;
    Ok(Plan::of(Turn::Enters { frame, next }, Did::Called))
}

/// The body of the method with a name of the class of the own object, if there is one with this number of parameters.
fn own_method(
    program: &Named<'_>,
    class: Option<Symbol>,
    method: Symbol,
    arguments: usize,
) -> Option<BodyEntry>
    ensures { result ≡ option_map entry_of_body (option_and_then
        (λ name. callable_at (program_tree program.now) name (name_of program.now.symbols method) arguments)
        (option_map (name_of program.now.symbols) class)) }
{
    callable(program, class?, method, arguments)
}
