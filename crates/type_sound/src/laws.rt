//! Laws of the types of what runs. Each has one premise about the program: that it is accepted.
ghost use Rattle.std.specs.Prelude.{◌≡◌, ◌≢◌, ℕ, List, slice_get, Some, true};
ghost use Rattle.abs_profile.specs.Accepted.{IsAcceptedProgram};
ghost use Rattle.abs_program.specs.Control.{Point};
ghost use Rattle.abs_program.specs.Instructions.{expr_trees_of, effect_of};
ghost use Rattle.abs_tree.specs.Syntax.{ExprTree, Name, ProgramTree, TypeTree};
ghost use Rattle.abs_types.specs.Holds.{holds_futures_in};
ghost use Rattle.abs_types.specs.PlainTypes.{PlainType, plain};
ghost use Rattle.abs_values.specs.Evaluation.{results_of};
ghost use Rattle.abs_values.specs.References.{IsIn, ToFuture, ToObject, expr_tree_at};
ghost use Rattle.abs_values.specs.Results.{Fails, OneFails};
ghost use Rattle.abs_values.specs.Scopes.{library_of};
ghost use Rattle.abs_values.specs.ValueTrees.{ValueTree};
ghost use Rattle.abs_values.specs.declared.evaluated.Fault.TheVariants.{Mistyped};
ghost use Rattle.config_state.specs.Configurations.{Configuration, ObjectState, TaskState};
ghost use Rattle.config_state.specs.First.{first};
ghost use Rattle.config_state.specs.OfProgram.{IsConfigOf, next_point};
ghost use Rattle.config_state.specs.WellFormed.{IsWellFormed};
ghost use Rattle.step_rules.specs.Changes.{Change, configuration_after};
ghost use Rattle.step_rules.specs.Events.{change_of};
ghost use Rattle.step_rules.specs.Homes.{IsHoused};
ghost use Rattle.step_rules.specs.Inputs.{initials_for, scope_of};
ghost use Rattle.step_rules.specs.Lookups.{Runner};
ghost use Rattle.step_rules.specs.RuleParts.{IsRunner, IsRunningAt};
ghost use Rattle.step_rules.specs.Runs.{IsReachable};
ghost use Rattle.type_sound.specs.Fitting.{HasStaticType, ValuesFit};
ghost use Rattle.type_sound.specs.Holding.{CanHold, IsKnownType};
ghost use Rattle.type_sound.specs.Routines.{Routine, routine_of};
ghost use Rattle.type_sound.specs.Values.{ValueHas, World};
ghost use Rattle.type_sound.specs.WellTyped.{IsWellTyped, world_of};

/// Types are kept. The first configuration of a program is well typed. In an accepted program each event of a
/// well-typed configuration, which is well-formed, of the program and housed, leads to a well-typed one. So each
/// configuration that a legal history reaches is well typed.
pub fn types_are_kept()
    ensures first { (program : ProgramTree) → IsWellTyped program (first program) }
    ensures kept { (program : ProgramTree) (config : Configuration) (index : ℕ) (change : Change)
        → IsAcceptedProgram program → IsWellFormed config → IsConfigOf program config → IsHoused program config
        → IsWellTyped program config → change_of program config index ≡ Some change
        → IsWellTyped program (configuration_after config index change) }
    ensures reachable { (program : ProgramTree) (config : Configuration) → IsAcceptedProgram program
        → IsReachable program config → IsWellTyped program config }
{}

/// No schedule of an accepted program meets a type fault. Where a legal history leads, the expressions of the next
/// statement of a running task do not fail with Mistyped, no event ends its task with it, and no task has ended with
/// it.
pub fn no_type_fault()
    ensures evaluation { (program : ProgramTree) (config : Configuration) (at : Runner) (point : Point)
        → IsAcceptedProgram program → IsReachable program config → IsRunner config at
        → next_point program at.frame ≡ Some point
        → results_of (library_of program) (scope_of config at.frame) (expr_trees_of point.statement)
        (initials_for program (effect_of point.statement)) ≢ OneFails Mistyped }
    ensures event { (program : ProgramTree) (config : Configuration) (index : ℕ) (change : Change)
        → IsAcceptedProgram program → IsReachable program config → change_of program config index ≡ Some change
        → change.task.outcome ≢ Some (Fails Mistyped) }
    ensures ended { (program : ProgramTree) (config : Configuration) (index : ℕ) (task : TaskState)
        → IsAcceptedProgram program → IsReachable program config → slice_get config.tasks index ≡ Some task
        → task.outcome ≢ Some (Fails Mistyped) }
{}

/// What the next statement of a running task evaluates has its types. Its values fit what it does with them: a receiver
/// has a type in which the method is found, an argument one for which it is found, and a returned value the result type
/// of its frame. Each of its expressions has a static type in the body, and its value has it.
pub fn expressions_have_their_types()
    ensures fit { (program : ProgramTree) (config : Configuration) (at : Runner) (routine : Routine) (point : Point)
        (values : List ValueTree) → IsAcceptedProgram program → IsReachable program config
        → routine_of program config at.frame ≡ Some routine → IsRunningAt program config at point values
        → ValuesFit program (world_of program config) routine at.frame (effect_of point.statement) values }
    ensures each { (program : ProgramTree) (config : Configuration) (at : Runner) (routine : Routine) (point : Point)
        (values : List ValueTree) (index : ℕ) (expr_tree : ExprTree) (value : ValueTree) → IsAcceptedProgram program
        → IsReachable program config → routine_of program config at.frame ≡ Some routine
        → IsRunningAt program config at point values
        → expr_tree_at (expr_trees_of point.statement) index ≡ Some expr_tree
        → slice_get values index ≡ Some value → (type : PlainType) × HasStaticType program routine expr_tree type
        × ValueHas program (world_of program config) value type }
{}

/// What is inside a value is held by the type of the value. An object inside it is of a class that implements the
/// interface, or is the class, or the type is of data that holds objects. Where a future is inside it, the type has
/// `Fut` in it. So no field of an object holds a future.
pub fn values_hold_what_types_hold()
    ensures objects { (program : ProgramTree) (world : World) (value : ValueTree) (type : TypeTree) (object : ℕ)
        → IsAcceptedProgram program → IsKnownType program type → ValueHas program world value (plain type)
        → IsIn (ToObject object) value → (class : Name) × (slice_get world.classes object ≡ Some class)
        × CanHold program.source.declarations class type }
    ensures futures { (program : ProgramTree) (world : World) (value : ValueTree) (type : TypeTree) (task : ℕ)
        → IsAcceptedProgram program → IsKnownType program type → ValueHas program world value (plain type)
        → IsIn (ToFuture task) value → holds_futures_in type ≡ true }
    ensures fields { (program : ProgramTree) (config : Configuration) (index field task : ℕ) (object : ObjectState)
        (value : ValueTree) → IsAcceptedProgram program → IsReachable program config
        → slice_get config.objects index ≡ Some object → slice_get object.fields field ≡ Some value
        → IsIn (ToFuture task) value → ⊥ }
{}
