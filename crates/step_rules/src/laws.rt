//! Laws of the table of events, which hold whatever the code does.
ghost use Rattle.std.specs.Prelude.{◌≡◌, ◌≢◌, ◌↔◌, ◌∷◌, ℕ, List, slice_get, Option, Some, None, IsSome};
ghost use Rattle.abs_tree.specs.Syntax.{ExprTree, Name, ProgramTree};
ghost use Rattle.abs_program.specs.Control.{Point};
ghost use Rattle.abs_program.specs.Instructions.{expr_trees_of};
ghost use Rattle.abs_program.specs.Whole.{IsWhole};
ghost use Rattle.abs_values.specs.References.{Reference, IsIn, ComesFrom, expr_tree_at};
ghost use Rattle.abs_values.specs.Results.{Results};
ghost use Rattle.abs_values.specs.ValueTrees.{ValueTree};
ghost use Rattle.abs_values.specs.declared.evaluated.Fault.{Fault};
ghost use Rattle.config_state.specs.Bodies.{main_at};
ghost use Rattle.config_state.specs.Configurations.{ObjectState, FrameState, TaskState, Configuration, Each, object_at};
ghost use Rattle.config_state.specs.declared.cog.Cog.{Cog};
ghost use Rattle.config_state.specs.declared.task.State.TheVariants.{Ready, Running, Awaiting};
ghost use Rattle.config_state.specs.OfProgram.{IsConfigOf, IsFrameOf};
ghost use Rattle.config_state.specs.WellFormed.{IsWellFormed};
ghost use Rattle.step_rules.specs.Blocked.{IsAtOpenGet, IsFree, IsFreeFor, AreResolved, NeverWaits, WaitsFor};
ghost use Rattle.step_rules.specs.Changes.{Change, Written, configuration_after};
ghost use Rattle.step_rules.specs.Events.{Step, change_of, event_of};
ghost use Rattle.step_rules.specs.Guards.{HasResolved, OneIsUnresolved, IsFirstFault};
ghost use Rattle.step_rules.specs.Homes.{IsHoused};
ghost use Rattle.step_rules.specs.Inputs.{input_of, scope_of};
ghost use Rattle.step_rules.specs.LocalRules.{Used, local_rule, used_of};
ghost use Rattle.step_rules.specs.Lookups.{Runner, class_of};
ghost use Rattle.step_rules.specs.OneClass.{ClassAt, class_at, used_in_class, used_in_main};
ghost use Rattle.step_rules.specs.RuleParts.{IsRunningAt};
ghost use Rattle.step_rules.specs.Rules.{Rule};
ghost use Rattle.step_rules.specs.Runs.{IsReachable, IsOpen, HasStep};
ghost use Rattle.step_rules.specs.Stays.{TaskAfter, ObjectAfter, CogAfter, Stays};
ghost use Rattle.step_rules.specs.WaitRules.{Faulty, Unresolved, Resolved, guard_of};

/// Every event is one of the rules of the table.
pub fn events_are_rules()
    ensures { (program : ProgramTree) (config : Configuration) (index : ℕ) (change : Change)
        → change_of program config index ≡ Some change → Rule program config index change }
{}

/// An event changes its task, the holder of its cog and the fields of the object of one of its frames, and nothing else
/// of what was there. That object is in its cog. It adds at most one cog, one object and one task, each at the end of
/// its list. A result never changes.
pub fn events_leave_the_rest()
    ensures stays { (program : ProgramTree) (config : Configuration) (index : ℕ) (change : Change)
        → change_of program config index ≡ Some change → Stays config index change }
    ensures written { (program : ProgramTree) (config : Configuration) (index : ℕ) (change : Change) (written : Written)
        → IsHoused program config → change_of program config index ≡ Some change → change.written ≡ Some written
        → (object : ObjectState) × (slice_get config.objects written.object ≡ Some object)
        × (object.cog ≡ change.task.cog) }
    ensures tasks { (config : Configuration) (index : ℕ) (change : Change) (other : ℕ) (task : TaskState)
        → slice_get (configuration_after config index change).tasks other ≡ Some task
        → TaskAfter config index change other task }
    ensures objects { (config : Configuration) (index : ℕ) (change : Change) (other : ℕ) (object : ObjectState)
        → slice_get (configuration_after config index change).objects other ≡ Some object
        → ObjectAfter config change other object }
    ensures cogs { (config : Configuration) (index : ℕ) (change : Change) (other : ℕ) (cog : Cog)
        → slice_get (configuration_after config index change).cogs other ≡ Some cog
        → CogAfter config change other cog }
{}

/// Who has an event. A task with a result has none. One that runs has none exactly where its next statement gets a
/// future that is unresolved. A ready one has one exactly where nobody holds its cog, and an awaiting one exactly where
/// besides all futures that it names are resolved.
pub fn events_have_causes()
    ensures ended { (program : ProgramTree) (config : Configuration) (index : ℕ) (task : TaskState)
        → slice_get config.tasks index ≡ Some task → IsSome task.outcome → event_of program config index ≡ None }
    ensures running { (program : ProgramTree) (config : Configuration) (index : ℕ) (task : TaskState)
        → IsWellFormed config → IsConfigOf program config → slice_get config.tasks index ≡ Some task
        → task.state ≡ Running → (event_of program config index ≡ None) ↔ IsAtOpenGet program config task }
    ensures ready { (program : ProgramTree) (config : Configuration) (index : ℕ) (task : TaskState)
        → IsWellFormed config → slice_get config.tasks index ≡ Some task → task.outcome ≡ None
        → task.state ≡ Ready → IsSome (event_of program config index) ↔ IsFree config task.cog }
    ensures awaiting { (program : ProgramTree) (config : Configuration) (index : ℕ) (task : TaskState)
        → IsWellFormed config → IsConfigOf program config → slice_get config.tasks index ≡ Some task
        → task.state ≡ Awaiting → IsSome (event_of program config index)
        ↔ (IsFree config task.cog × AreResolved program config task) }
{}

/// Who has an event, by waits: a task without a result has one exactly where it waits for no future and nobody else
/// holds its cog.
pub fn events_wait_for_futures()
    ensures { (program : ProgramTree) (config : Configuration) (index : ℕ) (task : TaskState)
        → IsWellFormed config → IsConfigOf program config → slice_get config.tasks index ≡ Some task
        → task.outcome ≡ None → IsSome (event_of program config index)
        ↔ (((future : ℕ) → WaitsFor program config task future → ⊥) × IsFreeFor config task.cog index) }
{}

/// Each event of a well-formed configuration leads to one, and so does each event of a configuration of the program. So
/// each configuration that a legal history reaches is both. It is also housed: objects were made by a `new` of their
/// class at their place, and cogs with a parent by a `new cog` at theirs. Each task runs on objects of its cog, and its
/// outermost frame has its own object and method. Task 0 is that of the main block: it is in cog 0, and has no object,
/// no method and no call. The class of the object of each other task, ended or not, has the task's method.
pub fn events_keep_configurations()
    ensures formed { (program : ProgramTree) (config : Configuration) (index : ℕ) (step : Step)
        → IsWellFormed config → event_of program config index ≡ Some step → IsWellFormed step.config }
    ensures of_program { (program : ProgramTree) (config : Configuration) (index : ℕ) (step : Step)
        → IsWhole program.source → IsConfigOf program config → event_of program config index ≡ Some step
        → IsConfigOf program step.config }
    ensures housed { (program : ProgramTree) (config : Configuration) (index : ℕ) (step : Step)
        → IsHoused program config → event_of program config index ≡ Some step → IsHoused program step.config }
    ensures reachable { (program : ProgramTree) (config : Configuration) → IsWhole program.source
        → IsReachable program config
        → IsWellFormed config × IsConfigOf program config × IsHoused program config }
{}

/// An event of a task of another cog leaves the input of a task as it was, and an event that this task had it still
/// has.
pub fn events_stay_apart()
    ensures input { (program : ProgramTree) (config : Configuration) (index other : ℕ) (step : Step)
        (task moved : TaskState) → IsHoused program config → slice_get config.tasks index ≡ Some moved
        → slice_get config.tasks other ≡ Some task → task.cog ≢ moved.cog
        → event_of program config index ≡ Some step
        → input_of program step.config other ≡ input_of program config other }
    ensures event { (program : ProgramTree) (config : Configuration) (index other : ℕ) (step : Step)
        (task moved : TaskState) → IsWellFormed config → IsConfigOf program config → IsHoused program config
        → IsWhole program.source
        → slice_get config.tasks index ≡ Some moved → slice_get config.tasks other ≡ Some task
        → task.cog ≢ moved.cog → event_of program config index ≡ Some step
        → IsSome (event_of program config other) → IsSome (event_of program step.config other) }
{}

/// In a program without `await` and `get` every configuration that a legal history reaches has an event while a task is
/// unfinished.
pub fn never_stuck_without_waits()
    ensures { (program : ProgramTree) (config : Configuration) → IsWhole program.source → NeverWaits program
        → IsReachable program config → IsOpen config → HasStep program config }
{}

/// What a guard reports. It is resolved exactly where each slot that it names holds a future whose task has a result,
/// and unresolved exactly where each holds a future and the task of one has no result. It is faulty exactly where some
/// slot holds no future, with the fault of the first such slot: Null where it holds null, and else Mistyped. A future
/// without a task is none.
pub fn guards_are_reported()
    ensures resolved { (config : Configuration) (slots : List ValueTree) (names : List (Option ℕ))
        → (guard_of config slots names ≡ Resolved) ↔ Each names (λ part name. HasResolved config slots name) }
    ensures unresolved { (config : Configuration) (slots : List ValueTree) (names : List (Option ℕ))
        → (guard_of config slots names ≡ Unresolved) ↔ OneIsUnresolved config slots names }
    ensures faulty { (config : Configuration) (slots : List ValueTree) (names : List (Option ℕ)) (cause : Fault)
        → (guard_of config slots names ≡ Faulty cause) ↔ IsFirstFault config slots names cause }
{}

/// Each object and each future inside a value of the next statement comes from what the expression of that value reads,
/// in the scope of the frame. These are the values of the statement's own expressions, which initial values follow.
pub fn values_come_from_reads()
    ensures { (program : ProgramTree) (config : Configuration) (at : Runner) (point : Point) (values : List ValueTree)
        → IsRunningAt program config at point values
        → (index : ℕ) (expr_tree : ExprTree) → expr_tree_at (expr_trees_of point.statement) index ≡ Some expr_tree
        → (value : ValueTree) → slice_get values index ≡ Some value
        → (reference : Reference) → IsIn reference value → ComesFrom (scope_of config at.frame) expr_tree reference }
{}

/// A local rule depends on what it uses of the program alone: on the names, the next statement of the innermost frame,
/// and the methods of the class of its object. In a frame of the program this is the class of its object, with the
/// index of the first statement of the class, or the main block with the index of its first statement. So where the
/// names are equal, and the class or main is the same with the same first index, the rule is the same.
pub fn local_rules_use_one_class()
    ensures used { (one other : Used) (frame : FrameState) (others : List FrameState) (fields : List ValueTree)
        (results : Results) → one.names ≡ other.names
        → ((index : ℕ) → frame.next ≡ Some index → one.points index ≡ other.points index)
        → ((method : Name) (arguments : ℕ) → one.bodies method arguments ≡ other.bodies method arguments)
        → local_rule one (frame ∷ others) fields results ≡ local_rule other (frame ∷ others) fields results }
    ensures class { (program : ProgramTree) (config : Configuration) (frame : FrameState) (others : List FrameState)
        (fields : List ValueTree) (results : Results) (name : Name) (class : ClassAt)
        → IsFrameOf program config frame → class_of (object_at config frame.object) ≡ Some name
        → class_at program name ≡ Some class
        → local_rule (used_of program (Some name)) (frame ∷ others) fields results
        ≡ local_rule (used_in_class program.names class) (frame ∷ others) fields results }
    ensures main { (program : ProgramTree) (config : Configuration) (frame : FrameState) (others : List FrameState)
        (fields : List ValueTree) (results : Results) → IsFrameOf program config frame → frame.object ≡ None
        → local_rule (used_of program None) (frame ∷ others) fields results
        ≡ local_rule (used_in_main program.names (main_at program)) (frame ∷ others) fields results }
    ensures same_class { (one other : ProgramTree) (config : Configuration) (frame : FrameState)
        (others : List FrameState) (fields : List ValueTree) (results : Results) (name : Name) (class : ClassAt)
        → one.names ≡ other.names → class_at one name ≡ Some class → class_at other name ≡ Some class
        → IsFrameOf one config frame → class_of (object_at config frame.object) ≡ Some name
        → local_rule (used_of one (Some name)) (frame ∷ others) fields results
        ≡ local_rule (used_of other (Some name)) (frame ∷ others) fields results }
    ensures same_main { (one other : ProgramTree) (config : Configuration) (frame : FrameState)
        (others : List FrameState) (fields : List ValueTree) (results : Results)
        → one.names ≡ other.names → main_at one ≡ main_at other
        → IsFrameOf one config frame → frame.object ≡ None
        → local_rule (used_of one None) (frame ∷ others) fields results
        ≡ local_rule (used_of other None) (frame ∷ others) fields results }
{}
