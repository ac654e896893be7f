//! Laws of waiting: first waits are waits, a stalled configuration has a circle, and one without a circle goes on.
ghost use Rattle.abs_program.specs.Whole.{IsWhole};
ghost use Rattle.abs_tree.specs.Syntax.{ProgramTree};
ghost use Rattle.config_state.specs.Configurations.{Configuration, IsUnfinished};
ghost use Rattle.std.specs.Prelude.{◌≡◌, ℕ, List};
ghost use Rattle.step_rules.specs.Runs.{HasStep, IsOpen, IsReachable};
ghost use Rattle.wait_graph.specs.FirstWaits.{IsCircleOfFirstWaits, WaitsFirst};
ghost use Rattle.wait_graph.specs.Waits.{CogIsHeld, IsCircularWait, NamesUnfinished, WaitsFor};

/// A first wait is a wait, in each configuration. So a circle of first waits is a circular wait, and a configuration
/// has one of them at most.
pub fn first_waits_are_waits()
    ensures waits { (program : ProgramTree) (config : Configuration) (index other : ℕ)
        → WaitsFirst program config index other → WaitsFor program config index other }
    ensures circular { (program : ProgramTree) (config : Configuration) (circle : List ℕ)
        → IsCircleOfFirstWaits program config circle → IsCircularWait program config circle }
    ensures one { (program : ProgramTree) (config : Configuration) (circle other : List ℕ)
        → IsCircleOfFirstWaits program config circle → IsCircleOfFirstWaits program config other
        → circle ≡ other }
{}

/// Where no task has an event, each unfinished task has a first wait, for a task that is unfinished too. That may be
/// the task itself, where a field can hold a future.
pub fn stalled_tasks_wait()
    ensures { (program : ProgramTree) (config : Configuration) (index : ℕ) → IsWhole program.source
        → IsReachable program config → (HasStep program config → ⊥) → IsUnfinished config index
        → (other : ℕ) × WaitsFirst program config index other × WaitsFor program config index other
        × IsUnfinished config other }
{}

/// Where no task has an event and one is unfinished, tasks wait for one another in a circle, and first waits lead to
/// such a circle from the least unfinished task.
pub fn stalled_has_a_circle()
    ensures circular { (program : ProgramTree) (config : Configuration) → IsWhole program.source
        → IsReachable program config → (HasStep program config → ⊥) → IsOpen config
        → (circle : List ℕ) × IsCircularWait program config circle }
    ensures first { (program : ProgramTree) (config : Configuration) → IsWhole program.source
        → IsReachable program config → (HasStep program config → ⊥) → IsOpen config
        → (circle : List ℕ) × IsCircleOfFirstWaits program config circle }
{}

/// Where a task is unfinished and no tasks wait in a circle, some task has an event.
pub fn progress()
    ensures { (program : ProgramTree) (config : Configuration) → IsWhole program.source
        → IsReachable program config → IsOpen config
        → ((circle : List ℕ) → IsCircularWait program config circle → ⊥) → HasStep program config }
{}

/// Waits are of two sorts. A task whose cog is held waits for one that waits by a name. One that waits by a name is
/// unfinished.
pub fn waits_are_of_two_sorts()
    ensures held { (program : ProgramTree) (config : Configuration) (index other : ℕ) → IsWhole program.source
        → IsReachable program config → CogIsHeld program config index other
        → (next : ℕ) × NamesUnfinished program config other next }
    ensures named { (program : ProgramTree) (config : Configuration) (index other : ℕ) → IsWhole program.source
        → IsReachable program config → NamesUnfinished program config index other → IsUnfinished config index }
{}
