//! Laws of what tasks know, and of programs in which tasks wait by `await` alone.
ghost use Rattle.abs_profile.specs.Accepted.{IsAcceptedProgram};
ghost use Rattle.abs_sound.specs.Knowledge.{HasKnowledgeOrder, IsClosedChain, order_after};
ghost use Rattle.abs_sound.specs.Waits.{NeverGets};
ghost use Rattle.abs_tree.specs.Syntax.{ProgramTree};
ghost use Rattle.config_state.specs.Configurations.{Configuration};
ghost use Rattle.config_state.specs.First.{first};
ghost use Rattle.config_state.specs.OfProgram.{IsConfigOf};
ghost use Rattle.std.specs.Prelude.{◌≡◌, ◌∷◌, [], ℕ, List, Some, length};
ghost use Rattle.step_rules.specs.Changes.{Change, configuration_after};
ghost use Rattle.step_rules.specs.Events.{change_of};
ghost use Rattle.step_rules.specs.Runs.{HasStep, IsOpen, IsReachable};
ghost use Rattle.type_sound.specs.WellTyped.{IsWellTyped};

/// Knowledge is ordered. In the first configuration the main block is alone, and knows nothing. In an accepted program
/// an event of a well-typed configuration of the program that has an order leads to one that has an order: a new task
/// comes directly after its caller, and one that nobody called at the end. So each configuration that a legal history
/// reaches has one.
pub fn knowledge_is_ordered()
    ensures first { (program : ProgramTree) → (known : HasKnowledgeOrder (first program)) × (known.order ≡ 0 ∷ []) }
    ensures kept { (program : ProgramTree) (config : Configuration) (index : ℕ) (change : Change)
        (known : HasKnowledgeOrder config) → IsAcceptedProgram program → IsConfigOf program config
        → IsWellTyped program config → change_of program config index ≡ Some change
        → (next : HasKnowledgeOrder (configuration_after config index change))
        × (next.order ≡ order_after known.order index (length config.tasks) change.new) }
    ensures reachable { (program : ProgramTree) (config : Configuration) → IsAcceptedProgram program
        → IsReachable program config → HasKnowledgeOrder config }
{}

/// Knowledge never closes. Where a configuration has an order of knowledge, there is no list of tasks each of which
/// knows the future of the next one, and the last one that of the first.
pub fn knowledge_never_closes()
    ensures { (config : Configuration) (circle : List ℕ) → HasKnowledgeOrder config
        → IsClosedChain config circle → ⊥ }
{}

/// Tasks that wait by `await` alone are never stuck. In an accepted program without `get` each configuration that a
/// legal history reaches has an event while a task in it is unfinished.
pub fn never_stuck_without_get()
    ensures { (program : ProgramTree) (config : Configuration) → IsAcceptedProgram program → NeverGets program
        → IsReachable program config → IsOpen config → HasStep program config }
{}
