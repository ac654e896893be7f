//! The order of one worker.
ghost use Rattle.std.specs.Prelude.{◌≡◌, ◌++◌, ◌⊎◌, ℕ, List};
ghost use Rattle.abs_tree.specs.Syntax.{ProgramTree};
ghost use Rattle.run_history.specs.Turns.{IsInTurn};

/// Of two histories that are in turn one begins the other.
pub fn turns_are_one_order()
    ensures { (program : ProgramTree) (one other : List ℕ) → IsInTurn program one → IsInTurn program other
        → (rest : List ℕ) × ((one ≡ other ++ rest) ⊎ (other ≡ one ++ rest)) }
{}
