//! Laws of the definitions, which hold whatever the code does.
ghost use Rattle.std.specs.Prelude.{◌≡◌, ℕ, ◌<◌, List, Some, length, get_or};
ghost use Rattle.abs_tree.specs.Syntax.{Name, VariableTree, SourceTree};
ghost use Rattle.abs_tree.specs.declared.syntax.slot.Slot.{Slot};
ghost use Rattle.abs_names.specs.Newest.{StandsFor};
ghost use Rattle.abs_program.specs.OwnSlots.{numbered, AllHaveOwnSlots};
ghost use Rattle.abs_names.specs.Resolution.{resolved};
ghost use Rattle.abs_names.specs.Scopes.{Scope, use_of};

/// Each parameter and each local of a body, and each call by `.` on another object, has a slot of its own, in the order
/// of the source with parameters first; a call comes before the local of its statement. No two slots have the same
/// number.
pub fn own_slots()
    ensures all { (source : SourceTree) → AllHaveOwnSlots (resolved source) }
    ensures none_shared { (slots : List Slot) (first second : ℕ) (other : Slot × VariableTree)
        → first < length slots → second < length slots
        → (get_or (numbered 0 slots) first other).1 ≡ (get_or (numbered 0 slots) second other).1 → first ≡ second }
{}

/// The use of a name stands for the newest declaration of that name that is visible. Where no variable of that name is
/// visible, it stands for the field.
pub fn newest_declaration()
    ensures { (scope : Scope) (name : Name) (meaning : VariableTree) → use_of scope name ≡ Some meaning
        → StandsFor scope name meaning }
{}
