//! Laws of the definitions, which hold whatever the code does.
ghost use Rattle.std.specs.Prelude.{◌≡◌, ℕ, List};
ghost use Rattle.std.specs.Option.{option_map};
ghost use Rattle.abs_program.specs.Bodies.{method_entry};
ghost use Rattle.abs_tree.specs.Syntax.{DeclTree};
ghost use Rattle.abs_program.specs.ProgramBodies.{class_body, entry_of_body};

/// The table of a program's bodies has the bodies of the definitions.
pub fn bodies_are_in_the_table()
    ensures { (declarations : List DeclTree) (class member : ℕ) → method_entry declarations class member
        ≡ option_map entry_of_body (class_body 0 declarations class member) }
{}
