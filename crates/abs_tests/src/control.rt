//! The laws on control, used on a body whose statements do not begin with index 0.
ghost use Rattle.std.specs.Prelude.{◌≡◌, [], ◌∷◌, Some, None, slice_get};
ghost use Rattle.abs_program.specs.Control.{Next, points, program_points};
ghost use Rattle.abs_program.specs.Flows.{LandsAt};
ghost use Rattle.abs_program.specs.Left.{IsLeftAt, lefts};
ghost use Rattle.abs_program.specs.ProgramBodies.{class_body};
ghost use Rattle.abs_tests.specs.ControlExamples.{all_slots, last_skip, later_body, program, skip_to, two_skips};

use abs_program::{bodies_are_in_programs, control_leaves_the_rest, facts_follow_control};

/// One statement of the program comes before the second method, so its first statement has index 1, and the next one
/// index 2. The laws say so of the point, of what is left, and of where facts land. Counted from 0 the last is wrong.
fn later_bodies_have_control()
    ensures found { class_body 0 program.declarations 0 1 ≡ Some later_body }
    ensures point { slice_get (program_points program) 1 ≡ slice_get (points 1 two_skips None) 0 }
    ensures goes { slice_get (program_points program) 1 ≡ Some (skip_to 1 (Next (Some 2))) }
    ensures left { IsLeftAt 1 (lefts two_skips []) 2 (last_skip ∷ []) }
    ensures lands { LandsAt 1 (all_slots ∷ all_slots ∷ []) 2 all_slots }
    ensures from_zero { LandsAt 0 (all_slots ∷ all_slots ∷ []) 2 all_slots → ⊥ }
{
    bodies_are_in_programs();
    control_leaves_the_rest();
    facts_follow_control();
}

#[test]
fn laws_on_control_are_used() {
    later_bodies_have_control();
}
