//! Programs that are not accepted: what of it they lack.
ghost use Rattle.std.specs.Prelude.{◌≡◌, [], ◌∷◌, codes};
ghost use Rattle.abs_tree.specs.Names.{number_of_name};
ghost use Rattle.abs_tree.specs.Places.{start};
ghost use Rattle.abs_tree.specs.declared.refusal.Code.TheVariants.{P1};
ghost use Rattle.abs_profile.specs.Accepted.{IsAcceptedProgram};
ghost use Rattle.abs_profile.specs.Profile.{profile_offences};
ghost use Rattle.abs_program.specs.KnownNames.{KnowsNames};
ghost use Rattle.abs_program.specs.Whole.{IsWhole};
ghost use Rattle.abs_tests.specs.AcceptedExamples.{shared_slot, declared_field, own_bool, second_bool, unasked, without_question, without_names};
ghost use Rattle.abs_types.specs.TypeOffences.{type_offences};

fn slots_are_shared()
    ensures typed { type_offences shared_slot ≡ [] }
    ensures not_whole { IsWhole shared_slot → ⊥ }
{}

fn a_field_is_declared()
    ensures typed { type_offences declared_field ≡ [] }
    ensures not_whole { IsWhole declared_field → ⊥ }
{}

fn the_prelude_is_missing()
    ensures typed { type_offences own_bool ≡ [] }
    ensures not_whole { IsWhole own_bool → ⊥ }
{}

fn bool_is_declared_again()
    ensures typed { type_offences second_bool ≡ [] }
    ensures not_whole { IsWhole second_bool → ⊥ }
{}

fn the_profile_refuses()
    ensures whole { IsWhole unasked }
    ensures known { KnowsNames without_question }
    ensures typed { type_offences unasked ≡ [] }
    ensures offends { profile_offences unasked ≡ record { place = start; code = P1 } ∷ [] }
    ensures not_accepted { IsAcceptedProgram without_question → ⊥ }
{}

fn names_are_missing()
    ensures same_number { number_of_name without_names.names (codes "Red")
        ≡ number_of_name without_names.names (codes "Green") }
    ensures not_known { KnowsNames without_names → ⊥ }
{}

#[test]
fn programs_are_not_accepted() {
    slots_are_shared();
    a_field_is_declared();
    the_prelude_is_missing();
    bool_is_declared_again();
    the_profile_refuses();
    names_are_missing();
}
