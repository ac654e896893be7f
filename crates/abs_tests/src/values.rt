//! Printed forms and sizes of values, and results of expressions, as the language's description gives them.
ghost use Rattle.std.specs.Prelude.{◌≡◌, [], ◌∷◌, ◌++◌, pos, negsuc, codes, Some, None};
ghost use Rattle.abs_values.specs.Evaluation.{result_of};
ghost use Rattle.abs_values.specs.Printed.{printed_form};
ghost use Rattle.abs_values.specs.Results.{Gives, Fails};
ghost use Rattle.abs_values.specs.ValueTrees.{IntValue, StringValue, BuiltValue, ObjectValue, FutureValue, NullValue, NoPart, value_nodes, value_depth};
ghost use Rattle.abs_values.specs.declared.evaluated.Fault.TheVariants as fault;
ghost use Rattle.abs_tests.specs.ValueExamples.{names, library, scope, one_part, pair, just, cons, nil, unit, sum_of_products, quotient, least_remainder, overflow, zero_divisor, first_fault, decided, undecided, mistyped_condition, bound, matched_pair, no_branch, twice_applied, wrong_arity, string_of_data, chosen, equal_lists, own_object, unknown_slot};

/// How values are printed: whole, and inside data.
fn values_print()
    ensures text { printed_form names (StringValue (codes "a\"b\n")) ≡ codes "a\"b\n" }
    ensures quoted { printed_form names (just (StringValue (codes "a\"b\n"))) ≡ codes "Just(\"a\\\"b\\n\")" }
    ensures escaped { printed_form names (just (StringValue (92 ∷ 9 ∷ 13 ∷ 1 ∷ [])))
        ≡ codes "Just(\"\\\\\\t\\r" ++ 1 ∷ codes "\")" }
    ensures unit { printed_form names unit ≡ codes "Unit" }
    ensures empty { printed_form names nil ≡ codes "Nil" }
    ensures strings { printed_form names (pair (StringValue []) (cons (StringValue (codes "\\")) nil))
        ≡ codes "Pair(\"\", Cons(\"\\\\\", Nil))" }
    ensures list { printed_form names (cons (IntValue (pos 1)) (cons (IntValue (negsuc 1)) nil))
        ≡ codes "Cons(1, Cons(-2, Nil))" }
    ensures object { printed_form names (ObjectValue 0) ≡ codes "object 0" }
    ensures future { printed_form names (FutureValue 12) ≡ codes "future 12" }
    ensures null { printed_form names NullValue ≡ codes "null" }
    ensures pair { printed_form names (pair (ObjectValue 3) (just NullValue))
        ≡ codes "Pair(object 3, Just(null))" }
    ensures nameless { printed_form names (BuiltValue 99 (one_part (IntValue (pos 1)))) ≡ codes "(1)" }
{}

/// How many nodes values have, and how many of them are nested.
fn values_have_sizes()
    ensures number { value_nodes (IntValue (pos 5)) ≡ 1 }
    ensures string { value_nodes (StringValue (codes "abc")) ≡ 1 }
    ensures object { value_nodes (ObjectValue 7) ≡ 1 }
    ensures future { value_nodes (FutureValue 7) ≡ 1 }
    ensures null { value_nodes NullValue ≡ 1 }
    ensures empty { value_nodes nil ≡ 1 }
    ensures number_depth { value_depth (IntValue (pos 5)) ≡ 1 }
    ensures string_depth { value_depth (StringValue (codes "abc")) ≡ 1 }
    ensures empty_depth { value_depth nil ≡ 1 }
    ensures list { value_nodes (cons (IntValue (pos 1)) (cons (IntValue (pos 2)) nil)) ≡ 5 }
    ensures list_depth { value_depth (cons (IntValue (pos 1)) (cons (IntValue (pos 2)) nil)) ≡ 3 }
    ensures siblings { value_depth (cons nil (just nil)) ≡ 3 }
{}

/// What expressions give: a value, or the fault that ends their evaluation.
fn expressions_have_results()
    ensures sum { result_of library scope sum_of_products ≡ Gives (IntValue (pos 3)) }
    ensures quotient { result_of library scope quotient ≡ Gives (IntValue (negsuc 2)) }
    ensures least_remainder { result_of library scope least_remainder ≡ Gives (IntValue (pos 0)) }
    ensures overflow { result_of library scope overflow ≡ Fails fault.Overflow }
    ensures zero { result_of library scope zero_divisor ≡ Fails fault.Zero }
    ensures first { result_of library scope first_fault ≡ Fails fault.Match }
    ensures decided { result_of library scope decided ≡ Gives (BuiltValue 1 NoPart) }
    ensures undecided { result_of library scope undecided ≡ Fails fault.Zero }
    ensures mistyped { result_of library scope mistyped_condition ≡ Fails fault.Mistyped }
    ensures bound { result_of library scope bound ≡ Gives (IntValue (pos 12)) }
    ensures matched { result_of library scope matched_pair ≡ Gives (IntValue (pos 12)) }
    ensures no_branch { result_of library scope no_branch ≡ Fails fault.Match }
    ensures applied { result_of library scope twice_applied ≡ Gives (IntValue (pos 20)) }
    ensures arity { result_of library scope wrong_arity ≡ Fails fault.Mistyped }
    ensures string { result_of library scope string_of_data ≡ Gives (StringValue (codes "Just(\"x\")")) }
    ensures chosen { result_of library scope chosen ≡ Gives (IntValue (pos 5)) }
    ensures equal { result_of library scope equal_lists ≡ Gives (BuiltValue 0 NoPart) }
    ensures own_object { result_of library scope own_object ≡ Gives (BuiltValue 4 (one_part (ObjectValue 9))) }
    ensures unknown { result_of library scope unknown_slot ≡ Fails fault.Mistyped }
{}

/// All of this holds.
#[test]
fn values_are_as_described() {
    values_print();
    values_have_sizes();
    expressions_have_results();
}
