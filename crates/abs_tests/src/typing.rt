//! Expressions with their types and offences, as the table of the language's description gives them.
ghost use Rattle.std.specs.Prelude.{◌≡◌, true, false, [], ◌∷◌, codes, Some, None};
ghost use Rattle.abs_tree.specs.Places.{start};
ghost use Rattle.abs_tree.specs.Syntax.{IntType, NoStatement, StringType};
ghost use Rattle.abs_tree.specs.declared.refusal.Code.TheVariants.{T1, T2, T3, T4, T5};
ghost use Rattle.abs_tests.specs.Examples.{at, choice, comparison, early_return, function_frame, inner_return, job, job_worker, just, local_value, match_just, maybe, maybe_of, negation, nothing, own_text, program, sum, task, without_values, work, worker, worker_frame, wrong_calls, wrong_pattern, wrong_sum};
ghost use Rattle.abs_types.specs.ExpressionOffences.{expr_offences};
ghost use Rattle.abs_types.specs.Methods.{call_type};
ghost use Rattle.abs_types.specs.OperatorTypes.{bool_type};
ghost use Rattle.abs_types.specs.PlainTypes.{PlainBottom, PlainClass, PlainFut, PlainInt, PlainString};
ghost use Rattle.abs_types.specs.StatementOffences.{statements_offences};
ghost use Rattle.abs_types.specs.TypeOffences.{class_offences, interface_offences, method_offences, type_offences};
ghost use Rattle.abs_types.specs.Typing.{type_in};

fn expressions_have_types()
    ensures sum { type_in [] function_frame [] sum ≡ Some PlainInt }
    ensures comparison { type_in [] function_frame [] comparison ≡ Some bool_type }
    ensures negation { type_in [] function_frame [] negation ≡ Some bool_type }
    ensures local_value { type_in [] function_frame [] local_value ≡ Some PlainInt }
    ensures choice { type_in [] worker_frame [] choice ≡ Some (PlainFut PlainInt) }
{}

fn applications_have_types()
    ensures just { type_in (maybe ∷ []) function_frame [] just ≡ Some (maybe_of PlainInt) }
    ensures nothing { type_in (maybe ∷ []) function_frame [] nothing ≡ Some (maybe_of PlainBottom) }
    ensures match_just { type_in (maybe ∷ []) function_frame [] match_just ≡ Some PlainInt }
    ensures own_text { type_in (worker ∷ []) worker_frame [] own_text ≡ Some PlainString }
    ensures call { call_type (worker ∷ []) (PlainClass (codes "Worker")) (codes "work") (PlainInt ∷ [])
        ≡ Some PlainInt }
{}

fn wrong_types_offend()
    ensures untyped { type_in [] function_frame [] wrong_sum ≡ None }
    ensures sum { expr_offences [] function_frame [] wrong_sum ≡ record { place = start; code = T1 } ∷ [] }
    ensures pattern { expr_offences (maybe ∷ []) function_frame [] wrong_pattern
        ≡ record { place = start; code = T1 } ∷ [] }
{}

fn statements_offend()
    ensures inner_return { statements_offences (worker ∷ []) worker_frame true inner_return ≡ [] }
    ensures early_return { statements_offences (worker ∷ []) worker_frame true early_return
        ≡ record { place = at 0; code = T5 } ∷ [] }
    ensures main_return { statements_offences (worker ∷ []) worker_frame false inner_return
        ≡ record { place = at 2; code = T5 } ∷ [] }
    ensures without_values { statements_offences (worker ∷ []) worker_frame true without_values
        ≡ record { place = at 4; code = T3 } ∷ [] }
    ensures wrong_calls { statements_offences (worker ∷ []) worker_frame true wrong_calls
        ≡ record { place = at 0; code = T2 } ∷ record { place = at 14; code = T1 } ∷ [] }
{}

fn declarations_offend()
    ensures met { type_offences (program (job (IntType start) ∷ job_worker ∷ [])) ≡ [] }
    ensures not_met { class_offences (job (StringType start) ∷ job_worker ∷ [])
        ≡ record { place = start; code = T4 } ∷ [] }
    ensures agree { interface_offences (job (IntType start) ∷ task (IntType start) ∷ []) ≡ [] }
    ensures do_not_agree { interface_offences (job (IntType start) ∷ task (StringType start) ∷ [])
        ≡ record { place = start; code = T4 } ∷ [] }
    ensures no_return { method_offences (worker ∷ []) (codes "Worker") [] (work (IntType start)) (at 5) NoStatement
        ≡ record { place = at 5; code = T5 } ∷ [] }
{}

#[test]
fn examples_are_as_described() {
    expressions_have_types();
    applications_have_types();
    wrong_types_offend();
    statements_offend();
    declarations_offend();
}
