//! Laws of the definitions, which hold whatever the code does.
ghost use Rattle.std.specs.Prelude.{◌≡◌, ◌↔◌, ◌+◌, ℕ, List, length, take, slice_get, true, Some};
ghost use Rattle.abs_values.specs.Evaluation.{evaluate, initial_outcomes, outcomes_of, results_of, Outcome};
ghost use Rattle.abs_values.specs.References.{Reference, IsIn, ComesFrom, ComesFromEarlier, IsGiven, StatementGives, expr_tree_at};
ghost use Rattle.abs_values.specs.Results.{Gives, AllGive};
ghost use Rattle.abs_values.specs.Scopes.{Library, Scope, own_scope};
ghost use Rattle.abs_tree.specs.Limits.{level_limit};
ghost use Rattle.abs_tree.specs.Syntax.{ExprTree, ExprTrees};
ghost use Rattle.abs_tree.specs.SyntaxCounts.{count_exprs};
ghost use Rattle.abs_values.specs.ValueTrees.{ValueTree, same_value};

/// The test whether two values are the same is true exactly where they are.
pub fn values_are_told_apart()
    ensures { (one other : ValueTree) → (same_value one other ≡ true) ↔ (one ≡ other) }
{}

/// Each object and each future inside the value that an expression gives is inside a value that the expression reads:
/// that of a slot, a field or a bound variable, or `this`. An initial value gives only what is inside earlier values
/// that it reads.
pub fn references_are_read()
    ensures expression { (library : Library) (scope : Scope) (left : ℕ) (expr_tree : ExprTree) (made : ℕ)
        (value : ValueTree) (reference : Reference)
        → (evaluate library scope left expr_tree made).result ≡ Gives value
        → IsIn reference value → ComesFrom scope expr_tree reference }
    ensures initial { (library : Library) (expr_trees : ExprTrees) (arguments values : List ValueTree) (made : ℕ)
        → (initial_outcomes library expr_trees arguments made).results ≡ AllGive values
        → (index : ℕ) (expr_tree : ExprTree) → expr_tree_at expr_trees index ≡ Some expr_tree
        → (value : ValueTree) → slice_get values (length arguments + index) ≡ Some value
        → (reference : Reference) → IsIn reference value
        → ComesFromEarlier values (length arguments + index) expr_tree reference }
{}

/// A list of expressions gives as many values as it has expressions, and each of them is what its expression gives. The
/// initial values of an object follow its arguments, which stay as they are. Each of them is what its expression gives
/// where the slots are the values before it. All values of a statement are those of its own expressions and then the
/// initial values.
pub fn lists_give_their_values()
    ensures count { (give : ExprTree → ℕ → Outcome) (expr_trees : ExprTrees) (made : ℕ) (values : List ValueTree)
        → (outcomes_of give expr_trees made).results ≡ AllGive values → length values ≡ count_exprs expr_trees }
    ensures each { (give : ExprTree → ℕ → Outcome) (expr_trees : ExprTrees) (made : ℕ) (values : List ValueTree)
        → (outcomes_of give expr_trees made).results ≡ AllGive values → (index : ℕ) (value : ValueTree)
        → slice_get values index ≡ Some value → IsGiven give expr_trees index value }
    ensures initial_count { (library : Library) (expr_trees : ExprTrees) (arguments values : List ValueTree) (made : ℕ)
        → (initial_outcomes library expr_trees arguments made).results ≡ AllGive values
        → length values ≡ length arguments + count_exprs expr_trees }
    ensures arguments { (library : Library) (expr_trees : ExprTrees) (arguments values : List ValueTree) (made : ℕ)
        → (initial_outcomes library expr_trees arguments made).results ≡ AllGive values
        → (index : ℕ) (value : ValueTree) → slice_get arguments index ≡ Some value
        → slice_get values index ≡ Some value }
    ensures initial_each { (library : Library) (expr_trees : ExprTrees) (arguments values : List ValueTree) (made : ℕ)
        → (initial_outcomes library expr_trees arguments made).results ≡ AllGive values
        → (index : ℕ) (expr_tree : ExprTree) → expr_tree_at expr_trees index ≡ Some expr_tree
        → (value : ValueTree) → slice_get values (length arguments + index) ≡ Some value
        → (applications : ℕ) × ((evaluate library (own_scope (take (length arguments + index) values)) level_limit
        expr_tree applications).result ≡ Gives value) }
    ensures statement { (library : Library) (scope : Scope) (expr_trees initials : ExprTrees) (values : List ValueTree)
        → (results_of library scope expr_trees initials ≡ AllGive values)
        ↔ StatementGives library scope expr_trees initials values }
{}
