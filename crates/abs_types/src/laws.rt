//! Laws of the definitions, which hold whatever the code does.
ghost use Rattle.std.specs.Prelude.{◌≡◌, ◌↔◌, ◌⊎◌, true, List, ◌∷◌, map, length, All, Option, Some, option_map, Bool, []};
ghost use Rattle.abs_tree.specs.Syntax.{DeclTree, Name, SourceTree, ExprTree, Statements};
ghost use Rattle.abs_program.specs.Whole.{IsWhole};
ghost use Rattle.abs_types.specs.Applications.{applied_type, met_by, replaced, AllFit};
ghost use Rattle.abs_types.specs.ExpressionOffences.{expr_offences};
ghost use Rattle.abs_types.specs.HasType.{HasType};
ghost use Rattle.abs_types.specs.IsTyped.{AreTyped};
ghost use Rattle.abs_types.specs.Joins.{both_applied, join_all, join_of, IsLeastAbove, IsLeastAboveAll};
ghost use Rattle.abs_types.specs.MoreSlots.{SeesMore};
ghost use Rattle.abs_types.specs.PatternTypes.{constructor_parts};
ghost use Rattle.abs_types.specs.PlainTypes.{applied_to, PlainApplied, PlainBottom, PlainData, PlainFut, PlainInterface, PlainNull, PlainType};
ghost use Rattle.abs_types.specs.Schemes.{scheme_of_constructor, scheme_of_function, IsClosed, ParametersBelow, Scheme};
ghost use Rattle.abs_types.specs.StatementOffences.{statements_offences};
ghost use Rattle.abs_types.specs.Subtyping.{fits, Fits, NoneExtendsItself};
ghost use Rattle.abs_types.specs.TypeOffences.{type_offences};
ghost use Rattle.abs_types.specs.TypedProgram.{IsTypedProgram};
ghost use Rattle.abs_types.specs.Typing.{Frame, type_in};

/// The test and the relation of fitting agree. A type fits itself; what fits a type that fits a third one fits that one
/// too; and in a program whose interfaces do not extend themselves two types that fit each other are the same.
pub fn subtyping_is_an_order()
    ensures reported { (declarations : List DeclTree) (one other : PlainType)
        → (fits declarations one other ≡ true) ↔ Fits declarations one other }
    ensures reflexive { (declarations : List DeclTree) (one : PlainType) → fits declarations one one ≡ true }
    ensures transitive { (declarations : List DeclTree) (one between other : PlainType)
        → fits declarations one between ≡ true → fits declarations between other ≡ true
        → fits declarations one other ≡ true }
    ensures antisymmetric { (declarations : List DeclTree) (one other : PlainType) → NoneExtendsItself declarations
        → fits declarations one other ≡ true → fits declarations other one ≡ true → one ≡ other }
{}

/// `null` fits interfaces and `Fut` types, and its own type. Data that fits data has the same name, and its arguments
/// fit one by one. `Fut` of a type fits `Fut` of another type exactly where the first type fits the other.
pub fn types_fit_by_form()
    ensures null { (declarations : List DeclTree) (other : PlainType) → fits declarations PlainNull other ≡ true
        → (other ≡ PlainNull) ⊎ ((name : Name) × other ≡ PlainInterface name)
        ⊎ ((value : PlainType) × other ≡ PlainFut value) }
    ensures applied { (declarations : List DeclTree) (name other_name : Name) (arguments others : List PlainType)
        → fits declarations (applied_to (PlainData name) arguments) (applied_to (PlainData other_name) others) ≡ true
        → (name ≡ other_name) × AllFit declarations arguments others }
    ensures futures { (declarations : List DeclTree) (one other : PlainType)
        → (fits declarations (PlainFut one) (PlainFut other) ≡ true) ↔ (fits declarations one other ≡ true) }
{}

/// A join is the least type that both types fit. In a program whose interfaces do not extend themselves it does not
/// depend on their order, and inside data and `Fut` the joins of the arguments alone decide.
pub fn joins_are_least()
    ensures least { (declarations : List DeclTree) (one other joined : PlainType)
        → join_of declarations one other ≡ Some joined → IsLeastAbove declarations one other joined }
    ensures symmetric { (declarations : List DeclTree) (one other : PlainType) → NoneExtendsItself declarations
        → join_of declarations one other ≡ join_of declarations other one }
    ensures applied { (declarations : List DeclTree) (head other_head argument other_argument : PlainType)
        → NoneExtendsItself declarations
        → join_of declarations (PlainApplied head argument) (PlainApplied other_head other_argument)
        ≡ both_applied (join_of declarations head other_head) (join_of declarations argument other_argument) }
    ensures futures { (declarations : List DeclTree) (one other : PlainType) → NoneExtendsItself declarations
        → join_of declarations (PlainFut one) (PlainFut other) ≡ option_map PlainFut (join_of declarations one other) }
    ensures several { (declarations : List DeclTree) (one joined : PlainType) (others : List PlainType)
        → join_all declarations one others ≡ Some joined → IsLeastAboveAll declarations (one ∷ others) joined }
{}

/// In an application the arguments fit what is taken, with the type parameters replaced by what they met, one type for
/// each. What they met fits every other replacement of which that is true. A replacement keeps what fits. Types that
/// fit others give types that fit what the others give in their place.
pub fn applications_are_least()
    ensures fit { (declarations : List DeclTree) (scheme : Scheme) (given met : List PlainType) → IsClosed scheme
        → met_by declarations scheme given ≡ Some met → AllFit declarations given (map (replaced met) scheme.takes) }
    ensures count { (declarations : List DeclTree) (scheme : Scheme) (given met : List PlainType)
        → met_by declarations scheme given ≡ Some met → length met ≡ scheme.parameters }
    ensures least { (declarations : List DeclTree) (scheme : Scheme) (given met types : List PlainType)
        → length types ≡ scheme.parameters → met_by declarations scheme given ≡ Some met
        → AllFit declarations given (map (replaced types) scheme.takes) → AllFit declarations met types }
    ensures replacement { (declarations : List DeclTree) (types : List PlainType) (one other : PlainType)
        → fits declarations one other ≡ true
        → fits declarations (replaced types one) (replaced types other) ≡ true }
    ensures replacements { (declarations : List DeclTree) (types others : List PlainType) (one : PlainType)
        → AllFit declarations types others → fits declarations (replaced types one) (replaced others one) ≡ true }
{}

/// Replacing type parameters twice is replacing them once by replaced types, in a type and in each type of a list. The
/// first replacement must have a type for each parameter.
pub fn replacements_compose()
    ensures one { (first second : List PlainType) (type : PlainType) → ParametersBelow (length first) type
        → replaced second (replaced first type) ≡ replaced (map (replaced second) first) type }
    ensures several { (first second types : List PlainType) → All (ParametersBelow (length first)) types
        → map (replaced second) (map (replaced first) types)
        ≡ map (replaced (map (replaced second) first)) types }
{}

/// In a resolved program the types that functions and constructors take and give have their own type parameters alone.
pub fn schemes_are_closed()
    ensures functions { (source : SourceTree) (name : Name) (scheme : Scheme) → IsWhole source
        → scheme_of_function source.declarations name ≡ Some scheme → IsClosed scheme }
    ensures constructors { (source : SourceTree) (name : Name) (scheme : Scheme) → IsWhole source
        → scheme_of_constructor source.declarations name ≡ Some scheme → IsClosed scheme }
{}

/// What a constructor gives is its data, applied to what its type parameters are replaced by. What it is applied to
/// fits what its pattern finds in the type of that application. Where data fits another type, what a pattern finds in
/// it fits what it finds in the other one; and so does what it finds in the type of no value. Where it fits a replaced
/// type, what the constructor takes fits what its pattern finds in the type, replaced.
pub fn constructors_match()
    ensures agree { (source : SourceTree) (name : Name) (scheme : Scheme) (given : List PlainType) (built : PlainType)
        → IsWhole source → scheme_of_constructor source.declarations name ≡ Some scheme
        → applied_type source.declarations scheme given ≡ Some built
        → (parts : List PlainType) × (constructor_parts source.declarations built name ≡ Some parts)
        × AllFit source.declarations given parts }
    ensures below { (declarations : List DeclTree) (name owner : Name) (arguments : List PlainType) (other : PlainType)
        (parts : List PlainType) → fits declarations (applied_to (PlainData owner) arguments) other ≡ true
        → constructor_parts declarations other name ≡ Some parts
        → (others : List PlainType)
        × (constructor_parts declarations (applied_to (PlainData owner) arguments) name ≡ Some others)
        × AllFit declarations others parts }
    ensures data { (declarations : List DeclTree) (name : Name) (scheme : Scheme) (arguments : List PlainType)
        → scheme_of_constructor declarations name ≡ Some scheme → length arguments ≡ scheme.parameters
        → (owner : Name) × (replaced arguments scheme.gives ≡ applied_to (PlainData owner) arguments) }
    ensures replaced_subject { (source : SourceTree) (name : Name) (scheme : Scheme) (arguments types : List PlainType)
        (subject : PlainType) (parts : List PlainType) → IsWhole source
        → scheme_of_constructor source.declarations name ≡ Some scheme → length arguments ≡ scheme.parameters
        → fits source.declarations (replaced arguments scheme.gives) (replaced types subject) ≡ true
        → constructor_parts source.declarations subject name ≡ Some parts
        → AllFit source.declarations (map (replaced arguments) scheme.takes) (map (replaced types) parts) }
    ensures no_value { (declarations : List DeclTree) (name : Name) (other : PlainType) (parts : List PlainType)
        → constructor_parts declarations other name ≡ Some parts
        → (others : List PlainType) × (constructor_parts declarations PlainBottom name ≡ Some others)
        × AllFit declarations others parts }
{}

/// The relation and the function give the same types, so an expression has at most one; and an expression has a type
/// exactly where it has no offence.
pub fn expressions_are_typed()
    ensures agree { (declarations : List DeclTree) (frame : Frame) (bound : List PlainType) (expr_tree : ExprTree)
        (type : PlainType) → HasType declarations frame bound expr_tree type
        ↔ (type_in declarations frame (map Some bound) expr_tree ≡ Some type) }
    ensures no_offence { (declarations : List DeclTree) (frame : Frame) (bound : List PlainType) (expr_tree : ExprTree)
        → (expr_offences declarations frame (map Some bound) expr_tree ≡ [])
        ↔ ((type : PlainType) × HasType declarations frame bound expr_tree type) }
{}

/// An expression that has a type has the same one where more slots are visible.
pub fn types_stay_in_wider_frames()
    ensures { (declarations : List DeclTree) (frame wider : Frame) (bound : List (Option PlainType))
        (expr_tree : ExprTree) (type : PlainType) → SeesMore frame wider
        → type_in declarations frame bound expr_tree ≡ Some type
        → type_in declarations wider bound expr_tree ≡ Some type }
{}

/// Statements are well typed exactly where they have no offence.
pub fn statements_are_typed()
    ensures { (declarations : List DeclTree) (frame : Frame) (is_last : Bool) (statements : Statements)
        → (statements_offences declarations frame is_last statements ≡ [])
        ↔ AreTyped declarations frame is_last statements }
{}

/// A program is well typed exactly where its types have no offence.
pub fn programs_are_typed()
    ensures { (source : SourceTree) → (type_offences source ≡ []) ↔ IsTypedProgram source }
{}
