//! Laws of the definitions, which hold whatever the code does.
ghost use Rattle.std.specs.Prelude.{◌≡◌, ◌<◌, ◌+◌, ℕ, List, [], ◌∷◌, Contains, codes, length, slice_get, true, Some, None};
ghost use Rattle.abs_program.specs.declared.name_spaces.ConstructorMeaning.{ConstructorMeaning};
ghost use Rattle.abs_program.specs.declared.name_spaces.FunctionMeaning.TheVariants.{Defined};
ghost use Rattle.abs_program.specs.declared.name_spaces.Taking.{Taking};
ghost use Rattle.abs_program.specs.declared.name_spaces.TypeMeaning.TheVariants.{Data, Interface};
ghost use Rattle.abs_program.specs.NamedDeclarations.{IsData, IsInterface, IsConstructor, IsFunction, IsClass};
ghost use Rattle.abs_program.specs.NameSpaces.{spaces_of};
ghost use Rattle.abs_program.specs.KnownNames.{KnowsNames};
ghost use Rattle.abs_program.specs.NamedViews.{named_tree, program_tree};
ghost use Rattle.abs_program.specs.PreludeTypes.{names_prelude_type, prelude_types, without_parts};
ghost use Rattle.abs_program.specs.ProgramBodies.{BodyAt, IsBodyOf};
ghost use Rattle.abs_program.specs.ProgramFacts.{program_facts};
ghost use Rattle.abs_tree.specs.DeclaredNames.{declared_names};
ghost use Rattle.abs_tree.specs.Names.{number_of_name};
ghost use Rattle.abs_tree.specs.Syntax.{Name, DeclTree, SourceTree, ProgramTree, Statements};
ghost use Rattle.abs_tree.specs.SyntaxSizes.{statement_count};
ghost use Rattle.abs_program.specs.Tables.{meaning_of};
ghost use Rattle.abs_program.specs.Whole.{IsWhole};
ghost use Rattle.abs_program.specs.Control.{Point, entry, points, program_points};
ghost use Rattle.abs_program.specs.Flows.{Slots, Flow, IsFlow, facts, Lands, Follows};
ghost use Rattle.abs_program.specs.Left.{lefts, first_left, IsAt, Steps};

use crate::Named;

/// What the name spaces of declarations say of a name is declared: there is a declaration of this name at the index,
/// and it takes as many arguments.
pub fn declared_is_there()
    ensures data_type { (declarations : List DeclTree) (name : Name) (taking : Taking)
        → meaning_of (spaces_of declarations).types name ≡ Some (Data taking) → IsData declarations name taking }
    ensures interface { (declarations : List DeclTree) (name : Name) (index : ℕ)
        → meaning_of (spaces_of declarations).types name ≡ Some (Interface index)
        → IsInterface declarations name index }
    ensures constructor { (declarations : List DeclTree) (name : Name) (meaning : ConstructorMeaning)
        → meaning_of (spaces_of declarations).constructors name ≡ Some meaning
        → IsConstructor declarations name meaning }
    ensures function { (declarations : List DeclTree) (name : Name) (taking : Taking)
        → meaning_of (spaces_of declarations).functions name ≡ Some (Defined taking)
        → IsFunction declarations name taking }
    ensures class { (declarations : List DeclTree) (name : Name) (taking : Taking)
        → meaning_of (spaces_of declarations).classes name ≡ Some taking → IsClass declarations name taking }
{}

/// In a program whose names are resolved everything that is named is there. Each function, constructor, class,
/// interface and type is declared, and takes as many arguments as it is given; each slot, bound variable and field is
/// there; and no interface extends itself. Each parameter and each local has its own slot. The types of the prelude
/// come first, and no two types have one name. The table has the name of each constructor, class and method.
pub fn named_is_whole(named: &Named<'_>)
    ensures whole { ∥ IsWhole (named_tree named.now) ∥₁ }
    ensures names { ∥ KnowsNames (program_tree named.now) ∥₁ }
{}

/// In a program whose names are resolved only the prelude declares data with the names of its types. `True` and `False`
/// are the constructors of its `Bool`, and `Unit` is that of its `Unit`.
pub fn prelude_types_are_alone()
    ensures alone { (source : SourceTree) (index : ℕ) (declaration : DeclTree) → IsWhole source
        → slice_get source.declarations index ≡ Some declaration → names_prelude_type declaration ≡ true
        → slice_get prelude_types index ≡ Some declaration }
    ensures true_is { (source : SourceTree) → IsWhole source
        → meaning_of (spaces_of source.declarations).constructors (codes "True") ≡ Some (without_parts 1 0) }
    ensures false_is { (source : SourceTree) → IsWhole source
        → meaning_of (spaces_of source.declarations).constructors (codes "False") ≡ Some (without_parts 1 1) }
    ensures unit_is { (source : SourceTree) → IsWhole source
        → meaning_of (spaces_of source.declarations).constructors (codes "Unit") ≡ Some (without_parts 0 0) }
{}

/// A name that the table of a program has is found by its number. So is the name of each constructor, class and method
/// of a program that knows them.
pub fn known_names_are_told()
    ensures table { (names : List Name) (name : Name) → Contains names name
        → slice_get names (number_of_name names name) ≡ Some name }
    ensures program { (program : ProgramTree) (name : Name) → KnowsNames program
        → Contains (declared_names program.source) name
        → slice_get program.names (number_of_name program.names name) ≡ Some name }
{}

/// What is left of a body agrees with where control goes. The first of what is left at a statement is that statement,
/// and where control goes next, that is left which the table of events says. Before the first statement the whole body
/// is left. The statements of the body have indices from `start` on.
pub fn control_leaves_the_rest()
    ensures steps { (start : ℕ) (body : Statements) (offset : ℕ) (point : Point) (left : List Statements)
        → slice_get (points start body None) offset ≡ Some point → slice_get (lefts body []) offset ≡ Some left
        → Steps start (lefts body []) left point }
    ensures starts { (start : ℕ) (body : Statements)
        → IsAt start (lefts body []) (entry start body None) (first_left (body ∷ [])) }
    ensures count { (start : ℕ) (body : Statements) → length (lefts body []) ≡ length (points start body None) }
{}

/// Facts at statements follow control. Where branches, loops and blocks say no more than they may, no more is said
/// where control goes than after the statement, and there is a statement. At the first statement no more is said than
/// before the body. The statements of the body have indices from `start` on.
pub fn facts_follow_control()
    ensures follow { (flow : Flow) → IsFlow flow → (start : ℕ) (body : Statements) (before : Slots) (offset : ℕ)
        (point : Point) (fact : Slots) → slice_get (points start body None) offset ≡ Some point
        → slice_get (facts flow before body) offset ≡ Some fact
        → Follows flow start (facts flow before body) fact point.statement point.goes }
    ensures starts { (flow : Flow) → IsFlow flow → (start : ℕ) (body : Statements) (before : Slots)
        → Lands start (facts flow before body) (entry start body None) before }
    ensures count { (flow : Flow) (start : ℕ) (body : Statements) (before : Slots)
        → length (facts flow before body) ≡ length (points start body None) }
{}

/// The points of a body of a program are those of the program, from the index of its first statement on.
pub fn bodies_are_in_programs()
    ensures { (program : SourceTree) (body : BodyAt) (offset : ℕ) → IsBodyOf program body
        → offset < statement_count body.statements
        → slice_get (program_points program) (body.index + offset)
        ≡ slice_get (points body.index body.statements None) offset }
{}

/// Facts at the statements of a whole program follow control, by the indices of the program. How many parameters a body
/// has gives what holds before it. Where control goes after a statement no more is said than after it, and at the first
/// statement of a body no more than before it.
pub fn facts_follow_in_programs()
    ensures follow { (flow : Flow) → IsFlow flow → (before : ℕ → Slots) (program : SourceTree) (index : ℕ)
        (point : Point) (fact : Slots) → slice_get (program_points program) index ≡ Some point
        → slice_get (program_facts flow before program) index ≡ Some fact
        → Follows flow 0 (program_facts flow before program) fact point.statement point.goes }
    ensures starts { (flow : Flow) → IsFlow flow → (before : ℕ → Slots) (program : SourceTree) (body : BodyAt)
        → IsBodyOf program body
        → Lands 0 (program_facts flow before program) (entry body.index body.statements None) (before body.params) }
    ensures count { (flow : Flow) (before : ℕ → Slots) (program : SourceTree)
        → length (program_facts flow before program) ≡ length (program_points program) }
{}
