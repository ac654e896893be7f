//! The laws of the grammar.
ghost use Rattle.std.specs.Prelude.{List, [], All, Contains};
ghost use Rattle.abs_lexer.specs.Tokens.{TokenList};
ghost use Rattle.abs_tree.specs.DeclaredNames.{declared_names};
ghost use Rattle.abs_tree.specs.Syntax.{Name, SourceTree};
ghost use Rattle.abs_parser.specs.ReaderAnswers.{names_before};
ghost use Rattle.abs_parser.specs.Readings.{Forest, IsProgram};
ghost use Rattle.abs_parser.specs.StopLaw.{EachTextStopsOrIsAccepted};
ghost use Rattle.abs_parser.specs.Texts.{IsTextOf};
ghost use Rattle.abs_parser.specs.TokenKinds.{Mark};
ghost use Rattle.abs_parser.specs.TreesOf.{tree_of};

/// A source is accepted, with exactly one reading and one tree, or the parser fails at exactly one token, with one
/// code; never both.
pub fn one_outcome()
    ensures { EachTextStopsOrIsAccepted }
{}

/// Each name that a source declares for a constructor, a class or a method is a name that was read. So the table of an
/// accepted source has it.
pub fn declared_names_are_written()
    ensures read { (ts : List Mark) (forest : Forest) → IsProgram ts forest
        → All (Contains (names_before forest [])) (declared_names (tree_of forest)) }
    ensures table { (list : TokenList) (names : List Name) (tree : SourceTree) → IsTextOf list names tree
        → All (Contains names) (declared_names tree) }
{}
