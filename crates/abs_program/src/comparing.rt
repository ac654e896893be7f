//! Whether two programs are the same, and whether they have the same functions. The tables of names are compared first:
//! where they are the same, symbols tell names apart. Lists of different lengths differ at once. Nothing takes memory.
ghost use Rattle.std.specs.Prelude.{◌≡◌, ◌↔◌, ◌<◌, ◌∷◌, [], List, length, map, IsTrue, MatchOption};
ghost use Rattle.abs_program.specs.Comparisons.{HaveSameFunctions, IsSameProgram, function_declarations, functions_among, is_function};
ghost use Rattle.abs_program.specs.NamedViews.{program_tree};
ghost use Rattle.abs_tree.specs.Syntax.{Name};
ghost use Rattle.abs_tree.specs.SyntaxViews.{decl_tree, tree_of_parts};

use crate::Named;
use abs_tree::Decl;

/// Whether two programs are the same: their names, their declarations and their main blocks, places included. It takes
/// no memory.
pub fn named_equal(left: &Named<'_>, right: &Named<'_>) -> bool
    ensures same { IsTrue result ↔ IsSameProgram left.now right.now }
    ensures tree { IsTrue result → program_tree left.now ≡ program_tree right.now }
{
    if !left.symbols.same_names(&right.symbols) {
        return false;
    }
    sources_equal(left, right)
}

/// Whether two programs have the same names and the same functions, places included. It takes no memory.
pub fn functions_equal(left: &Named<'_>, right: &Named<'_>) -> bool
    ensures { IsTrue result ↔ HaveSameFunctions left.now right.now }
{
    if !left.symbols.same_names(&right.symbols) {
        return false;
    }
    same_functions(&left.declarations, &right.declarations)
}

/// Whether the declarations and the main blocks of two programs are the same, whatever names their symbols have.
fn sources_equal(left: &Named<'_>, right: &Named<'_>) -> bool
    ensures { IsTrue result ↔ ((names : List Name)
        → tree_of_parts names left.now.declarations.items left.now.main
        ≡ tree_of_parts names right.now.declarations.items right.now.main) }
{
    left.declarations == right.declarations && left.main == right.main
}

/// Whether the functions among declarations are the same, whatever names their symbols have.
fn same_functions(left: &[Decl], right: &[Decl]) -> bool
    ensures { IsTrue result ↔ ((names : List Name)
        → function_declarations (map (decl_tree names) left.now)
        ≡ function_declarations (map (decl_tree names) right.now)) }
{
    let mut ones = left;
    let mut others = right;
    loop {
        let Some((one, after_one)) = first_function(ones) else {
            return first_function(others).is_none();
        };
        let Some((other, after_other)) = first_function(others) else {
            return false;
        };
        if one != other {
            return false;
        }
        ones = after_one;
        others = after_other;
    }
}

/// The first function among declarations, and the declarations after it.
fn first_function(declarations: &[Decl]) -> Option<(&Decl, &[Decl])>
    ensures { MatchOption result (functions_among declarations.now ≡ [])
        (λ found. (functions_among declarations.now ≡ found.0.now ∷ functions_among found.1.now)
        × (length found.1.now < length declarations.now)) }
{
    let mut rest = declarations;
    while let Some((first, others)) = rest.split_first() {
        if is_function(first) {
            return Some((first, others));
        }
        rest = others;
    }
    None
}

/// Whether a declaration is that of a function.
fn is_function(declaration: &Decl) -> bool
    ensures { result ≡ is_function declaration.now }
{
    matches!(declaration, Decl::Function { .. })
}
