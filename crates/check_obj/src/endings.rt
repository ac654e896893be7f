//! Where the body of a method ends, with its bare blocks spliced into the statements around them.
ghost use Rattle.std.specs.Prelude.{◌≡◌, List};
ghost use Rattle.abs_tree.specs.Syntax.{Name};
ghost use Rattle.abs_tree.specs.SyntaxViews.{statement, statements as statement_trees};
ghost use Rattle.check_obj.specs.Endings.{IsFilled};
ghost use Rattle.abs_types.specs.Endings.{are_empty as are_all_empty, ends_with_return as has_return_last, is_empty as is_empty_block, returns as is_return};

use abs_tree::Stmt;

/// Whether a statement is a block in which there is none but such blocks.
#[cycle(empty)]
fn is_empty(stmt: &Stmt) -> bool
    ensures { (names : List Name) → result ≡ is_empty_block (statement names stmt.now) }
{
    match stmt {
        Stmt::Block(_, block) => are_empty(block),
        _ => false,
    }
}

/// Whether all statements are such blocks.
#[cycle(empty)]
fn are_empty(stmts: &[Stmt]) -> bool
    ensures { (names : List Name) → result ≡ are_all_empty (statement_trees names stmts.now) }
{
    for stmt in stmts {
        if !is_empty(stmt) {
            return false;
        }
    }
    true
}

/// How many statements there are up to the last one that is no such block.
pub(crate) fn filled(stmts: &[Stmt]) -> usize
    ensures { IsFilled stmts.now result }
{
    let mut count = stmts.len();
    while count > 0 && is_empty(&stmts[count - 1]) {
        count -= 1;
    }
    count
}

/// Whether the last statement is `return`. Empty blocks after it do not count.
#[cycle(returns)]
pub(crate) fn ends_with_return(stmts: &[Stmt]) -> bool
    ensures { (names : List Name) → result ≡ has_return_last (statement_trees names stmts.now) }
{
    let count = filled(stmts);
    count > 0 && returns(&stmts[count - 1])
}

/// Whether a statement is `return`, or a block that ends with it.
#[cycle(returns)]
fn returns(stmt: &Stmt) -> bool
    ensures { (names : List Name) → result ≡ is_return (statement names stmt.now) }
{
    match stmt {
        Stmt::Return { .. } => true,
        Stmt::Block(_, block) => ends_with_return(block),
        _ => false,
    }
}
