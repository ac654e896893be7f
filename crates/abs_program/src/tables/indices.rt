//! The indices that statements have by their order in the source.
ghost use Rattle.std.specs.Prelude.{◌≡◌, ◌+◌, List, IfOk};
ghost use Rattle.abs_tree.specs.Syntax.{Name};
ghost use Rattle.abs_tree.specs.SyntaxSizes.{count_of, statement_count};
ghost use Rattle.abs_tree.specs.SyntaxViews.{statement as statement_tree, statements as statement_trees};

use abs_tree::syntax::Stmt;
use std::alloc::AllocError;

/// The index after those of these statements and of the statements in them, of which the first has this index.
///
/// # Errors
/// [`AllocError`] if an index is too large. So it is for each function here.
#[cycle(indices)]
pub(crate) fn after_statements(index: u32, statements: &[Stmt]) -> Result<u32, AllocError>
    ensures { (names : List Name) → IfOk result (λ next.
        next ≡ index + statement_count (statement_trees names statements.now)) }
{
    let mut next = index;
    for statement in statements {
        next = after_statement(next, statement)?;
    }
    Ok(next)
}

/// The index after those of a statement, if it has one, and of the statements in it.
#[cycle(indices)]
fn after_statement(index: u32, statement: &Stmt) -> Result<u32, AllocError>
    ensures { (names : List Name) → IfOk result (λ next.
        next ≡ index + count_of (statement_tree names statement.now)) }
{
    match statement {
        Stmt::Block(_, block) => after_statements(index, block),
        Stmt::If { first, second, .. } => {
            let next = after_statements(after(index)?, first)?;
            match second {
                Some(branch) => after_statements(next, branch),
                None => Ok(next),
            }
        }
        Stmt::While { body, .. } => after_statements(after(index)?, body),
        _ => after(index),
    }
}

/// The index after this one.
fn after(index: u32) -> Result<u32, AllocError>
    ensures { IfOk result (λ next. next ≡ index + 1) }
{
    match index.checked_add(1) {
        Some(next) => Ok(next),
        None => Err(AllocError),
    }
}
