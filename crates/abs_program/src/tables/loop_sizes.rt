//! How many statements there are, and how many of them the bodies of loops have. Each statement is counted once,
//! however deep it is nested.
ghost use Rattle.std.specs.Prelude.{◌≤◌, ◌∷◌, [], List, map, IfOk};
ghost use Rattle.abs_tree.specs.Limits.{table_limit};
ghost use Rattle.abs_program.specs.MadeInstructions.{loop_sizes, loop_sizes_of, loop_sizes_of_else, member_loops, decl_loops, Counts};
ghost use Rattle.abs_tree.specs.Syntax.{Name};
ghost use Rattle.abs_tree.specs.SyntaxSizes.{count_of, count_of_else, statement_count, member_statements, decl_statements};
ghost use Rattle.abs_tree.specs.SyntaxViews.{statement as statement_tree, statements as statement_trees, maybe_statements, member_tree, decl_tree};

use abs_tree::syntax::{Decl, Member, Stmt};
use std::alloc::AllocError;

/// How many of these statements, and of those in them, have an index. For each loop among them, after those in it, the
/// number for its body is added to a list.
///
/// # Errors
/// [`AllocError`] if an allocation fails.
#[cycle(counts)]
pub(crate) fn count_statements(stmts: &[Stmt], loops: &mut Vec<u32>) -> Result<u32, AllocError>
    requires { (names : List Name) × (statement_count (statement_trees names stmts.now) ≤ table_limit) }
    ensures { (names : List Name) → IfOk result (λ count. Counts (statement_count (statement_trees names stmts.now))
        (loop_sizes (statement_trees names stmts.now)) count loops.old.items loops.new.items) }
{
    let mut count = 0;
    for stmt in stmts {
        count += count_statement(stmt, loops)?;
    }
    Ok(count)
}

/// How many statements have an index: this one and those in it. For each loop among them, after those in it, the number
/// for its body is added to a list.
///
/// # Errors
/// [`AllocError`] if an allocation fails.
#[cycle(counts)]
fn count_statement(stmt: &Stmt, loops: &mut Vec<u32>) -> Result<u32, AllocError>
    requires { (names : List Name) × (count_of (statement_tree names stmt.now) ≤ table_limit) }
    ensures { (names : List Name) → IfOk result (λ count. Counts (count_of (statement_tree names stmt.now))
        (loop_sizes_of (statement_tree names stmt.now)) count loops.old.items loops.new.items) }
{
    match stmt {
        Stmt::Block(_, block) => count_statements(block, loops),
        Stmt::If { first, second, .. } => {
            Ok(1 + count_statements(first, loops)? + count_other(second, loops)?)
        }
        Stmt::While { body, .. } => {
            let size = count_statements(body, loops)?;
            loops.push(size)?;
            Ok(1 + size)
        }
        Stmt::Skip { .. }
        | Stmt::Suspend { .. }
        | Stmt::Await { .. }
        | Stmt::Return { .. }
        | Stmt::Print { .. }
        | Stmt::Declare { .. }
        | Stmt::Assign { .. }
        | Stmt::Do { .. } => Ok(1),
    }
}

/// How many statements of the other branch of an `if` have an index, with those in them. For each loop among them,
/// after those in it, the number for its body is added to a list.
///
/// # Errors
/// [`AllocError`] if an allocation fails.
#[cycle(counts)]
fn count_other(other: &Option<Vec<Stmt>>, loops: &mut Vec<u32>) -> Result<u32, AllocError>
    requires { (names : List Name) × (count_of_else (maybe_statements names other.now) ≤ table_limit) }
    ensures { (names : List Name) → IfOk result (λ count. Counts (count_of_else (maybe_statements names other.now))
        (loop_sizes_of_else (maybe_statements names other.now)) count loops.old.items loops.new.items) }
{
    match other {
        Some(stmts) => count_statements(stmts, loops),
        None => Ok(0),
    }
}

/// How many statements a member of a class has: those of its body if it is a method, and else none. For each loop among
/// them, after those in it, the number for its body is added to a list.
///
/// # Errors
/// [`AllocError`] if an allocation fails.
fn count_member(member: &Member, loops: &mut Vec<u32>) -> Result<u32, AllocError>
    requires { (names : List Name) × (member_statements (member_tree names member.now ∷ []) ≤ table_limit) }
    ensures { (names : List Name) → IfOk result (λ count.
        Counts (member_statements (member_tree names member.now ∷ []))
        (member_loops (member_tree names member.now ∷ [])) count loops.old.items loops.new.items) }
{
    match member {
        Member::Method(_, body) => count_statements(body.statements.as_slice(), loops),
        Member::Field { .. } => Ok(0),
    }
}

/// How many statements the methods among the members of a class have. For each loop among them, after those in it, the
/// number for its body is added to a list.
///
/// # Errors
/// [`AllocError`] if an allocation fails.
fn count_members(members: &[Member], loops: &mut Vec<u32>) -> Result<u32, AllocError>
    requires { (names : List Name) × (member_statements (map (member_tree names) members.now) ≤ table_limit) }
    ensures { (names : List Name) → IfOk result (λ count.
        Counts (member_statements (map (member_tree names) members.now))
        (member_loops (map (member_tree names) members.now)) count loops.old.items loops.new.items) }
{
    let mut count = 0;
    for member in members {
        count += count_member(member, loops)?;
    }
    Ok(count)
}

/// How many statements a declaration has: those of its methods if it is a class, and else none. For each loop among
/// them, after those in it, the number for its body is added to a list.
///
/// # Errors
/// [`AllocError`] if an allocation fails.
fn count_declaration(declaration: &Decl, loops: &mut Vec<u32>) -> Result<u32, AllocError>
    requires { (names : List Name) × (decl_statements (decl_tree names declaration.now ∷ []) ≤ table_limit) }
    ensures { (names : List Name) → IfOk result (λ count.
        Counts (decl_statements (decl_tree names declaration.now ∷ []))
        (decl_loops (decl_tree names declaration.now ∷ [])) count loops.old.items loops.new.items) }
{
    match declaration {
        Decl::Class { members, .. } => count_members(members.as_slice(), loops),
        Decl::Data { .. } | Decl::Function { .. } | Decl::Interface { .. } => Ok(0),
    }
}

/// How many statements the methods of the classes among declarations have. For each loop among them, after those in it,
/// the number for its body is added to a list.
///
/// # Errors
/// [`AllocError`] if an allocation fails.
pub(crate) fn count_declarations(
    declarations: &[Decl],
    loops: &mut Vec<u32>,
) -> Result<u32, AllocError>
    requires { (names : List Name) × (decl_statements (map (decl_tree names) declarations.now) ≤ table_limit) }
    ensures { (names : List Name) → IfOk result (λ count.
        Counts (decl_statements (map (decl_tree names) declarations.now))
        (decl_loops (map (decl_tree names) declarations.now)) count loops.old.items loops.new.items) }
{
    let mut count = 0;
    for declaration in declarations {
        count += count_declaration(declaration, loops)?;
    }
    Ok(count)
}
