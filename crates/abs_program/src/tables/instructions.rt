//! Makes the instructions of a program's statements, from the last one back to the first: so the index of what comes
//! after a statement is known before the statement is reached. Only the end of a loop's body goes back to an index that
//! is smaller, by the size of the body; so the sizes of the bodies of loops are counted before.
ghost use Rattle.std.specs.Prelude.{◌≡◌, ◌≤◌, ◌<◌, ◌∷◌, [], List, map, IfOk, OnOk};
ghost use Rattle.abs_program.specs.InstructionViews.{instruction_tree};
ghost use Rattle.abs_program.specs.Instructions.{instructions as instructions_of};
ghost use Rattle.abs_tree.specs.Limits.{table_limit};
ghost use Rattle.abs_program.specs.MadeInstructions.{MayMakeStatement, MayMakeStatements, MayMakeOther, MayMakeBranches, MayMakeLoop, MayMakeMembers, MayMakeDecls, MadeOne, MadeStatement, MadeStatements, MadeOther, MadeBranches, MadeBody, MadeMembers, MadeDecls, MayEnter, Entered};
ghost use Rattle.abs_tree.specs.Syntax.{Name};
ghost use Rattle.abs_tree.specs.SyntaxSizes.{all_statements};
ghost use Rattle.abs_tree.specs.SyntaxViews.{statement as statement_tree, statements as statement_trees, maybe_statements, member_tree, decl_tree, tree_of_parts};

use crate::tables::control::{Instruction, Successor};
use crate::tables::effects::{effect_of, exprs_of};
use crate::tables::loop_sizes::{count_declarations, count_statements};
use abs_tree::Symbols;
use abs_tree::syntax::{Body, Decl, Member, Stmt};
use std::alloc::{AllocError, Global};

/// The instructions from some index on.
#[derive(Drop)]
struct Maker {
    /// The instructions, the last one first.
    instructions: Vec<Instruction>,
    /// The index of the first of them; at first the number of all.
    next: u32,
    /// The sizes of the bodies of the loops whose last instruction is not made yet.
    loops: Vec<u32>,
}

impl Maker {
    /// Makes the instruction of a statement, and gives its index.
    ///
    /// # Errors
    /// [`AllocError`] if an allocation fails.
    fn push(
        &mut self,
        alloc: Global,
        stmt: &Stmt,
        goes: Successor,
    ) -> Result<Option<u32>, AllocError>
        requires { 0 < self.old.next }
        ensures { (names : List Name) → IfOk result (λ index.
            MadeOne names (statement_tree names stmt.now) goes index self.old self.new) }
    {
        let exprs = exprs_of(stmt)?;
        let effect = effect_of(alloc, stmt)?;
        self.instructions.push(Instruction {
            place: stmt.place().offset,
            exprs,
            effect,
            goes,
        })?;
        self.next -= 1;
        Ok(Some(self.next))
    }

    /// The index of the last loop that is left, if its body comes next.
    fn enter_loop(&mut self) -> u32
        requires { MayEnter self.old }
        ensures { Entered result self.old self.new }
    {
        let size = self.loops.pop().unwrap();
        self.next - size - 1
    }

    /// Makes the instructions of statements, after which control goes to `after`, and tells where it is before them.
    ///
    /// # Errors
    /// [`AllocError`] if an allocation fails.
    #[cycle(made)]
    fn add_statements(
        &mut self,
        alloc: Global,
        stmts: &[Stmt],
        after: Option<u32>,
    ) -> Result<Option<u32>, AllocError>
        requires { (names : List Name) × MayMakeStatements (statement_trees names stmts.now) self.old }
        ensures { (names : List Name) → IfOk result (λ first.
            MadeStatements names (statement_trees names stmts.now) after first self.old self.new) }
    {
        let mut first = after;
        for stmt in stmts.iter().rev() {
            first = self.add_statement(alloc, stmt, first)?;
        }
        Ok(first)
    }

    /// Makes the instructions of a statement and of those in it, after which control goes to `after`, and tells where
    /// it is before them.
    ///
    /// # Errors
    /// [`AllocError`] if an allocation fails.
    #[cycle(made)]
    fn add_statement(
        &mut self,
        alloc: Global,
        stmt: &Stmt,
        after: Option<u32>,
    ) -> Result<Option<u32>, AllocError>
        requires { (names : List Name) × MayMakeStatement (statement_tree names stmt.now) self.old }
        ensures { (names : List Name) → IfOk result (λ first.
            MadeStatement names (statement_tree names stmt.now) after first self.old self.new) }
    {
        match stmt {
            Stmt::Block(_, block) => self.add_statements(alloc, block, after),
            Stmt::If { first, second, .. } => {
                let goes = self.add_branches(alloc, first, second, after)?;
                self.push(alloc, stmt, goes)
            }
            Stmt::While { body, .. } => {
                let goes = self.add_body(alloc, body, after)?;
                self.push(alloc, stmt, goes)
            }
            _ => self.push(alloc, stmt, Successor::Next(after)),
        }
    }

    /// Makes the instructions of the branches of an `if`, and gives its successors.
    ///
    /// # Errors
    /// [`AllocError`] if an allocation fails.
    #[cycle(made)]
    fn add_branches(
        &mut self,
        alloc: Global,
        first: &[Stmt],
        second: &Option<Vec<Stmt>>,
        after: Option<u32>,
    ) -> Result<Successor, AllocError>
        requires { (names : List Name) × MayMakeBranches (statement_trees names first.now)
            (maybe_statements names second.now) self.old }
        ensures { (names : List Name) → IfOk result (λ goes. MadeBranches names (statement_trees names first.now)
            (maybe_statements names second.now) after goes self.old self.new) }
    {
        let when_false = self.add_other(alloc, second, after)?;
        let when_true = self.add_statements(alloc, first, after)?;
        Ok(Successor::ByAnswer {
            when_true,
            when_false,
        })
    }

    /// Makes the instructions of the other branch of an `if`, and tells where control is before it.
    ///
    /// # Errors
    /// [`AllocError`] if an allocation fails.
    #[cycle(made)]
    fn add_other(
        &mut self,
        alloc: Global,
        other: &Option<Vec<Stmt>>,
        after: Option<u32>,
    ) -> Result<Option<u32>, AllocError>
        requires { (names : List Name) × MayMakeOther (maybe_statements names other.now) self.old }
        ensures { (names : List Name) → IfOk result (λ first.
            MadeOther names (maybe_statements names other.now) after first self.old self.new) }
    {
        match other {
            Some(stmts) => self.add_statements(alloc, stmts, after),
            None => Ok(after),
        }
    }

    /// Makes the instructions of the body of a loop, after which control goes back to the loop, and gives the
    /// successors of the loop.
    ///
    /// # Errors
    /// [`AllocError`] if an allocation fails.
    #[cycle(made)]
    fn add_body(
        &mut self,
        alloc: Global,
        body: &[Stmt],
        after: Option<u32>,
    ) -> Result<Successor, AllocError>
        requires { (names : List Name) × MayMakeLoop (statement_trees names body.now) self.old }
        ensures { (names : List Name) → IfOk result (λ goes.
            MadeBody names (statement_trees names body.now) after goes self.old self.new) }
    {
        let own = self.enter_loop();
        let when_true = self.add_statements(alloc, body, Some(own))?;
        Ok(Successor::ByAnswer {
            when_true,
            when_false: after,
        })
    }

    /// Makes the instructions of a member of a class, which has some if it is a method.
    ///
    /// # Errors
    /// [`AllocError`] if an allocation fails.
    fn add_member(&mut self, alloc: Global, member: &Member) -> Result<(), AllocError>
        requires { (names : List Name) × MayMakeMembers (member_tree names member.now ∷ []) self.old }
        ensures { (names : List Name) → OnOk result
            (MadeMembers names (member_tree names member.now ∷ []) self.old self.new) }
    {
        if let Member::Method(_, body) = member {
            self.add_statements(alloc, body.statements.as_slice(), None)?;
        }
        Ok(())
    }

    /// Makes the instructions of the members of a class.
    ///
    /// # Errors
    /// [`AllocError`] if an allocation fails.
    fn add_members(&mut self, alloc: Global, members: &[Member]) -> Result<(), AllocError>
        requires { (names : List Name) × MayMakeMembers (map (member_tree names) members.now) self.old }
        ensures { (names : List Name) → OnOk result
            (MadeMembers names (map (member_tree names) members.now) self.old self.new) }
    {
        for member in members.iter().rev() {
            self.add_member(alloc, member)?;
        }
        Ok(())
    }

    /// Makes the instructions of a declaration, which has some if it is a class.
    ///
    /// # Errors
    /// [`AllocError`] if an allocation fails.
    fn add_declaration(&mut self, alloc: Global, declaration: &Decl) -> Result<(), AllocError>
        requires { (names : List Name) × MayMakeDecls (decl_tree names declaration.now ∷ []) self.old }
        ensures { (names : List Name) → OnOk result
            (MadeDecls names (decl_tree names declaration.now ∷ []) self.old self.new) }
    {
        match declaration {
            Decl::Class { members, .. } => self.add_members(alloc, members.as_slice()),
            Decl::Data { .. } | Decl::Function { .. } | Decl::Interface { .. } => Ok(()),
        }
    }

    /// Makes the instructions of declarations.
    ///
    /// # Errors
    /// [`AllocError`] if an allocation fails.
    fn add_declarations(&mut self, alloc: Global, declarations: &[Decl]) -> Result<(), AllocError>
        requires { (names : List Name) × MayMakeDecls (map (decl_tree names) declarations.now) self.old }
        ensures { (names : List Name) → OnOk result
            (MadeDecls names (map (decl_tree names) declarations.now) self.old self.new) }
    {
        for declaration in declarations.iter().rev() {
            self.add_declaration(alloc, declaration)?;
        }
        Ok(())
    }
}

/// The instructions of the statements of these declarations and of this main block, in the order of their indices. It
/// takes as long as there are statements, however they are nested.
///
/// # Errors
/// [`AllocError`] if an allocation fails.
pub fn instructions(
    alloc: Global,
    symbols: &Symbols<'_>,
    declarations: &[Decl],
    main: &Body,
) -> Result<Vec<Instruction>, AllocError>
    requires few { all_statements (tree_of_parts symbols.now declarations.now main.now) ≤ table_limit }
    ensures { IfOk result (λ found. map (instruction_tree symbols.now) found.items
        ≡ instructions_of (tree_of_parts symbols.now declarations.now main.now)) }
{
    let main = main.statements.as_slice();
    let mut loops = Vec::new(alloc);
    let in_methods = count_declarations(declarations, &mut loops)?;
    let next = in_methods + count_statements(main, &mut loops)?;
    let mut maker = Maker {
        instructions: Vec::with_capacity(alloc, next as usize)?,
        next,
        loops,
    };
    maker.add_statements(alloc, main, None)?;
    maker.add_declarations(alloc, declarations)?;
    let mut instructions = maker.instructions;
    instructions.reverse();
    Ok(instructions)
}
