//! Methods of classes, and the main block.
ghost use Rattle.std.specs.Prelude.{◌≡◌, ◌++◌, ◌-◌, ◌≤◌, false, [], List, None, Some, length, map, replicate, All, IfOk, OnOk};
ghost use Rattle.abs_program.specs.SlotViews.{BodyHasSlots};
ghost use Rattle.abs_tree.specs.Syntax.{Name};
ghost use Rattle.abs_tree.specs.SyntaxViews.{param_tree, signature_tree, statements as statement_trees};
ghost use Rattle.abs_types.specs.PlainTypes.{PlainType};
ghost use Rattle.abs_types.specs.Schemes.{param_types};
ghost use Rattle.abs_types.specs.StatementOffences.{statements_offences};
ghost use Rattle.abs_types.specs.TypeOffences.{ends_well as ends_as_asked, main_frame, method_offences};
ghost use Rattle.abs_types.specs.TypeTables.{types_in, Keeps};
ghost use Rattle.check_fun.specs.Contexts.{types_known, Context, Finds, Found, Knows, Noted, Stays};
ghost use Rattle.check_obj.specs.Classes.{IsInClass};

use crate::endings::ends_with_return;
use crate::statements::statements;
use abs_tree::{Body, Code, Param, Signature, Stmt};
use abs_types::TypeIndex;
use check_fun::Checker;
use std::alloc::AllocError;

/// Checks a method of the class that was entered.
///
/// # Errors
/// [`AllocError`] if an allocation fails, or if there are too many types. So it is for each function here.
pub(crate) fn method(
    checker: &mut Checker<'_>,
    signature: &Signature,
    body: &Body,
) -> Result<(), AllocError>
    requires { BodyHasSlots checker.old.table.program.now.symbols (length signature.now.params.items) body.now }
    ensures noted { (context : Context) (class : Name) (fields : List PlainType)
        → IsInClass checker.old context class fields → OnOk result (Noted checker.old.first
        (method_offences context.declarations class fields (signature_tree context.names signature.now) body.now.end
        (statement_trees context.names body.now.statements.items)) checker.new.first) }
    ensures stays { (context : Context) (class : Name) (fields : List PlainType)
        → IsInClass checker.old context class fields → OnOk result (IsInClass checker.new context class fields) }
    ensures keeps { OnOk result (Keeps checker.old.table checker.new.table) }
{
    let gives = checker.written(&signature.result)?;
    let slots = body_slots(checker, signature.params.as_slice(), body.slots.len())?;
    checker.enter_method(slots, Some(gives));
    statements(checker, true, body.statements.as_slice())?;
    let ends_well = ends_well(checker, gives, body.statements.as_slice())?;
    checker.note_if(!ends_well, Code::T5, body.end);
    Ok(())
}

/// Checks the main block, which has no `return`.
pub(crate) fn main_block(checker: &mut Checker<'_>, body: &Body) -> Result<(), AllocError>
    requires { BodyHasSlots checker.old.table.program.now.symbols 0 body.now }
    ensures noted { (context : Context) → Knows checker.old context → OnOk result (Noted checker.old.first
        (statements_offences context.declarations (main_frame (statement_trees context.names body.now.statements.items))
        false (statement_trees context.names body.now.statements.items)) checker.new.first) }
{
    let unit = checker.unit()?;
    let slots = body_slots(checker, &[], body.slots.len())?;
    let fields = Vec::new(checker.table.alloc);
    checker.enter_body(slots, fields, None, Some(unit));
    statements(checker, false, body.statements.as_slice())
}

/// The slots of a body: those of parameters are visible, and others are not.
fn body_slots(
    checker: &mut Checker<'_>,
    params: &[Param],
    count: usize,
) -> Result<Vec<Option<TypeIndex>>, AllocError>
    requires { length params.now ≤ count }
    ensures found { (context : Context) → Knows checker.old context → IfOk result (λ slots.
        types_known (types_in checker.new.table) slots.items
        ≡ map Some (param_types (map (param_tree context.names) params.now))
        ++ replicate (count - length params.now) None) }
    ensures among { IfOk result (λ slots. All (Found checker.new) slots.items) }
    ensures first { checker.new.first ≡ checker.old.first }
    ensures stays { OnOk result (Stays checker.old checker.new) }
{
    let mut slots = Vec::with_capacity(checker.table.alloc, count)?;
    for param in params {
        slots.push(Some(checker.written(&param.type_of)?))?;
    }
    slots.resize(count, None)?;
    Ok(slots)
}

/// Whether the body of a method with a result type ends as it is to: with `return`, unless the type is `Unit`.
fn ends_well(
    checker: &mut Checker<'_>,
    gives: TypeIndex,
    stmts: &[Stmt],
) -> Result<bool, AllocError>
    requires { Found checker.old (Some gives) }
    ensures reported { (names : List Name) (type : PlainType) → Finds checker.old (Some gives) (Some type)
        → IfOk result (λ reported. reported ≡ ends_as_asked type (statement_trees names stmts.now)) }
    ensures first { checker.new.first ≡ checker.old.first }
    ensures stays { OnOk result (Stays checker.old checker.new) }
{
    let unit = checker.unit()?;
    Ok(checker.table.are_same(gives, unit) || ends_with_return(stmts))
}
