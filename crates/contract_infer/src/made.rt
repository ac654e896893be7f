//! The classes of which objects are made at each place.
ghost use Rattle.std.specs.Map.{lookup};
ghost use Rattle.std.specs.Prelude.{◌≡◌, ℕ, List, nat_eq, IfOk, OnOk};
ghost use Rattle.abs_program.specs.InstructionViews.{instruction_tree};
ghost use Rattle.abs_program.specs.NamedViews.{named_tree};
ghost use Rattle.abs_tree.specs.Syntax.{Name};
ghost use Rattle.contract_infer.specs.MadeEntries.{ClassAdded, InstructionAdded};
ghost use Rattle.contract_terms.specs.Made.{classes_made as classes_made_at};
ghost use Rattle.contract_terms.specs.Views.{class_names};

use abs_program::{Effect, Instruction, Named};
use abs_tree::Symbol;
use indexmap::IndexMap;
use std::alloc::{AllocError, Global};

/// For each place the classes of which statements there make objects, in the order of the statements.
///
/// # Errors
/// [`AllocError`] if an allocation fails. So it is for each function here.
pub(crate) fn classes_made(
    alloc: Global,
    program: &Named<'_>,
) -> Result<IndexMap<u32, Vec<Symbol>>, AllocError>
    ensures { IfOk result (λ made. (place : ℕ)
        → class_names program.now.symbols (lookup (nat_eq place) made.entries)
        ≡ classes_made_at (named_tree program.now) place) }
{
    let mut made = IndexMap::new(alloc);
    let mut index = 0;
    while let Some(instruction) = program.instruction(index) {
        add_instruction(alloc, &mut made, instruction)?;
        index += 1;
    }
    Ok(made)
}

/// Adds the class of which an instruction makes an object, if it makes one.
fn add_instruction(
    alloc: Global,
    made: &mut IndexMap<u32, Vec<Symbol>>,
    instruction: &Instruction,
) -> Result<(), AllocError>
    ensures { (names : List Name) → OnOk result
        (InstructionAdded names (instruction_tree names instruction.now) made.old.entries made.new.entries) }
{
    match &instruction.effect {
        Effect::Make { class, .. } => add(alloc, made, instruction.place, *class),
        _ => Ok(()),
    }
}

/// Adds a class that is made at a place.
fn add(
    alloc: Global,
    made: &mut IndexMap<u32, Vec<Symbol>>,
    place: u32,
    class: Symbol,
) -> Result<(), AllocError>
    ensures { OnOk result (ClassAdded place class made.old.entries made.new.entries) }
{
    made.entry(place)?.or_insert(Vec::new(alloc)).push(class)?;
    Ok(())
}
