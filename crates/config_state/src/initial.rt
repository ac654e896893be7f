//! The configuration in which each run begins.
ghost use Rattle.std.specs.Prelude.{◌≡◌, IfOk};
ghost use Rattle.abs_program.specs.NamedViews.{program_tree};
ghost use Rattle.config_state.specs.First.{first as first_of};
ghost use Rattle.config_state.specs.OfProgram.{IsConfigOf};
ghost use Rattle.config_state.specs.ConfigViews.{configuration};

use crate::{Cog, Cogs, Config, Frame, Frames, Objects, State, Target, TaskCell, Tasks};
use abs_program::Named;
use abs_values::Values;
use std::alloc::{AllocError, Global};

/// The first configuration of a program: the task of the main block is ready, with null in each slot, and nobody holds
/// its cog.
///
/// # Errors
/// [`AllocError`] if an allocation fails.
pub fn first(alloc: Global, program: &Named<'_>) -> Result<Config, AllocError>
    ensures is_first { IfOk result (λ config. configuration program.now.symbols config
        ≡ first_of (program_tree program.now)) }
    ensures of_program { IfOk result (λ config. ∥ IsConfigOf (program_tree program.now)
        (configuration program.now.symbols config) ∥₁) }
{
    let main = program.main_body();
    let frame = Frame {
        method: None,
        object: None,
        slots: Values::nulls(alloc, main.slots as usize)?,
        next: main.first,
        target: Target::Nothing,
    };
    let task = TaskCell {
        cog: 0,
        object: None,
        method: None,
        call: None,
        frames: Frames {
            items: vec![in alloc; frame]?,
        },
        state: State::Ready,
        outcome: None,
    };
    let cog = Cog {
        parent: None,
        place: 0,
        holder: None,
    };
    Ok(Config {
        cogs: Cogs {
            items: vec![in alloc; cog]?,
        },
        objects: Objects {
            items: Vec::new(alloc),
        },
        tasks: Tasks {
            items: vec![in alloc; task]?,
        },
    })
}
