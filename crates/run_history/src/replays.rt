//! Replay: the run of a history.
ghost use Rattle.std.specs.Prelude.{◌≡◌, ℕ, Some, IfOk};
ghost use Rattle.abs_program.specs.NamedViews.{program_tree};
ghost use Rattle.config_state.specs.ConfigViews.{configuration};
ghost use Rattle.config_state.specs.OfProgram.{IsConfigOf};
ghost use Rattle.run_history.specs.Replays.{IsFirstIllegal};
ghost use Rattle.run_history.specs.declared.replays.Replayed.TheVariants.{Illegal, Legal};
ghost use Rattle.step_rules.specs.Runs.{run_of};

use crate::History;
use abs_program::Named;
use config_state::{Config, Lines, first};
use std::alloc::{AllocError, Global};
use step_rules::{has_step, step};

/// What became of a history.
#[derive(Drop)]
pub enum Replayed {
    /// It is legal: where its run leads, and what the run prints.
    Legal(Config, Lines),
    /// It is not: the index of its first event that does not exist, counted from 0.
    Illegal(u64),
}

/// Runs the events of a history.
///
/// # Errors
/// [`AllocError`] if an allocation fails, or if a list of the configuration has as many entries already as it may have.
pub fn replay(alloc: Global, program: &Named<'_>, history: &History) -> Result<Replayed, AllocError>
    ensures legal { IfOk result (λ replayed. (config : Config) (lines : Lines) → replayed ≡ Legal config lines
        → run_of (program_tree program.now) history.now.tasks
        ≡ Some (record { config = configuration program.now.symbols config; lines = lines })) }
    ensures of_program { IfOk result (λ replayed. (config : Config) (lines : Lines) → replayed ≡ Legal config lines
        → ∥ IsConfigOf (program_tree program.now) (configuration program.now.symbols config) ∥₁) }
    ensures illegal { IfOk result (λ replayed. (index : ℕ) → replayed ≡ Illegal index
        → IsFirstIllegal (program_tree program.now) history.now.tasks index) }
{
    let mut config = first(alloc, program)?;
    let mut lines = Lines {
        items: Vec::new(alloc),
    };
    for index in 0..history.len() {
        let task = history.at(index);
        if task as usize >= config.tasks.len() || !has_step(program, &config, task) {
            return Ok(Replayed::Illegal(index));
        }
        step(alloc, program, &mut config, task, &mut lines)?;
    }
    Ok(Replayed::Legal(config, lines))
}
