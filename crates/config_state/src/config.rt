//! A whole configuration.
ghost use Rattle.std.specs.Prelude.{List};
ghost use Rattle.abs_tree.specs.Syntax.{Name};
ghost use Rattle.config_state.specs.Views.{configuration_of};
ghost use Rattle.config_state.specs.WellFormed.{IsWellFormed};

use crate::{Cogs, Objects, Tasks};

/// What there is at a moment of a run. In each configuration that a legal history reaches, task 0 is that of the main
/// block, in cog 0 (`events_keep_configurations` of step_rules).
#[derive(Drop)]
pub struct Config {
    pub cogs: Cogs,
    pub objects: Objects,
    pub tasks: Tasks,
    pub ghost well_formed: { ∥ ((names : List Name) → IsWellFormed (configuration_of names cogs objects tasks)) ∥₁ },
}
