//! The task that moves, where it is.
use abs_program::{Instruction, Named};
use config_state::{Config, Frame, TaskCell};

/// A task that runs, with its innermost frame and its next statement.
#[derive(Clone, Copy)]
pub(crate) struct Mover<'a> {
    pub program: &'a Named<'a>,
    pub config: &'a Config,
    pub cell: &'a TaskCell,
    pub frame: &'a Frame,
    pub instruction: &'a Instruction,
}
