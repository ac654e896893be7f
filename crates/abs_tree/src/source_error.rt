//! Why a stage gives no result for a source: the source is refused, or it ran out of memory.
ghost use Rattle.std.specs.Prelude.{◌≡◌};
ghost use Rattle.abs_tree.specs.declared.source_error.SourceError.TheVariants.{Memory};

use crate::Refusal;
use std::alloc::{AllocError, AllocFailed};
use thiserror::Error;

/// Why a stage that reads a source gives no result. Each stage exports it under a name of its own.
#[derive(Clone, Copy, Debug, PartialEq, Eq, Error)]
pub enum SourceError {
    /// The source has an offence of the kind that the stage looks for; this is the refusal for the first one.
    #[error("the source is refused")]
    Refused(Refusal),
    /// An allocation failed.
    #[error("out of memory")]
    Memory,
}

impl From<AllocError> for SourceError {
    ghost from_gives = { λ _ e. e ≡ Memory };

    fn from(_: AllocError) -> Self {
        SourceError::Memory
    }
}

impl<T: Drop> From<AllocFailed<T>> for SourceError {
    ghost from_gives = { λ _ e. e ≡ Memory };

    fn from(_: AllocFailed<T>) -> Self {
        SourceError::Memory
    }
}
