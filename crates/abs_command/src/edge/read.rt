//! Reads what is left of a source, up to the limit on its size.
ghost use Rattle.std.specs.Prelude.{◌≡◌, ℕ, ◌≤◌, List, IfOk, OnOk, OnErr, IsErrOf};
ghost use Rattle.abs_outside.specs.Counts.{Rose};
ghost use Rattle.abs_command.specs.Bytes.{TakesWhole, TakesSome};
ghost use Rattle.abs_command.specs.declared.edge.read.ReadError.TheVariants.{Memory};

use abs_outside::{Failed, Source};
use abs_tree::limits::SOURCE_LIMIT;
use std::alloc::{AllocError, Global};
use thiserror::Error;

/// Why a source was not read to its end.
#[derive(Clone, Copy, Debug, PartialEq, Eq, Error)]
pub enum ReadError {
    /// The source failed.
    #[error("the source failed")]
    Failed,
    /// An allocation failed.
    #[error("memory ran out")]
    Memory,
}

impl From<AllocError> for ReadError {
    ghost from_gives = { λ _ e. e ≡ Memory };

    fn from(_: AllocError) -> Self {
        ReadError::Memory
    }
}

/// All that is left of the source. Of more than [`SOURCE_LIMIT`] bytes it is a prefix, one byte longer than the limit.
///
/// # Errors
/// [`ReadError::Failed`] if a read failed, and [`ReadError::Memory`] if an allocation fails.
pub fn read_rest<S: Source>(alloc: Global, source: &mut S) -> Result<Vec<u8>, ReadError>
    ensures whole { IfOk result (λ bytes. TakesWhole (S.left source.old) (S.left source.new) bytes.items) }
    ensures some { OnErr result (TakesSome (S.left source.old) (S.left source.new)) }
    ensures counted { IsErrOf result ReadError.Failed → Rose (S.faults source.old) (S.faults source.new) }
    ensures never_falls { S.faults source.old ≤ S.faults source.new }
    ensures same_missing { S.missing source.new ≡ S.missing source.old }
    ensures same_names { (name : List ℕ) → S.under source.new name ≡ S.under source.old name }
{
    let mut bytes = Vec::new(alloc);
    let mut buffer = [0u8; 4096];
    while bytes.len() <= SOURCE_LIMIT {
        let room = buffer.len().min(SOURCE_LIMIT + 1 - bytes.len());
        let count = match source.read(&mut buffer[..room]) {
            Ok(count) => count,
            Err(Failed) => return Err(ReadError::Failed),
        };
        if count == 0 {
            break;
        }
        bytes.extend_from_slice(&buffer[..count])?;
    }
    Ok(bytes)
}
