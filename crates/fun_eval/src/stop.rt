//! Why an evaluation ends without a value.
ghost use Rattle.std.specs.Prelude.{◌≡◌};
ghost use Rattle.fun_eval.specs.declared.stop.Stop.TheVariants.{Memory};

use abs_values::Fault;
use std::alloc::{AllocError, AllocFailed};

/// Why an expression gives no value. It leaves all that encloses the expression at once.
#[derive(Clone, Copy, Debug, PartialEq, Eq)]
pub enum Stop {
    /// The fault that ends the evaluation.
    Fault(Fault),
    /// An allocation failed.
    Memory,
}

impl From<AllocError> for Stop {
    ghost from_gives = { λ _ stop. stop ≡ Memory };

    fn from(_: AllocError) -> Stop {
        Stop::Memory
    }
}

impl<T: Drop> From<AllocFailed<T>> for Stop {
    ghost from_gives = { λ _ stop. stop ≡ Memory };

    fn from(_: AllocFailed<T>) -> Stop {
        Stop::Memory
    }
}
