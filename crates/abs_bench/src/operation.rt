//! The operations on values that are measured.
use crate::failure::Failure;
use crate::lists::{cons, list_of};
use abs_values::{Value, value_depth, value_equal, value_size};
use std::alloc::Global;

/// An operation on lists. Each begins with a copy, which is dropped in the end: counting the copies cannot be left out,
/// and without it the compiler would find once what is the same each time.
#[derive(Clone, Copy, Debug, PartialEq, Eq)]
pub(crate) enum Operation {
    /// Makes a copy, which shares its parts. It gives 1.
    Copy,
    /// Gives the sum of the size and the depth of a copy.
    Size,
    /// Makes a list of a number and a copy. It gives its size.
    Construct,
    /// Compares a list with a copy of another one of the same numbers, which shares nothing with it. It gives 1 if they
    /// are the same.
    Equal,
}

impl Operation {
    /// The operation that a word of the command line names.
    pub(crate) fn named(word: &str) -> Option<Operation> {
        match word {
            "copy" => Some(Operation::Copy),
            "size" => Some(Operation::Size),
            "construct" => Some(Operation::Construct),
            "equal" => Some(Operation::Equal),
            _ => None,
        }
    }

    /// Does the operation once on these two lists, or on the first one.
    ///
    /// # Errors
    /// [`Failure::Usage`] if a list that it makes is past a limit of values, and [`Failure::Memory`] if memory runs
    /// out.
    fn once(self, alloc: Global, list: &Value, other: &Value) -> Result<u64, Failure> {
        match self {
            Operation::Copy => {
                let _copy = list.share()?;
                Ok(1)
            }
            Operation::Size => {
                let copy = list.share()?;
                Ok(value_size(&copy).wrapping_add(value_depth(&copy)))
            }
            Operation::Construct => {
                let longer = cons(alloc, 1, list.share()?)?;
                Ok(value_size(&longer))
            }
            Operation::Equal => {
                let copy = other.share()?;
                Ok(u64::from(value_equal(list, &copy)))
            }
        }
    }
}

/// The sum of what an operation gives on two lists of the same `size` numbers, which is done `count` times.
///
/// # Errors
/// [`Failure::Usage`] if a list is past a limit of values, and [`Failure::Memory`] if memory runs out.
pub(crate) fn sum_of(
    alloc: Global,
    operation: Operation,
    size: u32,
    count: u32,
) -> Result<u64, Failure> {
    let list = list_of(alloc, size)?;
    let other = list_of(alloc, size)?;
    let mut sum: u64 = 0;
    for _ in 0..count {
        sum = sum.wrapping_add(operation.once(alloc, &list, &other)?);
    }
    Ok(sum)
}
