//! Where the members of declarations are.
ghost use Rattle.std.specs.Prelude.{◌≡◌, IfOk};

use std::alloc::AllocError;

/// Where a field of a class is.
#[derive(Clone, Copy, Debug, PartialEq, Eq)]
pub enum FieldAt {
    /// A parameter of the class, by its index among them.
    Param(u32),
    /// A field among the members, by its index among them.
    Member(u32),
}

/// A method that an interface declares: the index of the interface among the declarations, and that of the method among
/// the signatures of the interface.
#[derive(Clone, Copy, Debug, PartialEq, Eq)]
pub struct SignatureAt {
    pub interface: u32,
    pub index: u32,
}

/// A number in 32 bits, as the tables keep it.
///
/// # Errors
/// [`AllocError`] if it takes more bits.
pub(crate) fn in_32_bits(number: usize) -> Result<u32, AllocError>
    ensures { IfOk result (λ kept. kept ≡ number) }
{
    match u32::try_from(number) {
        Ok(kept) => Ok(kept),
        Err(_) => Err(AllocError),
    }
}
