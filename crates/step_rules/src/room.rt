//! Room in lists: it is made before anything changes, and then an entry is added without an error.
ghost use Rattle.std.specs.Prelude.{◌≡◌, ◌+◌, ◌<◌, ◌^◌, vec_len, vec_capacity, IsSome, OnOk, OnErr};
ghost use Rattle.step_rules.specs.Changes.{added};

use std::alloc::AllocError;

/// The most entries that a list may have.
const MOST: usize = 4_294_967_295;

/// Makes room for one more entry. The list stays as it is.
///
/// # Errors
/// [`AllocError`] if an allocation fails, or if the list has as many entries already as it may have.
pub(crate) fn reserve_one<T>(items: &mut Vec<T>) -> Result<(), AllocError>
    ensures items { items.new.items ≡ items.old.items }
    ensures len { vec_len items.new ≡ vec_len items.old }
    ensures room { OnOk result (vec_len items.new < vec_capacity items.new) }
    ensures few { OnOk result (vec_len items.new + 1 < 2 ^ 32) }
{
    if items.len() >= MOST {
        return Err(AllocError);
    }
    items.reserve(1)
}

/// Makes room for an entry, if there is one. The list stays as it is.
///
/// # Errors
/// [`AllocError`] if an allocation fails, or if the list has as many entries already as it may have.
pub(crate) fn make_room<T>(items: &mut Vec<T>, entry: &Option<T>) -> Result<(), AllocError>
    ensures items { items.new.items ≡ items.old.items }
    ensures len { vec_len items.new ≡ vec_len items.old }
    ensures room { OnOk result (IsSome entry.now → vec_len items.new < vec_capacity items.new) }
    ensures few { OnOk result (IsSome entry.now → vec_len items.new + 1 < 2 ^ 32) }
    ensures err { OnErr result (IsSome entry.now) }
{
    match entry {
        Some(_) => reserve_one(items),
        None => Ok(()),
    }
}

/// Adds an entry, if there is one. There is room for it.
pub(crate) fn add<T>(items: &mut Vec<T>, entry: Option<T>)
    requires { IsSome entry → vec_len items.old < vec_capacity items.old }
    ensures { items.new.items ≡ added entry items.old.items }
{
    if let Some(entry) = entry {
        items.push_reserved(entry);
    }
}
