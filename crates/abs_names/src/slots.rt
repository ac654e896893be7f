//! The slots of a body, as they are numbered.
ghost use Rattle.std.specs.Prelude.{◌≡◌, ◌≤◌, ◌++◌, ◌∷◌, [], length, map, IfOk, OnOk};
ghost use Rattle.std.specs.List.{range_with_len};
ghost use Rattle.abs_tree.specs.Limits.{table_limit};
ghost use Rattle.abs_program.specs.Slots.{param_slots};

use abs_tree::Slot;
use abs_tree::limits::TABLE_LIMIT;
use std::alloc::{AllocError, Global};

/// The slots of a body so far. There are at most [`TABLE_LIMIT`] of them.
#[derive(Drop)]
pub(crate) struct Slots {
    pub items: Vec<Slot>,
    ghost few: { length items.items ≤ table_limit },
}

impl Slots {
    /// No slots.
    pub fn new(alloc: Global) -> Slots
        ensures { result.items.items ≡ [] }
    {
        Slots {
            items: Vec::new(alloc),
        }
    }

    /// Adds a slot, and returns its number.
    ///
    /// # Errors
    /// [`AllocError`] if an allocation fails, or if there are [`TABLE_LIMIT`] slots already.
    pub fn add(&mut self, slot: Slot) -> Result<u32, AllocError>
        ensures found { IfOk result (λ found. found ≡ length self.old.items.items) }
        ensures added { OnOk result (self.new.items.items ≡ self.old.items.items ++ slot ∷ []) }
    {
        let next = self.items.len();
        if next >= TABLE_LIMIT as usize {
            return Err(AllocError);
        }
        self.items.push(slot)?;
        Ok(next as u32)
    }
}
