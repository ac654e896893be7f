//! Cogs (concurrent object groups): of the tasks of a cog, its holder alone makes steps.
ghost use Rattle.std.specs.Prelude.{◌≡◌, ◌<◌, ◌^◌, ◌==◌, length, slice_get, Some};

use std::marker::Model;

/// A cog, which is known by its index in the configuration.
#[derive(Drop)]
pub struct Cog {
    /// The cog of the task that made it. Cog 0 has none.
    pub parent: Option<u32>,
    /// The offset of the statement that made it; 0 for cog 0.
    pub place: u32,
    /// The task that holds it, if one does.
    pub holder: Option<u32>,
}

/// The cogs of a configuration, of which there are fewer than 2 to the power of 32. Contracts see their list.
#[derive(Drop)]
pub struct Cogs {
    pub items: Vec<Cog>,
}

impl Model for Cogs {
    ghost use Rattle.std.specs.Prelude.{◌<◌, ◌^◌, List, length};
    ghost use Rattle.config_state.specs.declared.cog.Cog.{Cog};

    ghost Value = { List Cog };

    ghost view = { λ c. c.items.items };

    ghost invariant = { λ c. length c.items.items < 2 ^ 32 };
}

impl Cogs {
    /// The number of cogs.
    pub fn len(&self) -> usize
        ensures is { result ≡ length self.now }
        ensures few { result < 2 ^ 32 }
    {
        self.items.len()
    }

    /// Whether there is no cog.
    pub fn is_empty(&self) -> bool
        ensures { result ≡ (length self.now == 0) }
    {
        self.items.is_empty()
    }

    /// The cog with an index.
    pub fn at(&self, index: usize) -> &Cog
        requires { index < length self.now }
        ensures { slice_get self.now index ≡ Some result.now }
    {
        &self.items[index]
    }
}
