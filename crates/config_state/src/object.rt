//! Objects and their fields.
ghost use Rattle.std.specs.Prelude.{◌≡◌, ◌<◌, ◌^◌, ◌==◌, length, slice_get, Some};

use abs_tree::Symbol;
use abs_values::Values;
use std::marker::Model;

/// An object, which is known by its index in the configuration.
#[derive(Drop)]
pub struct ObjectCell {
    /// The cog that it is in.
    pub cog: u32,
    /// The offset of the statement that made it.
    pub place: u32,
    /// Its class.
    pub class: Symbol,
    /// The values of its fields. Those of the class parameters come first.
    pub fields: Values,
}

/// The objects of a configuration, of which there are fewer than 2 to the power of 32. Contracts see their list.
#[derive(Drop)]
pub struct Objects {
    pub items: Vec<ObjectCell>,
}

impl Model for Objects {
    ghost use Rattle.std.specs.Coded.{coded_list};
    ghost use Rattle.std.specs.Prelude.{◌<◌, ◌^◌, List, length};
    ghost use Rattle.config_state.specs.Codes.{object_code};
    ghost use Rattle.config_state.specs.declared.object.ObjectCell.{ObjectCell};

    ghost Value = { List ObjectCell };

    ghost coded = { coded_list object_code };

    ghost view = { λ o. o.items.items };

    ghost invariant = { λ o. length o.items.items < 2 ^ 32 };
}

impl Objects {
    /// The number of objects.
    pub fn len(&self) -> usize
        ensures is { result ≡ length self.now }
        ensures few { result < 2 ^ 32 }
    {
        self.items.len()
    }

    /// Whether there is no object.
    pub fn is_empty(&self) -> bool
        ensures { result ≡ (length self.now == 0) }
    {
        self.items.is_empty()
    }

    /// The object with an index.
    pub fn at(&self, index: usize) -> &ObjectCell
        requires { index < length self.now }
        ensures { slice_get self.now index ≡ Some result.now }
    {
        &self.items[index]
    }
}
