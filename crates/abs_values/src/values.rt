//! Values in order, which are owned: what a body, an object or a list of expressions has.
ghost use Rattle.std.specs.Prelude.{◌≡◌, ◌<◌, ◌==◌, ◌++◌, ◌∷◌, [], length, map, slice_get, slice_set, replicate, Some, IfOk, OnOk, OnErr};
ghost use Rattle.abs_values.specs.ValueTrees.{NullValue};
ghost use Rattle.abs_values.specs.ValueViews.{value_tree};

use crate::Value;
use std::alloc::{AllocError, Global};
use std::marker::Model;

/// Values in order, which it owns. Contracts see the list of their trees.
#[derive(Drop)]
pub struct Values {
    items: Vec<Value>,
}

impl Model for Values {
    ghost use Rattle.std.specs.Prelude.{List, map};
    ghost use Rattle.std.specs.Coded.{coded_list};
    ghost use Rattle.abs_values.specs.ValueCodes.{value_code};
    ghost use Rattle.abs_values.specs.ValueTrees.{ValueTree};
    ghost use Rattle.abs_values.specs.ValueViews.{value_tree};

    ghost Value = { List ValueTree };

    ghost coded = { coded_list value_code };

    ghost view = { λ v. map value_tree v.items.items };
}

impl Values {
    /// These values in their order.
    pub fn new(items: Vec<Value>) -> Values
        ensures { result ≡ map value_tree items.items }
    {
        Values { items }
    }

    /// As many values as `count`, each of them `null`.
    ///
    /// # Errors
    /// [`AllocError`] if an allocation fails.
    pub fn nulls(alloc: Global, count: usize) -> Result<Values, AllocError>
        ensures { IfOk result (λ values. values ≡ replicate count NullValue) }
    {
        let mut items = Vec::with_capacity(alloc, count)?;
        for _ in 0..count {
            items.push(Value::Null)?;
        }
        Ok(Values::new(items))
    }

    /// The number of values.
    pub fn len(&self) -> usize
        ensures { result ≡ length self.now }
    {
        self.items.len()
    }

    /// Whether there is no value.
    pub fn is_empty(&self) -> bool
        ensures { result ≡ (length self.now == 0) }
    {
        self.items.is_empty()
    }

    /// The value at an index.
    pub fn at(&self, index: usize) -> &Value
        requires { index < length self.now }
        ensures { slice_get self.now index ≡ Some (value_tree result.now) }
    {
        &self.items[index]
    }

    /// The values in order.
    pub fn as_slice(&self) -> &[Value]
        ensures { map value_tree result.now ≡ self.now }
    {
        self.items.as_slice()
    }

    /// Replaces the value at an index. It takes no memory.
    pub fn set(&mut self, index: usize, value: Value)
        requires { index < length self.old }
        ensures { self.new ≡ slice_set self.old index (value_tree value) }
    {
        self.items[index] = value;
    }

    /// Adds a value at the end.
    ///
    /// # Errors
    /// [`AllocError`] if an allocation fails. The values are unchanged then.
    pub fn push(&mut self, value: Value) -> Result<(), AllocError>
        ensures ok { OnOk result (self.new ≡ self.old ++ value_tree value ∷ []) }
        ensures err { OnErr result (self.new ≡ self.old) }
    {
        self.items.push(value)?;
        Ok(())
    }

    /// The values as a vector.
    pub fn into_items(self) -> Vec<Value>
        ensures { map value_tree result.items ≡ self }
    {
        self.items
    }

    /// A copy of the values. Its cost is linear in their count, whatever the size of the values.
    ///
    /// # Errors
    /// [`AllocError`] if an allocation fails.
    pub fn copied(&self, alloc: Global) -> Result<Values, AllocError>
        ensures { IfOk result (λ values. values ≡ self.now) }
    {
        let mut items = Vec::with_capacity(alloc, self.items.len())?;
        for value in &self.items {
            items.push(value.share()?)?;
        }
        Ok(Values::new(items))
    }
}
