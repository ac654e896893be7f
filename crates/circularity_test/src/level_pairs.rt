//! The pairs that stay in a component of the graph of parts.
ghost use Rattle.std.specs.Prelude.{◌≡◌, ◌<◌, length, slice_get, Some};
ghost use Rattle.circularity_test.specs.Numbers.{HasComponents};

use crate::pair_list::Pairs;

/// The pairs whose target is in the component in which they wait, and the number of this component for each.
#[derive(Drop)]
pub(crate) struct LevelPairs {
    pub(crate) pairs: Pairs,
    pub(crate) components: Vec<u32>,
    pub(crate) ghost numbered: { ∥ HasComponents pairs components.items ∥₁ },
}

impl LevelPairs {
    /// The number of the component of the pair at an index.
    pub(crate) fn component(&self, index: usize) -> u32
        requires { index < length self.now.pairs }
        ensures { slice_get self.now.components.items index ≡ Some result }
    {
        self.components[index]
    }
}
