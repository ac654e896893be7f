//! Lists of pairs.
ghost use Rattle.std.specs.List.Sorted.{IsStrictlySortedBy};
ghost use Rattle.std.specs.Prelude.{◌≡◌, ◌<◌, length, slice_get, Some};
ghost use Rattle.contract_terms.specs.Pairs.{pair_order};

use contract_terms::Pair;
use std::marker::Model;

/// Pairs in ascending order, each once.
#[derive(Drop)]
pub struct Pairs {
    pub(crate) pairs: Vec<Pair>,
}

impl Model for Pairs {
    ghost use Rattle.std.specs.List.Sorted.{IsStrictlySortedBy};
    ghost use Rattle.std.specs.Prelude.{List};
    ghost use Rattle.contract_terms.specs.Pairs.{pair_order};
    ghost use Rattle.contract_terms.specs.declared.pair.Pair.{Pair as One};

    ghost Value = { List One };

    ghost view = { λ pairs. pairs.pairs.items };

    ghost invariant = { λ pairs. IsStrictlySortedBy pair_order pairs.pairs.items };
}

impl Pairs {
    /// How many there are.
    pub fn len(&self) -> usize
        ensures count { result ≡ length self.now }
        ensures rises { IsStrictlySortedBy pair_order self.now }
    {
        self.pairs.len()
    }

    /// The pair at an index.
    pub fn at(&self, index: usize) -> &Pair
        requires { index < length self.now }
        ensures { slice_get self.now index ≡ Some result.now }
    {
        &self.pairs[index]
    }
}
