//! The way back to a pair: the first one of the shortest closed chains.
ghost use Rattle.std.specs.List.Sorted.{IsStrictlySortedBy};
ghost use Rattle.std.specs.Prelude.{◌≡◌, ◌↔◌, true, ℕ, List, IfOk, Some, slice_get};
ghost use Rattle.abs_graph.specs.Graphs.{successors};
ghost use Rattle.abs_graph.specs.Views.{graph_of};
ghost use Rattle.abs_tree.specs.Syntax.{ProgramTree};
ghost use Rattle.circularity_test.specs.Distances.{distance_of};
ghost use Rattle.circularity_test.specs.Network.{IsNetwork, led_to};
ghost use Rattle.circularity_test.specs.Routes.{AreWays, IsAway, IsFirst, IsNear, IsWayBack, StepsAt, StepsTo, Walked, is_sooner, sooner};
ghost use Rattle.contract_terms.specs.Pairs.{pair_order};
ghost use Rattle.contract_terms.specs.declared.pair.Mode.TheVariants.{Get};
ghost use Rattle.contract_terms.specs.declared.pair.Pair.{Pair};

use crate::distances::{Distances, distances_to};
use crate::network::Network;
use std::alloc::{AllocError, Global};

/// The row of a table at an index. It is empty past the end.
fn row(table: &[Vec<usize>], index: usize) -> &[usize]
    ensures { result.now ≡ successors (graph_of table.now) index }
{
    match table.get(index) {
        Some(row) => row.as_slice(),
        None => &[],
    }
}

/// The lesser one of two numbers that may be there.
fn least(one: Option<usize>, other: Option<usize>) -> Option<usize>
    ensures { result ≡ sooner one other }
{
    match (one, other) {
        (Some(first), Some(second)) => Some(if second < first { second } else { first }),
        (Some(first), None) => Some(first),
        (None, second) => second,
    }
}

/// Whether a number comes before another one that may be there.
fn comes_before(one: usize, other: Option<usize>) -> bool
    ensures { result ≡ is_sooner one other }
{
    match other {
        Some(second) => one < second,
        None => true,
    }
}

/// The least distance of some nodes.
fn nearest(far: &Distances, nodes: &[usize]) -> Option<usize>
    ensures { IsFirst (IsNear (distance_of far.now) nodes.now) result }
{
    let mut found = None;
    for node in nodes {
        found = least(found, far.of(*node));
    }
    found
}

/// Whether one of some nodes has a distance.
fn is_near(far: &Distances, nodes: &[usize], distance: usize) -> bool
    ensures { (result ≡ true) ↔ IsNear (distance_of far.now) nodes.now distance }
{
    for node in nodes {
        if far.of(*node) == Some(distance) {
            return true;
        }
    }
    false
}

impl Network {
    /// The indices of the first one of the shortest closed chains that begin with the `get` at an index, and whose last
    /// link, into it, is held.
    ///
    /// # Errors
    /// [`AllocError`] if an allocation fails.
    pub(crate) fn way_back(
        &self,
        alloc: Global,
        first: usize,
    ) -> Result<Option<Vec<usize>>, AllocError>
        ensures { (program : ProgramTree) (pairs : List Pair) (get : Pair) → IsNetwork program pairs self.now
            → IsStrictlySortedBy pair_order pairs → slice_get pairs first ≡ Some get → get.mode ≡ Get
            → IfOk result (IsWayBack program pairs get) }
    {
        let Some(goal) = self.entries.get(first) else {
            return Ok(None);
        };
        let starts = row(self.exits.as_slice(), first);
        let far = distances_to(alloc, self.before.as_slice(), *goal, starts)?;
        let Some(distance) = nearest(&far, starts) else {
            return Ok(None);
        };
        let chain = self.way(alloc, &far, first, distance)?;
        Ok(Some(chain))
    }

    /// The least index of a pair that waits at a node and leads to one with a distance.
    fn next_at(&self, far: &Distances, number: usize, left: usize) -> Option<usize>
        ensures { IsFirst (StepsAt self.now (distance_of far.now) left number) result }
    {
        let mut found = None;
        for index in row(self.members.as_slice(), number) {
            if comes_before(*index, found)
                && is_near(far, row(self.exits.as_slice(), *index), left)
            {
                found = Some(*index);
            }
        }
        found
    }

    /// The least index of a pair that waits at a node to which the last one leads, and that itself leads to one with a
    /// distance.
    fn next(&self, far: &Distances, last: usize, left: usize) -> Option<usize>
        ensures { IsFirst (StepsTo self.now (distance_of far.now) left (led_to self.now last)) result }
    {
        let mut found = None;
        for number in row(self.exits.as_slice(), last) {
            found = least(found, self.next_at(far, *number, left));
        }
        found
    }

    /// The indices of the first way of some length from a pair to a goal.
    ///
    /// # Errors
    /// [`AllocError`] if an allocation fails.
    fn way(
        &self,
        alloc: Global,
        far: &Distances,
        first: usize,
        distance: usize,
    ) -> Result<Vec<usize>, AllocError>
        ensures { (goal : ℕ) (starts : List ℕ) → AreWays self.now goal starts (distance_of far.now)
            → IsAway self.now goal (distance_of far.now) first distance
            → IfOk result (λ chain. Walked self.now (distance_of far.now) first distance chain.items) }
    {
        let mut chain = Vec::new(alloc);
        chain.push(first)?;
        let mut last = first;
        let mut left = distance;
        while left > 0 {
            left -= 1;
            let Some(next) = self.next(far, last, left) else {
                return Ok(chain);
            };
            chain.push(next)?;
            last = next;
        }
        Ok(chain)
    }
}
