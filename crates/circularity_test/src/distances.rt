//! How far the nodes of a graph are from a goal: level by level, backwards, until a start is found.
ghost use Rattle.std.specs.Prelude.{◌≡◌, ◌⊎◌, ◌<◌, ◌≤◌, ℕ, suc, true, false, [], ◌∷◌, length, slice_get, IfOk, OnOk, Some};
ghost use Rattle.abs_graph.specs.Graphs.{successors};
ghost use Rattle.abs_graph.specs.Views.{graph_of};
ghost use Rattle.circularity_test.specs.Distances.{AreNear, HasOne, Marks, Spreads, distance_of};

use indexmap::IndexMap;
use std::alloc::{AllocError, Global};

/// The distances of nodes from a goal, in edges.
#[derive(Drop)]
pub(crate) struct Distances {
    /// In the order in which the nodes were found.
    marks: IndexMap<usize, usize>,
}

/// The distances from a goal. They end with the first level at which one of some starts has its distance. The graph is
/// given backwards: for each node, those from which an edge leads to it.
///
/// # Errors
/// [`AllocError`] if an allocation fails. So it is for each function here.
pub(crate) fn distances_to(
    alloc: Global,
    before: &[Vec<usize>],
    goal: usize,
    starts: &[usize],
) -> Result<Distances, AllocError>
    ensures { IfOk result (λ found. AreNear (graph_of before.now) goal starts.now (distance_of found)) }
{
    let mut found = Distances {
        marks: IndexMap::new(alloc),
    };
    found.marks.insert(goal, 0)?;
    let mut begin = 0;
    let mut level = 0;
    while found.is_open(begin, starts) {
        let end = found.marks.len();
        found.follow_level(before, begin, level + 1)?;
        begin = end;
        level += 1;
    }
    Ok(found)
}

impl Distances {
    /// The distance of a node, if it is known.
    pub(crate) fn of(&self, node: usize) -> Option<usize>
        ensures { result ≡ distance_of self.now node }
    {
        self.marks.get(&node).copied()
    }

    /// Whether nodes are left from an index on, and none of the starts was found.
    fn is_open(&self, begin: usize, starts: &[usize]) -> bool
        ensures left { result ≡ true → begin < length self.now.marks.entries }
        ensures done { result ≡ false
            → (length self.now.marks.entries ≤ begin) ⊎ HasOne starts.now self.now.marks.entries }
    {
        begin < self.marks.len() && !self.has_one_of(starts)
    }

    /// Whether one of some nodes has a distance.
    fn has_one_of(&self, nodes: &[usize]) -> bool
        ensures { result ≡ true → HasOne nodes.now self.now.marks.entries }
    {
        for node in nodes {
            if self.marks.contains_key(node) {
                return true;
            }
        }
        false
    }

    /// Gives a distance to the nodes before each node from an index on, where they have none.
    fn follow_level(
        &mut self,
        before: &[Vec<usize>],
        begin: usize,
        distance: usize,
    ) -> Result<(), AllocError>
        requires { begin ≤ length self.old.marks.entries }
        ensures { (goal level : ℕ) → distance ≡ suc level
            → Marks (graph_of before.now) goal level begin (length self.old.marks.entries) self.old.marks.entries
            → OnOk result (Marks (graph_of before.now) goal level (length self.old.marks.entries)
            (length self.old.marks.entries) self.new.marks.entries) }
    {
        for index in begin..self.marks.len() {
            let node = self.node_at(index);
            self.follow(before, node, distance)?;
        }
        Ok(())
    }

    /// The node of an entry.
    fn node_at(&self, index: usize) -> usize
        requires { index < length self.now.marks.entries }
        ensures { (distance : ℕ) × (slice_get self.now.marks.entries index ≡ Some (result, distance)) }
    {
        self.marks.keys().as_slice()[index]
    }

    /// Gives a distance to the nodes before a node, where they have none.
    fn follow(
        &mut self,
        before: &[Vec<usize>],
        node: usize,
        distance: usize,
    ) -> Result<(), AllocError>
        ensures { OnOk result (Spreads (successors (graph_of before.now) node) distance self.old.marks.entries
            self.new.marks.entries) }
    {
        match before.get(node) {
            Some(row) => self.spread(row.as_slice(), distance),
            None => Ok(()),
        }
    }

    /// Gives a distance to some nodes, where they have none.
    fn spread(&mut self, nodes: &[usize], distance: usize) -> Result<(), AllocError>
        ensures { OnOk result (Spreads nodes.now distance self.old.marks.entries self.new.marks.entries) }
    {
        for node in nodes {
            self.mark(*node, distance)?;
        }
        Ok(())
    }

    /// Gives a distance to a node, if it has none.
    fn mark(&mut self, node: usize, distance: usize) -> Result<(), AllocError>
        ensures { OnOk result (Spreads (node ∷ []) distance self.old.marks.entries self.new.marks.entries) }
    {
        if !self.marks.contains_key(&node) {
            self.marks.insert(node, distance)?;
        }
        Ok(())
    }
}
