//! The strongly connected components of a graph, as a search found them and the check of `cycles` passed them.
ghost use Rattle.std.specs.Prelude.{◌≡◌, IfOk};
ghost use Rattle.abs_graph.specs.Certificates.{Rises, HasWays};
ghost use Rattle.abs_graph.specs.Components.{AreComponents, root_of, number_of};
ghost use Rattle.abs_graph.specs.Graphs.{HasNodes};
ghost use Rattle.abs_graph.specs.Views.{graph_of};

use crate::certificate::{Place, place_at};
use crate::closure::copy;
use crate::cycles::checked_places;
use std::alloc::{AllocError, Global};

/// The components of a graph: for each node the root and the number of its component.
#[derive(Drop)]
pub struct Components {
    /// The graph.
    pub graph: Vec<Vec<u32>>,
    /// For each node the root of its component.
    pub roots: Vec<u32>,
    /// For each node the number of its component.
    pub numbers: Vec<u32>,
    pub ghost are: { AreComponents (graph_of graph.items) roots.items numbers.items },
}

/// The components of a graph, by the places of its nodes.
///
/// # Errors
/// [`AllocError`] if an allocation fails, or if a node or a number does not fit in 32 bits, which does not happen.
pub fn split(alloc: Global, graph: &[Vec<u32>], places: &[Place]) -> Result<Components, AllocError>
    requires nodes { HasNodes (graph_of graph.now) }
    requires rises { Rises (graph_of graph.now) places.now }
    requires ways { HasWays (graph_of graph.now) places.now }
    ensures { IfOk result (λ found. graph_of found.graph.items ≡ graph_of graph.now) }
{
    let mut roots = vec![in alloc; 0; graph.len()]?;
    let mut numbers = vec![in alloc; 0; graph.len()]?;
    for node in 0..graph.len() {
        let place = place_at(places, node);
        if place.root > u32::MAX as usize || place.component > u32::MAX as usize {
            return Err(AllocError);
        }
        roots[node] = place.root as u32;
        numbers[node] = place.component as u32;
    }
    let graph = copy(alloc, graph)?;
    Ok(Components {
        graph,
        roots,
        numbers,
    })
}

/// The components of a graph, which has for each node the nodes to which an edge leads.
///
/// # Errors
/// [`AllocError`] if an allocation fails, or if the check refuses what the search found, which does not happen.
pub fn components_of(alloc: Global, graph: &[Vec<u32>]) -> Result<Components, AllocError>
    requires { HasNodes (graph_of graph.now) }
    ensures { IfOk result (λ found. graph_of found.graph.items ≡ graph_of graph.now) }
{
    let places = checked_places(alloc, graph)?;
    split(alloc, graph, places.as_slice())
}

impl Components {
    /// The root of a node's component. A number that is no node is its own root.
    pub fn root(&self, node: u32) -> u32
        ensures { result ≡ root_of self.now.roots.items node }
    {
        match self.roots.get(node as usize) {
            Some(root) => *root,
            None => node,
        }
    }

    /// The number of a node's component. No edge leads to a lower number, and one between components leads to a greater
    /// one. That of a number that is no node is 0.
    pub fn number(&self, node: u32) -> u32
        ensures { result ≡ number_of self.now.numbers.items node }
    {
        match self.numbers.get(node as usize) {
            Some(number) => *number,
            None => 0,
        }
    }
}
