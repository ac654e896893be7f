//! Which nodes of any graph reach which. Two nodes of one component reach each other. Between components the table of
//! the graph of roots tells, which has no cycle.
ghost use Rattle.std.specs.Prelude.{◌≡◌, ◌<◌, length, IfOk};
ghost use Rattle.abs_graph.specs.Graphs.{HasNodes, reaches as reaches_by};
ghost use Rattle.abs_graph.specs.RootEdges.{AreRootEdges, AreRootsAdded, HasNoEdges};
ghost use Rattle.abs_graph.specs.Views.{graph_of};

use crate::closure::{Closure, closure_of};
use crate::components::{Components, split};
use crate::cycles::{checked_places, stays};
use crate::marked::is_marked;
use std::alloc::{AllocError, Global};
use std::marker::Model;

/// The table of a graph: it tells in constant time whether a node reaches another one.
#[derive(Drop)]
pub struct Reach {
    components: Components,
    on_cycle: Vec<bool>,
    closure: Closure,
}

impl Model for Reach {
    ghost use Rattle.std.specs.Prelude.{◌≡◌};
    ghost use Rattle.abs_graph.specs.Graphs.{Graph, on_cycles};
    ghost use Rattle.abs_graph.specs.RootEdges.{AreRootEdges};
    ghost use Rattle.abs_graph.specs.Views.{graph_of};

    ghost Value = { Graph };

    ghost view = { λ reach. graph_of reach.components.graph.items };

    ghost invariant = { λ reach.
        AreRootEdges (graph_of reach.components.graph.items) reach.components.roots.items reach.closure
        × (reach.on_cycle.items ≡ on_cycles (graph_of reach.components.graph.items)) };
}

/// A graph of some nodes, without edges.
///
/// # Errors
/// [`AllocError`] if an allocation fails.
fn no_edges(alloc: Global, nodes: usize) -> Result<Vec<Vec<u32>>, AllocError>
    ensures { IfOk result (λ edges. HasNoEdges nodes (graph_of edges.items)) }
{
    let mut edges = Vec::with_capacity(alloc, nodes)?;
    for _ in 0..nodes {
        edges.push(Vec::new(alloc))?;
    }
    Ok(edges)
}

/// Adds an edge from a root to the root of each node of a row, where that is another one.
///
/// # Errors
/// [`AllocError`] if an allocation fails.
fn add_roots(
    components: &Components,
    from: u32,
    row: &[u32],
    edges: &mut [Vec<u32>],
) -> Result<(), AllocError>
    requires { from < length edges.old }
    ensures { IfOk result (λ _. AreRootsAdded components.now.roots.items from row.now
        (graph_of edges.old) (graph_of edges.new)) }
{
    for next in row {
        let root = components.root(*next);
        if root != from {
            edges[from as usize].push(root)?;
        }
    }
    Ok(())
}

/// Adds the edges of the graph of roots.
///
/// # Errors
/// [`AllocError`] if an allocation fails.
fn add_rows(components: &Components, edges: &mut [Vec<u32>]) -> Result<(), AllocError>
    requires { HasNoEdges (length components.now.graph.items) (graph_of edges.old) }
    ensures { IfOk result (λ _. AreRootEdges (graph_of components.now.graph.items) components.now.roots.items
        (graph_of edges.new)) }
{
    for (node, row) in components.graph.iter().enumerate() {
        add_roots(components, components.roots[node], row.as_slice(), edges)?;
    }
    Ok(())
}

/// The graph of roots.
///
/// # Errors
/// [`AllocError`] if an allocation fails.
fn root_edges(alloc: Global, components: &Components) -> Result<Vec<Vec<u32>>, AllocError>
    ensures { IfOk result (λ edges. AreRootEdges (graph_of components.now.graph.items) components.now.roots.items
        (graph_of edges.items)) }
{
    let mut edges = no_edges(alloc, components.graph.len())?;
    add_rows(components, edges.as_mut_slice())?;
    Ok(edges)
}

/// The table of a graph, which has for each node the nodes to which an edge leads.
///
/// # Errors
/// [`AllocError`] if an allocation fails, or if the check refuses what the search found, which does not happen.
pub fn reach_of(alloc: Global, graph: &[Vec<u32>]) -> Result<Reach, AllocError>
    requires { HasNodes (graph_of graph.now) }
    ensures { IfOk result (λ found. found ≡ graph_of graph.now) }
{
    let places = checked_places(alloc, graph)?;
    let on_cycle = stays(alloc, graph, places.as_slice())?;
    let components = split(alloc, graph, places.as_slice())?;
    let edges = root_edges(alloc, &components)?;
    let closure = closure_of(alloc, edges.as_slice())?;
    Ok(Reach {
        components,
        on_cycle,
        closure,
    })
}

impl Reach {
    /// Whether a node reaches another one, in one step or in more.
    pub fn reaches(&self, one: u32, other: u32) -> bool
        ensures { result ≡ reaches_by self.now one other }
    {
        let root = self.components.root(one);
        let goal = self.components.root(other);
        if root != goal {
            return self.closure.reaches(root, goal);
        }
        if one != other {
            return true;
        }
        is_marked(self.on_cycle.as_slice(), one as usize)
    }
}
