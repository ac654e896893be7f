//! The nodes of a graph from which a marked node is reached. A search follows the edges back from the marked nodes. It
//! adds a node only where an edge leads from it to one that was found. At the end a check tells that none is missing.
ghost use Rattle.std.specs.Prelude.{◌≡◌, true, length, map, set, IfOk};
ghost use Rattle.std.specs.Bool.{OnTrue};
ghost use Rattle.std.specs.List.{list_any, range_with_len};
ghost use Rattle.abs_graph.specs.Graphs.{HasNodes, is_marked as is_marked_of, reach_marked};
ghost use Rattle.abs_graph.specs.Reaching.{KeepsSound, IsClosedAt, IsClosed};
ghost use Rattle.abs_graph.specs.Views.{graph_of};

use crate::certificate::{Arrival, arrivals, edge_end};
use std::alloc::{AllocError, Global};

/// Whether a node is marked.
pub fn is_marked(marked: &[bool], node: usize) -> bool
    ensures { result ≡ is_marked_of marked.now node }
{
    match marked.get(node) {
        Some(is_marked) => *is_marked,
        None => false,
    }
}

/// Marks a node, if there is such a node.
fn mark(marked: &mut [bool], node: usize)
    ensures { marked.new ≡ set marked.old node true }
{
    if node < marked.len() {
        marked[node] = true;
    }
}

/// For each node whether it is marked.
///
/// # Errors
/// [`AllocError`] if an allocation fails.
fn marks(alloc: Global, marked: &[bool], nodes: usize) -> Result<Vec<bool>, AllocError>
    ensures { IfOk result (λ found. found.items ≡ map (is_marked_of marked.now) (range_with_len 0 nodes)) }
{
    let mut found = Vec::with_capacity(alloc, nodes)?;
    for node in 0..nodes {
        found.push(is_marked(marked, node))?;
    }
    Ok(found)
}

/// The nodes that were found.
///
/// # Errors
/// [`AllocError`] if an allocation fails.
fn found_nodes(alloc: Global, found: &[bool]) -> Result<Vec<usize>, AllocError> {
    let mut nodes = Vec::with_capacity(alloc, found.len())?;
    for (node, is_found) in found.iter().enumerate() {
        if *is_found {
            nodes.push(node)?;
        }
    }
    Ok(nodes)
}

/// Finds the node from which an edge leads to a node that was found.
///
/// # Errors
/// [`AllocError`] if an allocation fails.
fn follow(
    graph: &[Vec<u32>],
    node: usize,
    arrival: Arrival,
    found: &mut [bool],
    waiting: &mut Vec<usize>,
) -> Result<(), AllocError>
    requires { HasNodes (graph_of graph.now) }
    ensures { IfOk result (λ _. KeepsSound (graph_of graph.now) found.old found.new) }
{
    let Some(next) = edge_end(graph, arrival.from, arrival.edge) else {
        return Ok(());
    };
    if next == node && is_marked(found, next) && !is_marked(found, arrival.from) {
        waiting.push(arrival.from)?;
        mark(found, arrival.from);
    }
    Ok(())
}

/// Follows the edges to a node back.
///
/// # Errors
/// [`AllocError`] if an allocation fails.
fn follow_back(
    graph: &[Vec<u32>],
    node: usize,
    arrivals: &[Arrival],
    found: &mut [bool],
    waiting: &mut Vec<usize>,
) -> Result<(), AllocError>
    requires { HasNodes (graph_of graph.now) }
    ensures { IfOk result (λ _. KeepsSound (graph_of graph.now) found.old found.new) }
{
    for arrival in arrivals {
        follow(graph, node, *arrival, found, waiting)?;
    }
    Ok(())
}

/// Follows the edges to the nodes that wait back, and to those that are found on the way.
///
/// # Errors
/// [`AllocError`] if an allocation fails.
fn follow_all(
    graph: &[Vec<u32>],
    arrivals: &[Vec<Arrival>],
    found: &mut [bool],
    waiting: &mut Vec<usize>,
) -> Result<(), AllocError>
    requires { HasNodes (graph_of graph.now) }
    ensures { IfOk result (λ _. KeepsSound (graph_of graph.now) found.old found.new) }
{
    for _ in 0..graph.len() {
        let Some(node) = waiting.pop() else {
            break;
        };
        if let Some(row) = arrivals.get(node) {
            follow_back(graph, node, row.as_slice(), found, waiting)?;
        }
    }
    Ok(())
}

/// Whether an edge leads to a node that was found.
fn leads_to_found(found: &[bool], row: &[u32]) -> bool
    ensures { result ≡ list_any (is_marked_of found.now) row.now }
{
    for next in row {
        if is_marked(found, *next as usize) {
            return true;
        }
    }
    false
}

/// Whether a node was found if it is marked, or if an edge leads from it to a found node.
fn is_closed_at(marked: &[bool], found: &[bool], node: usize, row: &[u32]) -> bool
    ensures { OnTrue result (IsClosedAt marked.now found.now node row.now) }
{
    is_marked(found, node) || (!is_marked(marked, node) && !leads_to_found(found, row))
}

/// Whether each marked node was found, and each node with an edge to a found node.
fn is_closed(graph: &[Vec<u32>], marked: &[bool], found: &[bool]) -> bool
    ensures { OnTrue result (IsClosed (graph_of graph.now) marked.now found.now (length graph.now)) }
{
    for (node, row) in graph.iter().enumerate() {
        if !is_closed_at(marked, found, node, row.as_slice()) {
            return false;
        }
    }
    true
}

/// For each node of a graph, whether it is marked or reaches a marked node. The graph has for each node the nodes to
/// which an edge leads. A node past the list of marks is not marked.
///
/// # Errors
/// [`AllocError`] if an allocation fails, or if the check refuses what the search found, which does not happen.
pub fn reaching(alloc: Global, graph: &[Vec<u32>], marked: &[bool]) -> Result<Vec<bool>, AllocError>
    requires nodes { HasNodes (graph_of graph.now) }
    ensures { IfOk result (λ found. found.items ≡ reach_marked (graph_of graph.now) marked.now) }
{
    let mut found = marks(alloc, marked, graph.len())?;
    let mut waiting = found_nodes(alloc, found.as_slice())?;
    let arrivals = arrivals(alloc, graph)?;
    follow_all(
        graph,
        arrivals.as_slice(),
        found.as_mut_slice(),
        &mut waiting,
    )?;
    if !is_closed(graph, marked, found.as_slice()) {
        return Err(AllocError);
    }
    Ok(found)
}
