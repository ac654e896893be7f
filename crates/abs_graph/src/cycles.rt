//! The nodes of a graph that reach themselves. A search finds the strongly connected components, and what it finds is
//! checked: no edge leads to a component with a lower number, and each node has a way to the root of its component and
//! one from it. A node then reaches itself exactly where an edge leads from it to its own component.
ghost use Rattle.std.specs.Prelude.{◌≡◌, nat_eq, All, IfOk};
ghost use Rattle.std.specs.Bool.{OnTrue};
ghost use Rattle.std.specs.List.{list_any};
ghost use Rattle.abs_graph.specs.Certificates.{place_of, IsRise, Rises, HasToward, HasFrom, HasWays};
ghost use Rattle.abs_graph.specs.Graphs.{HasNodes, on_cycles as on_cycles_of};
ghost use Rattle.abs_graph.specs.Views.{graph_of};

use crate::certificate::{Place, certificate, edge_end, place_at};
use std::alloc::{AllocError, Global};

/// Whether an edge may lead from a node to another one, by their places.
fn is_rise(place: Place, next: Place) -> bool
    ensures { OnTrue result (IsRise place next) }
{
    place.component < next.component
        || (place.component == next.component && place.root == next.root)
}

/// Whether the edges from a node may lead to the nodes of its row.
fn row_rises(places: &[Place], place: Place, row: &[u32]) -> bool
    ensures { OnTrue result (All (λ next. IsRise place (place_of places.now next)) row.now) }
{
    for next in row {
        if !is_rise(place, place_at(places, *next as usize)) {
            return false;
        }
    }
    true
}

/// Whether no edge leads to a component with a lower number.
fn rows_rise(graph: &[Vec<u32>], places: &[Place]) -> bool
    ensures { OnTrue result (Rises (graph_of graph.now) places.now) }
{
    for (node, row) in graph.iter().enumerate() {
        if !row_rises(places, place_at(places, node), row.as_slice()) {
            return false;
        }
    }
    true
}

/// Whether the node is a root, or has an edge to a node of its component that is nearer to the root.
fn has_toward(graph: &[Vec<u32>], places: &[Place], node: usize) -> bool
    ensures { OnTrue result (HasToward (graph_of graph.now) places.now node) }
{
    let place = place_at(places, node);
    if place.root == node {
        return true;
    }
    match edge_end(graph, node, place.toward_edge) {
        Some(next) => {
            let after = place_at(places, next);
            after.root == place.root && after.toward_rank < place.toward_rank
        }
        None => false,
    }
}

/// Whether the node is a root, or has an edge from a node of its component that is nearer to the root.
fn has_from(graph: &[Vec<u32>], places: &[Place], node: usize) -> bool
    ensures { OnTrue result (HasFrom (graph_of graph.now) places.now node) }
{
    let place = place_at(places, node);
    if place.root == node {
        return true;
    }
    match edge_end(graph, place.from_node, place.from_edge) {
        Some(end) => {
            let before = place_at(places, place.from_node);
            end == node && before.root == place.root && before.from_rank < place.from_rank
        }
        None => false,
    }
}

/// Whether each node has a way to the root of its component, and one from it.
fn has_ways(graph: &[Vec<u32>], places: &[Place]) -> bool
    ensures { OnTrue result (HasWays (graph_of graph.now) places.now) }
{
    for node in 0..graph.len() {
        if !has_toward(graph, places, node) || !has_from(graph, places, node) {
            return false;
        }
    }
    true
}

/// Whether an edge leads to a node of this root.
fn has_root(places: &[Place], root: usize, row: &[u32]) -> bool
    ensures { result ≡ list_any (λ next. nat_eq (place_of places.now next).root root) row.now }
{
    for next in row {
        if place_at(places, *next as usize).root == root {
            return true;
        }
    }
    false
}

/// For each node, whether an edge leads from it to a node of its component: it then reaches itself.
///
/// # Errors
/// [`AllocError`] if an allocation fails.
pub fn stays(alloc: Global, graph: &[Vec<u32>], places: &[Place]) -> Result<Vec<bool>, AllocError>
    requires nodes { HasNodes (graph_of graph.now) }
    requires rises { Rises (graph_of graph.now) places.now }
    requires ways { HasWays (graph_of graph.now) places.now }
    ensures { IfOk result (λ found. found.items ≡ on_cycles_of (graph_of graph.now)) }
{
    let mut found = Vec::with_capacity(alloc, graph.len())?;
    for (node, row) in graph.iter().enumerate() {
        found.push(has_root(places, place_at(places, node).root, row.as_slice()))?;
    }
    Ok(found)
}

/// The places of the nodes of a graph, checked.
///
/// # Errors
/// [`AllocError`] if an allocation fails, or if the check refuses what the search found, which does not happen.
pub fn checked_places(alloc: Global, graph: &[Vec<u32>]) -> Result<Vec<Place>, AllocError>
    ensures rises { IfOk result (λ places. Rises (graph_of graph.now) places.items) }
    ensures ways { IfOk result (λ places. HasWays (graph_of graph.now) places.items) }
{
    let places = certificate(alloc, graph)?;
    if !rows_rise(graph, places.as_slice()) || !has_ways(graph, places.as_slice()) {
        return Err(AllocError);
    }
    Ok(places)
}

/// For each node of a graph, whether it reaches itself. The graph has for each node the nodes to which an edge leads.
///
/// # Errors
/// [`AllocError`] if an allocation fails, or if the check refuses what the search found, which does not happen.
pub fn on_cycles(alloc: Global, graph: &[Vec<u32>]) -> Result<Vec<bool>, AllocError>
    requires { HasNodes (graph_of graph.now) }
    ensures { IfOk result (λ found. found.items ≡ on_cycles_of (graph_of graph.now)) }
{
    let places = checked_places(alloc, graph)?;
    stays(alloc, graph, places.as_slice())
}
