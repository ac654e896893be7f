//! A search for the strongly connected components of a graph. Nothing is proved of what it finds: `cycles` checks it.
ghost use Rattle.std.specs.Prelude.{◌≡◌, true, IfSome};
ghost use Rattle.abs_graph.specs.Certificates.{place_of, nowhere};
ghost use Rattle.abs_graph.specs.Graphs.{leads};
ghost use Rattle.abs_graph.specs.Views.{graph_of};

use std::alloc::{AllocError, Global};

/// What the search found of a node: its component, and a way to the root of the component and back.
#[derive(Clone, Copy)]
pub struct Place {
    /// The number of the component. No edge leads to a component with a lower number.
    pub component: usize,
    /// The node from which the component was found.
    pub root: usize,
    /// The index of the first edge of a way to the root.
    pub toward_edge: usize,
    /// A number that falls along the way to the root.
    pub toward_rank: usize,
    /// The last node before this one on a way from the root.
    pub from_node: usize,
    /// The index of the edge from that node to this one.
    pub from_edge: usize,
    /// A number that falls along the way back to the root.
    pub from_rank: usize,
}

/// A node on the path of a depth-first search, and the index of the edge to follow next.
#[derive(Clone, Copy)]
struct Entered {
    node: usize,
    edge: usize,
}

/// An edge to a node: the node from which it leads, and its index there.
#[derive(Clone, Copy)]
pub struct Arrival {
    /// The node from which the edge leads.
    pub from: usize,
    /// The index of the edge there.
    pub edge: usize,
}

/// The state of a search: the places found, the nodes reached, and those of them whose edges are still to be followed.
#[derive(Drop)]
struct Search {
    places: Vec<Place>,
    reached: Vec<bool>,
    waiting: Vec<usize>,
}

/// The place of a node, and one with zeros where the node has none.
pub fn place_at(places: &[Place], node: usize) -> Place
    ensures { result ≡ place_of places.now node }
{
    match places.get(node) {
        Some(place) => *place,
        None => first_place(0, 0),
    }
}

/// The node to which an edge leads, by its index among the edges of a node.
pub fn edge_end(graph: &[Vec<u32>], node: usize, edge: usize) -> Option<usize>
    ensures { IfSome result (λ next. leads (graph_of graph.now) node next ≡ true) }
{
    match graph.get(node) {
        Some(row) => row.get(edge).map(|next| *next as usize),
        None => None,
    }
}

/// The place of the root of a component.
fn first_place(component: usize, root: usize) -> Place
    ensures { result ≡ record nowhere { component = component; root = root } }
{
    Place {
        component,
        root,
        toward_edge: 0,
        toward_rank: 0,
        from_node: 0,
        from_edge: 0,
        from_rank: 0,
    }
}

/// How many nodes and edges a graph has.
fn size(graph: &[Vec<u32>]) -> usize {
    let mut size = graph.len();
    for row in graph {
        size = size.saturating_add(row.len());
    }
    size
}

/// Enters a node, unless it was entered before.
///
/// # Errors
/// [`AllocError`] if an allocation fails.
fn enter(node: usize, seen: &mut [bool], path: &mut Vec<Entered>) -> Result<(), AllocError> {
    if let Some(is_seen) = seen.get_mut(node) {
        if !*is_seen {
            *is_seen = true;
            path.push(Entered { node, edge: 0 })?;
        }
    }
    Ok(())
}

/// Searches depth first from the node on the path, and adds each node when the search leaves it.
///
/// # Errors
/// [`AllocError`] if an allocation fails.
fn leave_from(
    graph: &[Vec<u32>],
    bound: usize,
    seen: &mut [bool],
    path: &mut Vec<Entered>,
    left: &mut Vec<usize>,
) -> Result<(), AllocError> {
    for _ in 0..bound {
        let Some(Entered { node, edge }) = path.pop() else {
            break;
        };
        match edge_end(graph, node, edge) {
            None => left.push(node)?,
            Some(next) => {
                let edge = edge.saturating_add(1);
                path.push(Entered { node, edge })?;
                enter(next, seen, path)?;
            }
        }
    }
    Ok(())
}

/// The nodes in the order in which a depth-first search leaves them.
///
/// # Errors
/// [`AllocError`] if an allocation fails.
pub fn leaving_order(alloc: Global, graph: &[Vec<u32>]) -> Result<Vec<usize>, AllocError> {
    let bound = size(graph);
    let mut seen = vec![in alloc; false; graph.len()]?;
    let mut path = Vec::new(alloc);
    let mut left = Vec::with_capacity(alloc, graph.len())?;
    for node in 0..graph.len() {
        enter(node, seen.as_mut_slice(), &mut path)?;
        leave_from(graph, bound, seen.as_mut_slice(), &mut path, &mut left)?;
    }
    Ok(left)
}

/// Adds each edge of a node to those that lead to its end.
///
/// # Errors
/// [`AllocError`] if an allocation fails.
fn add_arrivals(from: usize, row: &[u32], arrivals: &mut [Vec<Arrival>]) -> Result<(), AllocError> {
    for (edge, next) in row.iter().enumerate() {
        if let Some(here) = arrivals.get_mut(*next as usize) {
            here.push(Arrival { from, edge })?;
        }
    }
    Ok(())
}

/// An empty list of edges for each node.
///
/// # Errors
/// [`AllocError`] if an allocation fails.
fn no_arrivals(alloc: Global, nodes: usize) -> Result<Vec<Vec<Arrival>>, AllocError> {
    let mut arrivals = Vec::with_capacity(alloc, nodes)?;
    for _ in 0..nodes {
        arrivals.push(Vec::new(alloc))?;
    }
    Ok(arrivals)
}

/// For each node the edges that lead to it.
///
/// # Errors
/// [`AllocError`] if an allocation fails.
pub fn arrivals(alloc: Global, graph: &[Vec<u32>]) -> Result<Vec<Vec<Arrival>>, AllocError> {
    let mut arrivals = no_arrivals(alloc, graph.len())?;
    for (from, row) in graph.iter().enumerate() {
        add_arrivals(from, row.as_slice(), arrivals.as_mut_slice())?;
    }
    Ok(arrivals)
}

impl Search {
    /// Notes the place of a node, unless the search has reached the node before.
    ///
    /// # Errors
    /// [`AllocError`] if an allocation fails.
    fn reach(&mut self, node: usize, place: Place) -> Result<(), AllocError> {
        if let Some(is_reached) = self.reached.get_mut(node) {
            if !*is_reached {
                *is_reached = true;
                if let Some(known) = self.places.get_mut(node) {
                    *known = place;
                }
                self.waiting.push(node)?;
            }
        }
        Ok(())
    }

    /// Follows the edges to a node back.
    ///
    /// # Errors
    /// [`AllocError`] if an allocation fails.
    fn follow_back(&mut self, node: usize, arrivals: &[Arrival]) -> Result<(), AllocError> {
        let place = place_at(self.places.as_slice(), node);
        let toward_rank = place.toward_rank.saturating_add(1);
        for arrival in arrivals {
            let toward_edge = arrival.edge;
            let before = Place {
                toward_edge,
                toward_rank,
                ..place
            };
            self.reach(arrival.from, before)?;
        }
        Ok(())
    }

    /// Finds the nodes that reach the root that waits, and that no earlier component has.
    ///
    /// # Errors
    /// [`AllocError`] if an allocation fails.
    fn find_component(&mut self, arrivals: &[Vec<Arrival>]) -> Result<(), AllocError> {
        for _ in 0..arrivals.len() {
            let Some(node) = self.waiting.pop() else {
                break;
            };
            if let Some(row) = arrivals.get(node) {
                self.follow_back(node, row.as_slice())?;
            }
        }
        Ok(())
    }

    /// Finds the components, given the nodes in the order in which a depth-first search leaves them.
    ///
    /// # Errors
    /// [`AllocError`] if an allocation fails.
    fn find_components(
        &mut self,
        left: &[usize],
        arrivals: &[Vec<Arrival>],
    ) -> Result<(), AllocError> {
        for (component, root) in left.iter().rev().enumerate() {
            self.reach(*root, first_place(component, *root))?;
            self.find_component(arrivals)?;
        }
        Ok(())
    }

    /// Reaches each root.
    ///
    /// # Errors
    /// [`AllocError`] if an allocation fails.
    fn reach_roots(&mut self) -> Result<(), AllocError> {
        for node in 0..self.places.len() {
            let place = place_at(self.places.as_slice(), node);
            if place.root == node {
                self.reach(node, place)?;
            }
        }
        Ok(())
    }

    /// Follows the edges of a node to nodes of its component.
    ///
    /// # Errors
    /// [`AllocError`] if an allocation fails.
    fn follow(&mut self, from_node: usize, row: &[u32]) -> Result<(), AllocError> {
        let place = place_at(self.places.as_slice(), from_node);
        let from_rank = place.from_rank.saturating_add(1);
        for (from_edge, next) in row.iter().enumerate() {
            let node = *next as usize;
            let known = place_at(self.places.as_slice(), node);
            if known.root == place.root {
                let after = Place {
                    from_node,
                    from_edge,
                    from_rank,
                    ..known
                };
                self.reach(node, after)?;
            }
        }
        Ok(())
    }

    /// Finds a way from the root of each component to its nodes.
    ///
    /// # Errors
    /// [`AllocError`] if an allocation fails.
    fn find_ways(&mut self, graph: &[Vec<u32>]) -> Result<(), AllocError> {
        for _ in 0..graph.len() {
            let Some(node) = self.waiting.pop() else {
                break;
            };
            if let Some(row) = graph.get(node) {
                self.follow(node, row.as_slice())?;
            }
        }
        Ok(())
    }
}

/// The places of the nodes of a graph, in its strongly connected components.
///
/// # Errors
/// [`AllocError`] if an allocation fails.
pub fn certificate(alloc: Global, graph: &[Vec<u32>]) -> Result<Vec<Place>, AllocError> {
    let left = leaving_order(alloc, graph)?;
    let arrivals = arrivals(alloc, graph)?;
    let mut search = Search {
        places: vec![in alloc; first_place(0, 0); graph.len()]?,
        reached: vec![in alloc; false; graph.len()]?,
        waiting: Vec::with_capacity(alloc, graph.len())?,
    };
    search.find_components(left.as_slice(), arrivals.as_slice())?;
    search.reached = vec![in alloc; false; graph.len()]?;
    search.reach_roots()?;
    search.find_ways(graph)?;
    let Search { places, .. } = search;
    Ok(places)
}
