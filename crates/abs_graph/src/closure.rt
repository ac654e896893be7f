//! A table of which nodes of a graph without cycles reach which. It has a row for each node. A row has a bit for each
//! node to which an edge leads, and no bits if no edge leads from its node. The rows are filled in an order in which
//! each node comes after the nodes to which its edges lead. Each row is the union of those nodes and their rows. That
//! their rows were filled before is tested, so nothing need be proved of the order.
ghost use Rattle.std.specs.Prelude.{◌≡◌, ℕ, ◌<◌, true, false, length, All, IfOk};
ghost use Rattle.std.specs.Bool.{OnTrue};
ghost use Rattle.abs_graph.specs.Columns.{HasColumns, has_column};
ghost use Rattle.abs_graph.specs.Graphs.{HasNodes, reaches as reaches_by, on_cycles as on_cycles_of, is_listed};
ghost use Rattle.abs_graph.specs.Tables.{HasNoRoom, HasRoom, IsFilled, IsTable, IsUnion};
ghost use Rattle.abs_graph.specs.Views.{graph_of};

use crate::bit_set::BitSet;
use crate::certificate::leaving_order;
use crate::columns::Columns;
use std::alloc::{AllocError, Global};
use std::marker::Model;

/// The table of a graph: it tells in constant time whether a node reaches another one.
#[derive(Drop)]
pub struct Closure {
    graph: Vec<Vec<u32>>,
    columns: Columns,
    rows: Vec<BitSet>,
}

impl Model for Closure {
    ghost use Rattle.abs_graph.specs.Graphs.{Graph};
    ghost use Rattle.abs_graph.specs.Tables.{IsTable};
    ghost use Rattle.abs_graph.specs.Views.{graph_of};

    ghost Value = { Graph };

    ghost view = { λ table. graph_of table.graph.items };

    ghost invariant = { λ table. IsTable (graph_of table.graph.items) table.columns table.rows.items };
}

/// The row of a node with edges to some nodes: these nodes, and what their rows have. Without edges the row takes no
/// memory.
///
/// # Errors
/// [`AllocError`] if an allocation fails, or if the row of one of the nodes was not filled.
fn bits_over(
    alloc: Global,
    nodes: &[u32],
    columns: &Columns,
    rows: &[BitSet],
    filled: &[bool],
) -> Result<BitSet, AllocError>
    requires nodes { All (λ next. next < length rows.now) nodes.now }
    requires columns { All (λ next. has_column columns.now next ≡ true) nodes.now }
    requires flags { length filled.now ≡ length rows.now }
    requires room { HasRoom columns.now rows.now }
    ensures { IfOk result (λ bits. IsUnion columns.now rows.now filled.now nodes.now bits) }
{
    if nodes.is_empty() {
        let empty = BitSet::new(alloc, 0)?;
        return Ok(empty);
    }
    let mut bits = BitSet::new(alloc, columns.count())?;
    for next in nodes {
        let next = *next as usize;
        if !filled[next] {
            return Err(AllocError);
        }
        bits.add(columns.column(next));
        bits.add_all(&rows[next]);
    }
    Ok(bits)
}

/// Fills the row of a node.
///
/// # Errors
/// [`AllocError`] if an allocation fails, or if an edge leads to a node whose row was not filled.
fn fill(
    alloc: Global,
    graph: &[Vec<u32>],
    columns: &Columns,
    node: usize,
    rows: &mut [BitSet],
    filled: &mut [bool],
) -> Result<(), AllocError>
    requires nodes { HasNodes (graph_of graph.now) }
    requires columns { HasColumns columns.now (graph_of graph.now) (length graph.now) }
    requires node { node < length graph.now }
    requires filled { IsFilled (graph_of graph.now) columns.now rows.old filled.old }
    ensures { IfOk result (λ _. IsFilled (graph_of graph.now) columns.now rows.new filled.new) }
{
    let bits = bits_over(alloc, graph[node].as_slice(), columns, rows, filled)?;
    rows[node] = bits;
    filled[node] = true;
    Ok(())
}

/// Fills the rows of nodes in an order.
///
/// # Errors
/// [`AllocError`] if an allocation fails, or if a node comes before one to which an edge leads from it.
fn fill_in_order(
    alloc: Global,
    graph: &[Vec<u32>],
    columns: &Columns,
    order: &[usize],
    rows: &mut [BitSet],
    filled: &mut [bool],
) -> Result<(), AllocError>
    requires nodes { HasNodes (graph_of graph.now) }
    requires columns { HasColumns columns.now (graph_of graph.now) (length graph.now) }
    requires filled { IsFilled (graph_of graph.now) columns.now rows.old filled.old }
    ensures { IfOk result (λ _. IsFilled (graph_of graph.now) columns.now rows.new filled.new) }
{
    for node in order {
        if *node < graph.len() {
            fill(alloc, graph, columns, *node, rows, filled)?;
        }
    }
    Ok(())
}

/// A row without room for each node, to be replaced by the one of the node.
///
/// # Errors
/// [`AllocError`] if an allocation fails.
fn no_rows(alloc: Global, nodes: usize) -> Result<Vec<BitSet>, AllocError>
    ensures { IfOk result (λ rows. (length rows.items ≡ nodes) × HasNoRoom rows.items) }
{
    let mut rows = Vec::with_capacity(alloc, nodes)?;
    for _ in 0..nodes {
        rows.push(BitSet::new(alloc, 0)?)?;
    }
    Ok(rows)
}

/// Whether each row was filled.
fn all_filled(filled: &[bool]) -> bool
    ensures { OnTrue result (All (λ is_filled. is_filled ≡ true) filled.now) }
{
    filled.iter().all(|is_filled| *is_filled)
}

/// The rows of all nodes.
///
/// # Errors
/// [`AllocError`] if an allocation fails, or if the graph has a cycle.
fn table(alloc: Global, graph: &[Vec<u32>], columns: &Columns) -> Result<Vec<BitSet>, AllocError>
    requires nodes { HasNodes (graph_of graph.now) }
    requires columns { HasColumns columns.now (graph_of graph.now) (length graph.now) }
    ensures { IfOk result (λ rows. IsTable (graph_of graph.now) columns.now rows.items) }
{
    let mut rows = no_rows(alloc, graph.len())?;
    let mut filled = vec![in alloc; false; graph.len()]?;
    let order = leaving_order(alloc, graph)?;
    fill_in_order(
        alloc,
        graph,
        columns,
        order.as_slice(),
        rows.as_mut_slice(),
        filled.as_mut_slice(),
    )?;
    if !all_filled(filled.as_slice()) {
        return Err(AllocError);
    }
    Ok(rows)
}

/// A copy of a graph.
///
/// # Errors
/// [`AllocError`] if an allocation fails.
pub fn copy(alloc: Global, graph: &[Vec<u32>]) -> Result<Vec<Vec<u32>>, AllocError>
    ensures { IfOk result (λ copied. graph_of copied.items ≡ graph_of graph.now) }
{
    let mut copied = Vec::with_capacity(alloc, graph.len())?;
    for row in graph {
        copied.push(row.as_slice().to_vec(alloc)?)?;
    }
    Ok(copied)
}

/// The table of a graph without cycles, which has for each node the nodes to which an edge leads.
///
/// # Errors
/// [`AllocError`] if an allocation fails, or if the check refuses the order that was found, which does not happen.
pub fn closure_of(alloc: Global, graph: &[Vec<u32>]) -> Result<Closure, AllocError>
    requires nodes { HasNodes (graph_of graph.now) }
    requires no_cycle { All (λ is_on_cycle. is_on_cycle ≡ false) (on_cycles_of (graph_of graph.now)) }
    ensures { IfOk result (λ found. found ≡ graph_of graph.now) }
{
    let columns = Columns::new(alloc, graph)?;
    let rows = table(alloc, graph, &columns)?;
    let graph = copy(alloc, graph)?;
    Ok(Closure {
        graph,
        columns,
        rows,
    })
}

impl Closure {
    /// Whether a node reaches another one, in one step or in more.
    pub fn reaches(&self, from: u32, to: u32) -> bool
        ensures { result ≡ reaches_by self.now from to }
    {
        match self.rows.get(from as usize) {
            Some(bits) => self.columns.has_node(bits, to as usize),
            None => false,
        }
    }

    /// The nodes that a node reaches, in one step or in more, in no set order. It takes a step for 64 columns of the
    /// table, and few for each node that is reached.
    ///
    /// # Errors
    /// [`AllocError`] if an allocation fails.
    pub fn reached(&self, alloc: Global, from: u32) -> Result<Vec<u32>, AllocError>
        ensures { IfOk result (λ found. (to : ℕ) → is_listed found.items to ≡ reaches_by self.now from to) }
    {
        match self.rows.get(from as usize) {
            Some(bits) => self.columns.nodes_of(alloc, bits),
            None => Ok(Vec::new(alloc)),
        }
    }
}
