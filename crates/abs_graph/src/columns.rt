//! The columns of a table: one for each node to which an edge leads. Most nodes of a large graph have none, so the rows
//! of the table stay short. Each look-up compares the node of a column, so no two nodes have the same one.
ghost use Rattle.std.specs.Prelude.{◌≡◌, ◌<◌, ◌&&◌, ℕ, [], ◌∷◌, ◌||◌, length, nat_eq, All, IfOk, OnOk};
ghost use Rattle.abs_graph.specs.Columns.{HasColumns, IsExtended, count_of, column_of, has_column, has_node};
ghost use Rattle.abs_graph.specs.Graphs.{HasNodes, is_listed};
ghost use Rattle.abs_graph.specs.Views.{graph_of};

use crate::bit_set::BitSet;
use std::alloc::{AllocError, Global};

/// The columns of a table.
#[derive(Drop)]
pub struct Columns {
    /// For each column its node.
    pub nodes: Vec<usize>,
    /// For each node its column, and another number where it has none.
    pub columns: Vec<usize>,
}

impl Columns {
    /// A column for each node to which an edge leads.
    ///
    /// # Errors
    /// [`AllocError`] if an allocation fails.
    pub fn new(alloc: Global, graph: &[Vec<u32>]) -> Result<Columns, AllocError>
        requires { HasNodes (graph_of graph.now) }
        ensures { IfOk result (λ columns. HasColumns columns (graph_of graph.now) (length graph.now)) }
    {
        let mut columns = Columns {
            nodes: Vec::new(alloc),
            columns: vec![in alloc; 0; graph.len()]?,
        };
        for row in graph {
            columns.add_row(row.as_slice())?;
        }
        Ok(columns)
    }

    /// Adds a column for each of some nodes that has none.
    ///
    /// # Errors
    /// [`AllocError`] if an allocation fails.
    fn add_row(&mut self, row: &[u32]) -> Result<(), AllocError>
        requires { All (λ next. next < length self.old.columns.items) row.now }
        ensures { IfOk result (λ _. IsExtended self.old self.new row.now) }
    {
        for next in row {
            self.add(*next as usize)?;
        }
        Ok(())
    }

    /// Adds a column for a node, if it has none.
    ///
    /// # Errors
    /// [`AllocError`] if an allocation fails.
    fn add(&mut self, node: usize) -> Result<(), AllocError>
        requires { node < length self.old.columns.items }
        ensures { IfOk result (λ _. IsExtended self.old self.new (node ∷ [])) }
    {
        if self.has(node) {
            return Ok(());
        }
        self.columns[node] = self.nodes.len();
        self.nodes.push(node)?;
        Ok(())
    }

    /// How many columns there are.
    pub fn count(&self) -> usize
        ensures { result ≡ count_of self.now }
    {
        self.nodes.len()
    }

    /// The column of a node that has one.
    pub fn column(&self, node: usize) -> usize
        ensures { result ≡ column_of self.now node }
    {
        match self.columns.get(node) {
            Some(column) => *column,
            None => 0,
        }
    }

    /// Whether a node has a column.
    #[tactic(auto, unfolding(crate::specs::Columns::has_column))]
    pub fn has(&self, node: usize) -> bool
        ensures { result ≡ has_column self.now node }
    {
        let column = self.column(node);
        column < self.nodes.len() && self.nodes[column] == node
    }

    /// Whether bits have a node.
    #[tactic(auto, unfolding(crate::specs::Columns::has_node))]
    pub fn has_node(&self, bits: &BitSet, node: usize) -> bool
        ensures { result ≡ has_node self.now bits.now node }
    {
        self.has(node) && bits.has(self.column(node))
    }

    /// The nodes that bits have.
    ///
    /// # Errors
    /// [`AllocError`] if an allocation fails, or if a node takes more than 32 bits.
    pub fn nodes_of(&self, alloc: Global, bits: &BitSet) -> Result<Vec<u32>, AllocError>
        ensures { IfOk result (λ found. (node : ℕ)
            → is_listed found.items node ≡ has_node self.now bits.now node) }
    {
        let numbers = bits.numbers(alloc)?;
        let mut found = Vec::new(alloc);
        for column in numbers.iter() {
            self.add_node(*column, &mut found)?;
        }
        Ok(found)
    }

    /// Adds the node that has a column to a list, if there is one.
    ///
    /// # Errors
    /// [`AllocError`] if an allocation fails, or if the node takes more than 32 bits.
    fn add_node(&self, column: usize, found: &mut Vec<u32>) -> Result<(), AllocError>
        ensures { OnOk result ((node : ℕ) → is_listed found.new.items node
            ≡ (is_listed found.old.items node
            || (has_column self.now node && nat_eq column (column_of self.now node)))) }
    {
        let Some(node) = self.nodes.get(column) else {
            return Ok(());
        };
        if self.column(*node) != column {
            return Ok(());
        }
        match u32::try_from(*node) {
            Ok(node) => found.push(node)?,
            Err(_) => return Err(AllocError),
        }
        Ok(())
    }
}
