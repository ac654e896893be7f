//! The components of the graph of parts, and the pairs that stay in one. No chain leads back to any other pair, so only
//! these are searched.
ghost use Rattle.std.specs.Prelude.{◌≡◌, IfOk, OnOk};
ghost use Rattle.abs_graph.specs.Views.{graph_of};
ghost use Rattle.abs_program.specs.NamedViews.{program_tree};
ghost use Rattle.circularity_test.specs.Components.{AddsEdge, AreLevelPairs, HasRows, component_at as component_of_edge};

use crate::level_pairs::LevelPairs;
use crate::pair_list::Pairs;
use crate::parts::{Edge, Parts};
use crate::steps::parts_of;
use abs_graph::{Components, components_of};
use contract_terms::Contracted;
use std::alloc::{AllocError, Global};

/// Those of some pairs that stay in a component.
///
/// # Errors
/// [`AllocError`] if an allocation fails, if a number takes more than 32 bits, or if the check of components refuses
/// what a search found, which does not happen.
pub(crate) fn level_pairs(
    alloc: Global,
    program: &Contracted<'_>,
    list: &Pairs,
) -> Result<LevelPairs, AllocError>
    ensures { IfOk result (AreLevelPairs (program_tree program.now.checked.named) list.now) }
{
    let parts = parts_of(alloc, program, list)?;
    // This call says that no two parts are equal.
    let _count = parts.parts.len();
    let found = components_of(alloc, rows_of(alloc, &parts)?.as_slice())?;
    let mut pairs = Vec::new(alloc);
    let mut components = Vec::new(alloc);
    for index in 0..list.len() {
        if let Some(component) = component_at(&found, parts.edges.as_slice(), index) {
            pairs.push(list.at(index).copied())?;
            components.push(component)?;
        }
    }
    Ok(LevelPairs {
        pairs: Pairs { pairs },
        components,
    })
}

/// The number of the component in which the edge at an index stays, if it stays in one.
fn component_at(components: &Components, edges: &[Edge], index: usize) -> Option<u32>
    ensures { result ≡ component_of_edge components.now.numbers.items edges.now index }
{
    let edge = edges.get(index)?;
    let number = components.number(edge.from);
    if number == components.number(edge.to) {
        Some(number)
    } else {
        None
    }
}

/// For each part, those to which an edge leads.
///
/// # Errors
/// [`AllocError`] if an allocation fails. So it is for each function here.
fn rows_of(alloc: Global, parts: &Parts) -> Result<Vec<Vec<u32>>, AllocError>
    ensures { IfOk result (λ rows. HasRows parts.now (graph_of rows.items)) }
{
    let mut rows = Vec::new(alloc);
    for _ in 0..parts.parts.len() {
        rows.push(Vec::new(alloc))?;
    }
    for edge in parts.edges.as_slice() {
        add_edge(&mut rows, *edge)?;
    }
    Ok(rows)
}

/// Adds an edge, if it leads from one row to one.
fn add_edge(rows: &mut Vec<Vec<u32>>, edge: Edge) -> Result<(), AllocError>
    ensures { OnOk result (AddsEdge edge (graph_of rows.old.items) (graph_of rows.new.items)) }
{
    let from = edge.from as usize;
    if from < rows.len() && (edge.to as usize) < rows.len() {
        rows[from].push(edge.to)?;
    }
    Ok(())
}
