//! Tables with a row for each node: the pairs that wait there, and the nodes from which a pair leads there.
ghost use Rattle.std.specs.Prelude.{◌≡◌, ◌<◌, ℕ, List, [], length, replicate, All, Contains, IfOk, OnOk};
ghost use Rattle.abs_graph.specs.Views.{graph_of};
ghost use Rattle.circularity_test.specs.Network.{AreBefore, AreMembers};
ghost use Rattle.circularity_test.specs.Tables.{Gains};

use std::alloc::{AllocError, Global};

/// For each node, the indices of the pairs that wait there, in ascending order.
///
/// # Errors
/// [`AllocError`] if an allocation fails. So it is for each function here.
pub(crate) fn members_of(
    alloc: Global,
    nodes: usize,
    entries: &[usize],
) -> Result<Vec<Vec<usize>>, AllocError>
    requires { All (λ entry. entry < nodes) entries.now }
    ensures { IfOk result (λ members. AreMembers entries.now (graph_of members.items)) }
{
    let mut members = empty_rows(alloc, nodes)?;
    for index in 0..entries.len() {
        add(&mut members, entries[index], index)?;
    }
    Ok(members)
}

/// For each node, those from which a pair leads to it.
pub(crate) fn before_of(
    alloc: Global,
    nodes: usize,
    entries: &[usize],
    exits: &[Vec<usize>],
) -> Result<Vec<Vec<usize>>, AllocError>
    requires same { length exits.now ≡ length entries.now }
    requires inside { All (λ (row : List ℕ). All (λ next. next < nodes) row) (graph_of exits.now) }
    ensures { IfOk result (λ before. AreBefore entries.now (graph_of exits.now) (graph_of before.items)) }
{
    let mut before = empty_rows(alloc, nodes)?;
    for index in 0..entries.len() {
        add_to_each(&mut before, exits[index].as_slice(), entries[index])?;
    }
    Ok(before)
}

/// This many empty rows.
fn empty_rows(alloc: Global, count: usize) -> Result<Vec<Vec<usize>>, AllocError>
    ensures { IfOk result (λ rows. graph_of rows.items ≡ replicate count []) }
{
    let mut rows = Vec::with_capacity(alloc, count)?;
    for _ in 0..count {
        rows.push(Vec::new(alloc))?;
    }
    Ok(rows)
}

/// Adds a value to the rows with some numbers.
fn add_to_each(
    rows: &mut Vec<Vec<usize>>,
    numbers: &[usize],
    value: usize,
) -> Result<(), AllocError>
    requires { All (λ number. number < length (graph_of rows.old.items)) numbers.now }
    ensures { OnOk result (Gains (λ number added. Contains numbers.now number × (value ≡ added))
        (graph_of rows.old.items) (graph_of rows.new.items)) }
{
    for number in numbers {
        add(rows, *number, value)?;
    }
    Ok(())
}

/// Adds a value to the row with a number.
fn add(rows: &mut Vec<Vec<usize>>, number: usize, value: usize) -> Result<(), AllocError>
    requires { number < length (graph_of rows.old.items) }
    ensures { OnOk result (Gains (λ row added. (number ≡ row) × (value ≡ added))
        (graph_of rows.old.items) (graph_of rows.new.items)) }
{
    rows[number].push(value)?;
    Ok(())
}
