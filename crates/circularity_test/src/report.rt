//! The report: which circular chains of pairs are listed.
ghost use Rattle.std.specs.List.Sorted.{IsStrictlySortedBy};
ghost use Rattle.std.specs.Prelude.{◌≡◌, ◌<◌, ◌==◌, ◌+◌, ◌++◌, ◌∷◌, [], List, true, false, set, length, replicate, slice_get, IfOk, OnOk, Some};
ghost use Rattle.abs_graph.specs.Graphs.{is_marked as is_marked_in};
ghost use Rattle.abs_program.specs.NamedViews.{program_tree};
ghost use Rattle.abs_tree.specs.Syntax.{ProgramTree};
ghost use Rattle.circularity_test.specs.Components.{AreLevelPairs};
ghost use Rattle.circularity_test.specs.Network.{IsNetwork};
ghost use Rattle.circularity_test.specs.Reporting.{AreAwaits, ComesNext, IsReported, mark_all};
ghost use Rattle.circularity_test.specs.Routes.{Picks};
ghost use Rattle.contract_terms.specs.Chains.{IsReport};
ghost use Rattle.contract_terms.specs.Pairs.{pair_order};
ghost use Rattle.contract_terms.specs.declared.pair.Pair.{Pair as One};

use crate::components::level_pairs;
use crate::level_pairs::LevelPairs;
use crate::network::Network;
use crate::pair_list::Pairs;
use abs_graph::is_marked;
use contract_terms::{Contracted, Mode, Pair};
use std::alloc::{AllocError, Global};
use std::marker::Model;

/// The circular chains that are listed for some pairs, in their order. Contracts see the list of their pairs.
#[derive(Drop)]
pub struct Report {
    chains: Vec<Vec<Pair>>,
}

impl Model for Report {
    ghost use Rattle.std.specs.Prelude.{List, map};
    ghost use Rattle.std.specs.declared.alloc.Global.{Global};
    ghost use Rattle.std.specs.declared.vec.Vec.{Vec};
    ghost use Rattle.contract_terms.specs.declared.pair.Pair.{Pair as One};

    ghost Value = { List (List One) };

    ghost view = { λ report. map (λ (chain : Vec One Global). chain.items) report.chains.items };
}

impl Report {
    /// A report that lists no chain.
    pub fn new(alloc: Global) -> Report
        ensures { result ≡ [] }
    {
        Report {
            chains: Vec::new(alloc),
        }
    }

    /// How many chains it lists.
    pub fn len(&self) -> usize
        ensures { result ≡ length self.now }
    {
        self.chains.len()
    }

    /// The pairs of the chain at an index: each is linked to the next one, and the last one to the first.
    pub fn at(&self, index: usize) -> &[Pair]
        requires { index < length self.now }
        ensures { slice_get self.now index ≡ Some result.now }
    {
        self.chains[index].as_slice()
    }

    /// Whether it lists no chain.
    pub fn is_empty(&self) -> bool
        ensures { result ≡ (length self.now == 0) }
    {
        self.chains.is_empty()
    }
}

impl Report {
    /// Lists the chain for the pair at an index, if it comes next, and marks its pairs.
    ///
    /// # Errors
    /// [`AllocError`] if an allocation fails. So it is for each function below.
    fn list(
        &mut self,
        alloc: Global,
        network: &Network,
        pairs: &Pairs,
        index: usize,
        marked: &mut Vec<bool>,
    ) -> Result<(), AllocError>
        requires { index < length pairs.now }
        ensures { (program : ProgramTree) → IsNetwork program pairs.now network.now
            → IsStrictlySortedBy pair_order pairs.now
            → IsReported program pairs.now index marked.old.items self.old
            → OnOk result (IsReported program pairs.now (index + 1) marked.new.items self.new) }
    {
        if let Some(indices) = next_chain(alloc, network, pairs, index, marked.as_slice())? {
            self.add(picked(alloc, pairs, indices.as_slice())?)?;
            mark(marked, indices.as_slice());
        }
        Ok(())
    }

    /// Adds a chain.
    fn add(&mut self, chain: Vec<Pair>) -> Result<(), AllocError>
        ensures { OnOk result (self.new ≡ self.old ++ chain.items ∷ []) }
    {
        self.chains.push(chain)?;
        Ok(())
    }
}

/// The indices of the chain that is listed for the pair at an index, if it comes next.
fn next_chain(
    alloc: Global,
    network: &Network,
    pairs: &Pairs,
    index: usize,
    marked: &[bool],
) -> Result<Option<Vec<usize>>, AllocError>
    requires { index < length pairs.now }
    ensures { (program : ProgramTree) (pair : One) → IsNetwork program pairs.now network.now
        → IsStrictlySortedBy pair_order pairs.now → slice_get pairs.now index ≡ Some pair
        → IfOk result (ComesNext program pairs.now pair (is_marked_in marked.now index)) }
{
    if is_marked(marked, index) {
        return Ok(None);
    }
    match pairs.at(index).mode {
        Mode::Get => network.way_back(alloc, index),
        Mode::Await => Ok(None),
    }
}

/// The pairs at some indices.
fn picked(alloc: Global, pairs: &Pairs, indices: &[usize]) -> Result<Vec<Pair>, AllocError>
    ensures { (chain : List One) → Picks pairs.now indices.now chain → IfOk result (λ found. found.items ≡ chain) }
{
    let mut found = Vec::with_capacity(alloc, indices.len())?;
    for index in indices {
        if *index < pairs.len() {
            found.push(pairs.at(*index).copied())?;
        }
    }
    Ok(found)
}

/// No marks for this many pairs.
fn unmarked(alloc: Global, count: usize) -> Result<Vec<bool>, AllocError>
    ensures { IfOk result (λ marked. marked.items ≡ replicate count false) }
{
    let mut marked = Vec::new(alloc);
    marked.resize(count, false)?;
    Ok(marked)
}

/// Marks the pairs at some indices.
fn mark(marked: &mut Vec<bool>, indices: &[usize])
    ensures { marked.new.items ≡ mark_all marked.old.items indices.now }
{
    for index in indices {
        mark_one(marked, *index);
    }
}

/// Marks the pair at an index, if there is one.
fn mark_one(marked: &mut Vec<bool>, index: usize)
    ensures { marked.new.items ≡ set marked.old.items index true }
{
    if index < marked.len() {
        marked[index] = true;
    }
}

/// Whether no pair is a `get`, so that there is no chain.
fn never_gets(pairs: &Pairs) -> bool
    ensures { result ≡ true → AreAwaits pairs.now }
{
    for index in 0..pairs.len() {
        if pairs.at(index).mode == Mode::Get {
            return false;
        }
    }
    true
}

/// The report of some pairs: for each `get` that no chain before lists, the first circular chain that leads back to it.
/// Only pairs that stay in a component of the graph of parts are searched, and a search stays in its component.
///
/// # Errors
/// [`AllocError`] if an allocation fails.
pub fn chains(alloc: Global, program: &Contracted<'_>, list: &Pairs) -> Result<Report, AllocError>
    ensures { IfOk result (λ report. IsReport (program_tree program.now.checked.named) list.now report) }
{
    if never_gets(list) {
        return Ok(Report::new(alloc));
    }
    let level = level_pairs(alloc, program, list)?;
    level_chains(alloc, program, &level)
}

/// The report of all pairs by those that stay in a component.
///
/// # Errors
/// [`AllocError`] if an allocation fails.
fn level_chains(
    alloc: Global,
    program: &Contracted<'_>,
    level: &LevelPairs,
) -> Result<Report, AllocError>
    ensures { (pairs : List One) → AreLevelPairs (program_tree program.now.checked.named) pairs level.now
        → IfOk result (λ report. IsReport (program_tree program.now.checked.named) pairs report) }
{
    let network = Network::new(alloc, program, level)?;
    let mut report = Report::new(alloc);
    let mut marked = unmarked(alloc, level.pairs.len())?;
    for index in 0..level.pairs.len() {
        report.list(alloc, &network, &level.pairs, index, &mut marked)?;
    }
    Ok(report)
}
