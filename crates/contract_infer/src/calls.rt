//! Calls on `this` within a class.
ghost use Rattle.std.specs.List.{list_all};
ghost use Rattle.std.specs.Prelude.{◌≡◌, ℕ, nat_eq, vec_len, IfOk};
ghost use Rattle.abs_graph.specs.Graphs.{HasNodes, reaches};
ghost use Rattle.abs_graph.specs.Views.{graph_of};
ghost use Rattle.abs_program.specs.NamedViews.{named_tree};
ghost use Rattle.contract_infer.specs.CallsFound.{call_of};
ghost use Rattle.contract_infer.specs.CallsWithin.{AreCallsWithin};
ghost use Rattle.contract_terms.specs.Views.{leads_to};

use abs_graph::{Reach, reach_of};
use abs_program::{Effect, Named};
use std::alloc::{AllocError, Global};

/// The methods of a class that statements call on `this`, by their indices among its members, with repetitions. The
/// first of the statements has this index, and there are this many.
///
/// # Errors
/// [`AllocError`] if an allocation fails.
pub(crate) fn calls_within(
    alloc: Global,
    program: &Named<'_>,
    class: u32,
    first: u32,
    count: u32,
) -> Result<Vec<u32>, AllocError>
    ensures { IfOk result (λ found. AreCallsWithin (named_tree program.now) class first count found.items) }
{
    let mut found = Vec::new(alloc);
    for index in first..first.saturating_add(count) {
        if let Some(member) = call_at(program, class, index) {
            found.push(member)?;
        }
    }
    Ok(found)
}

/// The method of a class that a statement calls on `this`, if it does.
fn call_at(program: &Named<'_>, class: u32, index: u32) -> Option<u32>
    ensures { result ≡ call_of (named_tree program.now) class index }
{
    match program.instruction(index)?.effect {
        Effect::CallOwn { method, .. } => program.method(class, method),
        _ => None,
    }
}

/// The table of a graph of calls, in which each member of a class has those that it calls on `this`. There is none
/// where no member calls another one.
///
/// # Errors
/// [`AllocError`] if an allocation fails.
pub(crate) fn reach_of_calls(alloc: Global, calls: &[Vec<u32>]) -> Result<Option<Reach>, AllocError>
    requires { HasNodes (graph_of calls.now) }
    ensures { IfOk result (λ found. (one other : ℕ)
        → leads_to one other found ≡ reaches (graph_of calls.now) one other) }
{
    if has_no_call(calls) {
        return Ok(None);
    }
    Ok(Some(reach_of(alloc, calls)?))
}

/// Whether no member calls another one.
fn has_no_call(calls: &[Vec<u32>]) -> bool
    ensures { result ≡ list_all (λ called. nat_eq (vec_len called) 0) calls.now }
{
    calls.iter().all(|called| called.is_empty())
}
