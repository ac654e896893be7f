//! Components of a graph, and what its nodes reach, also where it has cycles.
ghost use Rattle.std.specs.Prelude.{IfOk};
ghost use Rattle.abs_graph.specs.Graphs.{HasNodes};
ghost use Rattle.abs_graph.specs.Views.{graph_of};

use abs_graph::{components_of, reach_of};
use std::alloc::{AllocError, Global};
use std::test::Fail;

// Two nodes that lead to each other, of which one leads to a third node. Then a node by itself, and one that leads to
// itself.
fn graph(alloc: Global) -> Result<Vec<Vec<u32>>, AllocError>
    ensures { IfOk result (λ found. HasNodes (graph_of found.items)) }
{
    Ok(vec![in alloc;
        vec![in alloc; 1]?,
        vec![in alloc; 0, 2]?,
        Vec::new(alloc),
        Vec::new(alloc),
        vec![in alloc; 4]?,
    ]?)
}

// Nodes that reach each other have one root, and an edge between components leads to a greater number.
#[test]
fn components(rt: HostRuntime) -> Result<(), Fail> {
    let graph = graph(rt.alloc())?;
    let found = components_of(rt.alloc(), graph.as_slice())?;
    assert!(rt; found.root(0) == found.root(1));
    assert!(rt; found.root(1) != found.root(2));
    assert!(rt; found.root(3) == 3);
    assert!(rt; found.root(9) == 9);
    assert!(rt; found.number(0) == found.number(1));
    assert!(rt; found.number(1) < found.number(2));
    Ok(())
}

// A node reaches another one in one step or more, and itself only along a cycle.
#[test]
fn reaching(rt: HostRuntime) -> Result<(), Fail> {
    let graph = graph(rt.alloc())?;
    let found = reach_of(rt.alloc(), graph.as_slice())?;
    assert!(rt; found.reaches(0, 2));
    assert!(rt; found.reaches(0, 0));
    assert!(rt; found.reaches(4, 4));
    assert!(rt; !found.reaches(2, 0));
    assert!(rt; !found.reaches(3, 3));
    assert!(rt; !found.reaches(0, 9));
    Ok(())
}
