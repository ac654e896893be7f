//! Laws of the definitions, which hold whatever the code does.
ghost use Rattle.std.specs.Prelude.{◌≡◌, ℕ, true};
ghost use Rattle.abs_graph.specs.Graphs.{Graph, Reaches, reaches};

/// The test of whether a node of a graph reaches another one tells just that.
pub fn reaches_is_reported()
    ensures found { (graph : Graph) (node goal : ℕ) → reaches graph node goal ≡ true → Reaches graph goal node }
    ensures whole { (graph : Graph) (node goal : ℕ) → Reaches graph goal node → reaches graph node goal ≡ true }
{}
