// Paths to the states of a graph.

ghost use Rattle.std.specs.Prelude.{◌≡◌, ◌∷◌, ◌++◌, [], IfOk, length, map};
ghost use Rattle.ls_graph.specs.Found.{AreFound};
ghost use Rattle.ls_choices.specs.Paths.{ArePaths};

use ls_graph::closing::Graph;
use std::alloc::{AllocError, Global};

// A schedule with one more step.
fn path_with(alloc: Global, steps: &[u8], thread: u8) -> Result<Vec<u8>, AllocError>
    ensures { IfOk result (λ v. v.items ≡ steps.now ++ thread ∷ []) }
{
    let mut path = Vec::new(alloc);
    path.extend_from_slice(steps)?;
    path.push(thread)?;
    Ok(path)
}

/// For each state the path by which it was found, from the first state's on. The only refusal is that memory ran out.
pub(crate) fn paths_to<N>(
    alloc: Global,
    graph: &Graph<N>,
    first: &[u8],
) -> Result<Vec<Vec<u8>>, AllocError>
    requires { AreFound graph.now.edges.items (length graph.now.found.nodes.items) graph.now.by.items }
    ensures { IfOk result (λ v. ArePaths graph.now.edges.items graph.now.by.items first.now
        (map (λ p. p.items) v.items)) }
{
    let mut start = Vec::new(alloc);
    start.extend_from_slice(first)?;
    let mut paths = Vec::new(alloc);
    paths.push(start)?;
    for place in &graph.by {
        let edge = graph.edges[*place as usize];
        let path = path_with(alloc, &paths[edge.from as usize], edge.actor)?;
        paths.push(path)?;
    }
    Ok(paths)
}
