//! A copy of a graph in the order of a walk. What comes after it finds the same terms at the same places, in whichever
//! order they were made.
ghost use Rattle.std.specs.Prelude.{◌≡◌, IfOk};
ghost use Rattle.bd_model.specs.declared.design.Sort.TheVariants as sort;
ghost use Rattle.bd_terms.specs.Graph.{HasSort, IsGraph};
ghost use Rattle.bd_walk.specs.Carried.{AppliesReached, DenotesSame, HasSortsReached};
ghost use Rattle.bd_walk.specs.Ordered.{IsInWalkOrder};

use crate::depth_first::walk;
use bd_terms::{Graph, Id};
use std::alloc::{AllocError, Global};

/// A graph of the terms that the root reaches, in the order in which a depth-first walk finishes them, and the root in
/// it that denotes what this root denotes.
pub fn in_walk_order(alloc: Global, graph: &Graph, root: Id) -> Result<(Graph, Id), AllocError>
    requires { HasSort graph.now root sort.Bool }
    ensures order { IfOk result (λ r. IsInWalkOrder graph.now root r.0 r.1) }
    ensures denotes { IfOk result (λ r. DenotesSame graph.now root r.0 r.1) }
    ensures sorted { IfOk result (λ r. HasSort r.0 r.1 sort.Bool) }
    ensures sorts { IfOk result (λ r. HasSortsReached graph.now root r.0) }
    ensures symbols { IfOk result (λ r. AppliesReached graph.now root r.0) }
    ensures graph { IfOk result (λ r. IsGraph r.0) }
{
    let order = walk(alloc, graph, root)?;
    let mut places = vec![in alloc; Id::default(); graph.len()]?;
    let mut ordered = Graph::new(alloc);
    for id in &order {
        let node = graph.node(*id).renamed(&places)?;
        places[id.index()] = ordered.build(node)?;
    }
    Ok((ordered, places[root.index()]))
}
