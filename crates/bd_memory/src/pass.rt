//! One pass over the terms in rising order. A read goes down its memory: a write gives the written word where
//! the addresses are equal and else the read below it, an ite the ite of the reads, and the first contents of an
//! entry the application of the entry (Burch and Dill 1994). No read is built twice.
ghost use Rattle.std.specs.Prelude.{◌≡◌, ℕ, IfOk};
ghost use Rattle.bd_model.specs.declared.design.Sort.TheVariants as sort;
ghost use Rattle.bd_terms.specs.Graph.{HasSort, IsGraph};
ghost use Rattle.bd_memory.specs.Forward.{HasNoMemory};
ghost use Rattle.bd_memory.specs.Forwarded.{Forwarded, Term};
ghost use Rattle.bd_walk.specs.Carried.{AppliesReached, DenotesSame};
ghost use Rattle.bd_memory.specs.inner.Forwarding.{MarksReached};

use crate::forwarding::Forwarding;
use bd_terms::{Graph, Id, ReachedTerms, reached};
use std::alloc::{AllocError, Global};

/// A graph without memories, and the root in it that denotes what this root denotes.
pub fn forward(alloc: Global, graph: &Graph, root: Id) -> Result<(Graph, Id), AllocError>
    requires { HasSort graph.now root sort.Bool }
    ensures denotes { IfOk result (λ r. DenotesSame graph.now root r.0 r.1) }
    ensures made { IfOk result (λ r. Forwarded graph.now r.0 (Term root) r.1) }
    ensures sorted { IfOk result (λ r. HasSort r.0 r.1 sort.Bool) }
    ensures memories { IfOk result (λ r. HasNoMemory r.0) }
    ensures symbols { IfOk result (λ r. AppliesReached graph.now root r.0) }
    ensures graph { IfOk result (λ r. IsGraph r.0) }
{
    let marks = reached(graph, root)?;
    forward_marked(alloc, graph, root, &marks)
}

/// A graph without memories, made of the terms that are marked as reached, and the root in it.
fn forward_marked(
    alloc: Global,
    graph: &Graph,
    root: Id,
    marks: &ReachedTerms,
) -> Result<(Graph, Id), AllocError>
    ghost top: { ℕ }
    requires top { root ≡ top }
    requires sorted { HasSort graph.now top sort.Bool }
    requires marked { MarksReached graph.now top marks.now }
    ensures denotes { IfOk result (λ r. DenotesSame graph.now top r.0 r.1) }
    ensures made { IfOk result (λ r. Forwarded graph.now r.0 (Term top) r.1) }
    ensures sorted { IfOk result (λ r. HasSort r.0 r.1 sort.Bool) }
    ensures memories { IfOk result (λ r. HasNoMemory r.0) }
    ensures symbols { IfOk result (λ r. AppliesReached graph.now top r.0) }
    ensures graph { IfOk result (λ r. IsGraph r.0) }
{
    let mut done = Forwarding::new(alloc);
    for index in 0..graph.len() {
        let place = done.next(graph, marks, graph.id(index))?;
        done.places.push(place)?;
    }
    let place = done.place(root);
    Ok((done.graph, place))
}
