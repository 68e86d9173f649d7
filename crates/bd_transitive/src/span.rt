//! Edges by the places of their ends in the order of the vertices.
ghost use Rattle.std.specs.Prelude.{◌≡◌, ℕ, map, IfOk};
ghost use Rattle.std.specs.List.{IsDistinct};
ghost use Rattle.bd_transitive.specs.Orders.{place};
ghost use Rattle.bd_transitive.specs.inner.Spans.{span_between, span_of};

use crate::graph::Edge;
use indexmap::IndexSet;
use std::alloc::{AllocError, Global};
use std::hash::Hash;

/// The places of the two ends of an edge, the one that is eliminated first before the other.
#[derive(Clone, Copy, PartialEq, Eq, Hash)]
pub(crate) struct Span {
    pub(crate) low: usize,
    pub(crate) high: usize,
}

/// The span between two places.
pub(crate) fn between(a: usize, b: usize) -> Span
    ensures { result ≡ span_between a b }
{
    Span {
        low: a.min(b),
        high: a.max(b),
    }
}

/// The place of a vertex: the number of vertices where it is not there.
fn place_of(vertices: &IndexSet<u64>, v: u64) -> usize
    ensures { result ≡ place vertices.now.keys v }
{
    vertices.get_index_of(&v).unwrap_or(vertices.len())
}

/// The span of each edge.
pub(crate) fn spans(
    alloc: Global,
    vertices: &IndexSet<u64>,
    edges: &[Edge],
) -> Result<Vec<Span>, AllocError>
    ensures { IfOk result (λ s. s.items ≡ map (span_of vertices.now.keys) edges.now) }
{
    let mut spans = Vec::with_capacity(alloc, edges.len())?;
    for edge in edges {
        let from = place_of(vertices, edge.from);
        let to = place_of(vertices, edge.to);
        spans.push(between(from, to))?;
    }
    Ok(spans)
}

/// The items of a list without repeats, by their places.
pub(crate) fn indexed<T: Copy + Eq + Hash>(
    alloc: Global,
    items: &[T],
) -> Result<IndexSet<T>, AllocError>
    requires { IsDistinct T.eq items.now }
    ensures { IfOk result (λ s. s.keys ≡ items.now) }
{
    let mut set = IndexSet::new(alloc);
    for &item in items {
        set.insert(item)?;
    }
    Ok(set)
}
