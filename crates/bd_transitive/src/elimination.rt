//! Elimination orders.
ghost use Rattle.std.specs.Prelude.{◌≡◌, ◌↔◌, ◌<◌, ◌≤◌, ◌++◌, ℕ, List, All, Contains, IfOk, length, take, drop, map, nat_eq};
ghost use Rattle.std.specs.List.{IsDistinct};
ghost use Rattle.bd_transitive.specs.Edges.{AreEdges, IsEnd};
ghost use Rattle.bd_transitive.specs.Elimination.{IsByLeastDegree, joined_by};
ghost use Rattle.bd_transitive.specs.Orders.{IsOrder, IsFillIn};
ghost use Rattle.bd_transitive.specs.inner.Spans.{IsSpan, filled_order};

use crate::fill::fill;
use crate::graph::{Edge, Edges, Order, Vertices};
use crate::min_degree::fewest_first;
use crate::span::{Span, indexed, spans};
use indexmap::IndexSet;
use std::alloc::{AllocError, Global};

/// An elimination order of the ends of the edges. Again and again a vertex with fewest neighbours among those
/// left is taken out (the least number among equals), once its later neighbours are joined pairwise. The edges
/// that are added for this come after the given ones.
pub fn order(alloc: Global, edges: &Edges) -> Result<Order, AllocError>
    requires { AreEdges edges.now }
    ensures order { IfOk result IsOrder }
    ensures fewest { IfOk result (λ o. IsByLeastDegree (joined_by edges.now) o.vertices) }
    ensures vertices { IfOk result (λ o. (v : ℕ) → Contains o.vertices v ↔ IsEnd edges.now v) }
    ensures given { IfOk result (λ o. take (length edges.now) o.edges ≡ edges.now) }
    ensures further { IfOk result (λ o. (e : ℕ) →
        length edges.now ≤ e → e < length o.edges → IsFillIn o e) }
{
    let vertices = ends(alloc, edges.as_slice())?;
    let given = spans(alloc, &vertices, edges.as_slice())?;
    let mut all = indexed(alloc, &given)?;
    fill(alloc, vertices.len(), &mut all)?;
    filled(alloc, vertices.as_slice(), edges.as_slice(), all.as_slice())
}

/// The ends of the edges, each once, in the order in which they are eliminated.
fn ends(alloc: Global, edges: &[Edge]) -> Result<IndexSet<u64>, AllocError>
    requires { AreEdges edges.now }
    ensures fewest { IfOk result (λ s. IsByLeastDegree (joined_by edges.now) s.keys) }
    ensures distinct { IfOk result (λ s. IsDistinct nat_eq s.keys) }
    ensures ends { IfOk result (λ s. (v : ℕ) → Contains s.keys v ↔ IsEnd edges.now v) }
{
    let vertices = fewest_first(alloc, edges)?;
    indexed(alloc, vertices.as_slice())
}

/// The order of the vertices with the given edges, and after them the edges of the further spans.
fn filled(
    alloc: Global,
    vertices: &[u64],
    given: &[Edge],
    spans: &[Span],
) -> Result<Order, AllocError>
    requires given { length given.now ≤ length spans.now }
    requires bounded { All (IsSpan (length vertices.now)) spans.now }
    ensures { IfOk result (λ o. o ≡ filled_order vertices.now given.now spans.now) }
{
    let mut edges = Vec::from_slice(alloc, given)?;
    for span in &spans[given.len()..] {
        edges.push(Edge {
            from: vertices[span.low],
            to: vertices[span.high],
        })?;
    }
    Ok(Order {
        vertices: Vertices::from_vec(Vec::from_slice(alloc, vertices)?),
        edges: Edges::from_vec(edges),
    })
}
