//! Classes of vertices.
ghost use Rattle.std.specs.Prelude.{◌≡◌, ◌<◌, ◌≤◌, ℕ, All, IfOk, length, slice_index};
ghost use Rattle.bd_transitive.specs.Orders.{IsOrder};
ghost use Rattle.bd_transitive.specs.Triangle.{AgreesWithClasses, BeginClasses, MeetsTriangles, class_of, value_at};
ghost use Rattle.bd_transitive.specs.inner.Spans.{IsSpan};
ghost use Rattle.bd_transitive.specs.inner.Links.{AreFollowed, AreLinks};

use crate::graph::{Classes, EdgeValues, Order};
use crate::span::{Span, indexed, spans};
use std::alloc::{AllocError, Global};

/// Classes in which two ends of an edge have the same number exactly where the edge is true. The vertices are
/// gone through backwards: each takes the class of a later neighbour whose edge is true, or else its own place.
pub fn classes(alloc: Global, order: &Order, values: &EdgeValues) -> Result<Classes, AllocError>
    requires order { IsOrder order.now }
    requires values { length values.now ≡ length order.now.edges }
    requires meets { MeetsTriangles order.now (value_at values.now) }
    ensures agrees { IfOk result (λ c.
        AgreesWithClasses order.now.edges (value_at values.now) (class_of order.now.vertices c)) }
    ensures new { IfOk result (BeginClasses order.now (value_at values.now)) }
    ensures all { IfOk result (λ c. length c ≡ length order.now.vertices) }
    ensures below { IfOk result (λ c. All (λ class. class < length order.now.vertices) c) }
{
    let vertices = indexed(alloc, order.vertices.as_slice())?;
    let spans = spans(alloc, &vertices, order.edges.as_slice())?;
    let links = links(alloc, vertices.len(), &spans, values.as_slice())?;
    Ok(Classes::from_vec(followed(alloc, &links)?))
}

/// Each place, in order.
fn own_places(alloc: Global, count: usize) -> Result<Vec<u64>, AllocError>
    ensures size { IfOk result (λ places. length places.items ≡ count) }
    ensures own { IfOk result (λ places. (p : ℕ) → p < count → slice_index places.items p ≡ p) }
{
    let mut places = Vec::with_capacity(alloc, count)?;
    for place in 0..count {
        places.push(place as u64)?;
    }
    Ok(places)
}

/// For each place that of a later neighbour whose edge is true, or the place itself where there is none.
fn links(
    alloc: Global,
    count: usize,
    spans: &[Span],
    values: &[bool],
) -> Result<Vec<u64>, AllocError>
    requires bounded { All (IsSpan count) spans.now }
    requires values { length values.now ≡ length spans.now }
    ensures { IfOk result (λ links.
        AreLinks spans.now (value_at values.now) count (length spans.now) links.items) }
{
    let mut links = own_places(alloc, count)?;
    for (e, span) in spans.iter().enumerate() {
        let is_true = values[e];
        if is_true {
            links[span.low] = span.high as u64;
        }
    }
    Ok(links)
}

/// The place at which each place ends that follows the links.
fn followed(alloc: Global, links: &[u64]) -> Result<Vec<u64>, AllocError>
    requires { (p : ℕ) → p < length links.now →
        (p ≤ slice_index links.now p) × (slice_index links.now p < length links.now) }
    ensures { IfOk result (λ ends. AreFollowed links.now ends.items 0) }
{
    let mut ends = own_places(alloc, links.len())?;
    for place in (0..links.len()).rev() {
        let next = links[place] as usize;
        ends[place] = ends[next];
    }
    Ok(ends)
}
