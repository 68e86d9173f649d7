//! The clauses of triangles. The edges are gone through in order. Each makes a triangle with each earlier edge
//! that leads from the same vertex to another later neighbour.
ghost use Rattle.std.specs.Prelude.{◌≡◌, ◌≢◌, ◌↔◌, ◌<◌, ◌≤◌, ◌*◌, ◌++◌, ℕ, Bool, Some, All, AllPairs, Contains, IfOk, OnOk, length, slice_get};
ghost use Rattle.bd_cnf.specs.Clause.{Satisfies};
ghost use Rattle.bd_cnf.specs.Problem.{AreWithin};
ghost use Rattle.bd_transitive.specs.Clauses.{AreTriangleClauses, implication, placed, triangle_clauses};
ghost use Rattle.bd_transitive.specs.Orders.{IsOrder};
ghost use Rattle.bd_transitive.specs.Triangle.{MeetsTriangles, edge_value, triangle, triangle_count};
ghost use Rattle.bd_transitive.specs.inner.Spans.{AddsFan, AreClausesBelow, IsComplete, IsEarlier};

use crate::graph::{Order, Triangles};
use crate::rows::empty_rows;
use crate::span::{Span, between, indexed, spans};
use bd_cnf::{Clause, Lit};
use indexmap::IndexSet;
use std::alloc::{AllocError, Global};

/// For each vertex and each two of its later neighbours three clauses over the variables of the edges, which forbid
/// that exactly two edges of the triangle are true.
pub fn triangles(alloc: Global, order: &Order, variables: &[u64]) -> Result<Triangles, AllocError>
    requires order { IsOrder order.now }
    requires counted { length variables.now ≡ length order.now.edges }
    requires different { AllPairs (λ x y. x ≢ y) variables.now }
    requires from_one { All (λ x. 0 < x) variables.now }
    ensures clauses { IfOk result (AreTriangleClauses order.now variables.now) }
    ensures meets { IfOk result (λ t. (v : ℕ → Bool) →
        Satisfies v t ↔ MeetsTriangles order.now (edge_value v variables.now)) }
    ensures three { IfOk result (λ t. length t ≡ 3 * triangle_count order.now) }
    ensures within { IfOk result (λ t. (vars : ℕ) →
        All (λ x. x ≤ vars) variables.now → AreWithin vars t) }
{
    let vertices = indexed(alloc, order.vertices.as_slice())?;
    let given = spans(alloc, &vertices, order.edges.as_slice())?;
    let numbers = indexed(alloc, &given)?;
    clauses(alloc, vertices.len(), &numbers, variables)
}

/// The clauses for the triangles of these spans.
fn clauses(
    alloc: Global,
    count: usize,
    spans: &IndexSet<Span>,
    variables: &[u64],
) -> Result<Triangles, AllocError>
    requires complete { IsComplete count spans.now.keys }
    requires counted { length variables.now ≡ length spans.now.keys }
    requires different { AllPairs (λ x y. x ≢ y) variables.now }
    requires from_one { All (λ x. 0 < x) variables.now }
    ensures { IfOk result (AreClausesBelow spans.now.keys variables.now (length spans.now.keys)) }
{
    let mut rows = empty_rows(alloc, count)?;
    let mut clauses = Triangles::new(alloc);
    for (e, span) in spans.as_slice().iter().enumerate() {
        let row = rows[span.low].as_slice();
        push_fan(alloc, &mut clauses, spans, variables, row, e)?;
        rows[span.low].push(e)?;
    }
    Ok(clauses)
}

/// The clauses for the triangles of one span with some earlier ones from the same place.
fn push_fan(
    alloc: Global,
    clauses: &mut Triangles,
    spans: &IndexSet<Span>,
    variables: &[u64],
    row: &[usize],
    e: usize,
) -> Result<(), AllocError>
    requires row { All (IsEarlier spans.now.keys e) row.now }
    requires number { e < length spans.now.keys }
    requires complete { (count : ℕ) × IsComplete count spans.now.keys }
    requires counted { length variables.now ≡ length spans.now.keys }
    requires different { AllPairs (λ x y. x ≢ y) variables.now }
    requires from_one { All (λ x. 0 < x) variables.now }
    ensures { OnOk result (
        AddsFan spans.now.keys variables.now row.now e clauses.old clauses.new) }
{
    let all = spans.as_slice();
    for &d in row {
        let f = number_of(spans, between(all[d].high, all[e].high));
        push_triangle(alloc, clauses, variables, d, e, f)?;
    }
    Ok(())
}

/// The number of a span that is there.
fn number_of(spans: &IndexSet<Span>, span: Span) -> usize
    requires { Contains spans.now.keys span }
    ensures value { slice_get spans.now.keys result ≡ Some span }
    ensures within { result < length spans.now.keys }
{
    spans.get_index_of(&span).unwrap_or(0)
}

/// The three clauses of a triangle with edges of these numbers.
fn push_triangle(
    alloc: Global,
    clauses: &mut Triangles,
    variables: &[u64],
    d: usize,
    e: usize,
    f: usize,
) -> Result<(), AllocError>
    requires rising { d < e }
    requires third { (f ≢ d) × (f ≢ e) }
    requires within { (e < length variables.now) × (f < length variables.now) }
    requires different { AllPairs (λ x y. x ≢ y) variables.now }
    requires from_one { All (λ x. 0 < x) variables.now }
    ensures { OnOk result (
        clauses.new ≡ clauses.old ++ triangle_clauses variables.now (triangle d e f)) }
{
    let low = variables[d.min(f)];
    let middle = variables[d.max(f.min(e))];
    let high = variables[e.max(f)];
    clauses.push(implication(alloc, low, middle, high)?)?;
    clauses.push(implication(alloc, low, high, middle)?)?;
    clauses.push(implication(alloc, middle, high, low)?)?;
    Ok(())
}

/// The clause that a variable is true where two others are.
fn implication(alloc: Global, a: u64, b: u64, c: u64) -> Result<Clause, AllocError>
    requires first { (a ≢ b) × (0 < a) }
    requires second { (a ≢ c) × (0 < b) }
    requires third { (b ≢ c) × (0 < c) }
    ensures { IfOk result (λ clause. clause ≡ implication a b c) }
{
    let lits = Vec::from_array(alloc, placed(a.min(b), a.max(b), c))?;
    Ok(Clause::from_rising(lits))
}

/// The literals of an implication, by rising variable.
fn placed(low: u64, high: u64, third: u64) -> [Lit; 3]
    requires { (0 < low) × (0 < high) × (0 < third) }
    ensures { result ≡ placed low high third }
{
    let first = Lit::new(low, false);
    let second = Lit::new(high, false);
    let given = Lit::new(third, true);
    if third < low {
        [given, first, second]
    } else if third < high {
        [first, given, second]
    } else {
        [first, second, given]
    }
}
