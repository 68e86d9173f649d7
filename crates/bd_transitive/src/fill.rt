//! Fill-in. Vertices are known by their places here, and edges by their spans. The vertices are gone through in
//! order. The first of a vertex's later neighbours is joined to the others, and that is enough: two of the others
//! are both later neighbours of the first, so they are joined when it has its turn.
ghost use Rattle.std.specs.Prelude.{◌≡◌, ◌≢◌, ◌<◌, ◌≤◌, ℕ, [], All, AllPairs, Contains, IfOk, MatchOption, OnOk, length};
ghost use Rattle.bd_transitive.specs.inner.Spans.{IsSpan, IsComplete, IsFilled};
ghost use Rattle.bd_transitive.specs.inner.Rows.{HaveEnds, JoinedToAll};

use crate::rows::{PlaceRows, empty_rows};
use crate::span::Span;
use bd_list::Sequence;
use indexmap::IndexSet;
use std::alloc::{AllocError, Global};
use std::mem;

/// Adds spans after the others until each two later neighbours of a vertex are joined.
pub(crate) fn fill(
    alloc: Global,
    count: usize,
    spans: &mut IndexSet<Span>,
) -> Result<(), AllocError>
    requires { All (IsSpan count) spans.old.keys }
    ensures complete { OnOk result (IsComplete count spans.new.keys) }
    ensures filled { OnOk result (IsFilled spans.old.keys spans.new.keys) }
{
    let mut rows = rows_of(alloc, count, spans.as_slice())?;
    for low in 0..count {
        let row = mem::replace(&mut rows[low], Sequence::new(alloc));
        if let Some(parent) = least(row.as_slice()) {
            join_to_all(spans, &mut rows, parent, row.as_slice())?;
        }
    }
    Ok(())
}

/// The least of the numbers.
fn least(numbers: &[usize]) -> Option<usize>
    ensures { MatchOption result
        (numbers.now ≡ [])
        (λ m. Contains numbers.now m × All (λ n. m ≤ n) numbers.now) }
{
    numbers.iter().copied().min()
}

/// The later neighbours of each of that many vertices.
fn rows_of(alloc: Global, count: usize, spans: &[Span]) -> Result<PlaceRows, AllocError>
    requires { All (IsSpan count) spans.now }
    ensures size { IfOk result (λ rows. length rows.items ≡ count) }
    ensures ends { IfOk result (λ rows. HaveEnds spans.now rows.items 0) }
{
    let mut rows = empty_rows(alloc, count)?;
    for span in spans {
        rows[span.low].push(span.high)?;
    }
    Ok(rows)
}

/// Joins a vertex to each other vertex of a list.
fn join_to_all(
    spans: &mut IndexSet<Span>,
    rows: &mut PlaceRows,
    low: usize,
    all: &[usize],
) -> Result<(), AllocError>
    requires low { low < length rows.old.items }
    requires later { All (λ high. low ≤ high) all.now }
    requires distinct { AllPairs (λ s t. s ≢ t) spans.old.keys }
    ensures joined { OnOk result (JoinedToAll spans.old.keys spans.new.keys low all.now) }
    ensures distinct { OnOk result (AllPairs (λ s t. s ≢ t) spans.new.keys) }
    ensures ends { OnOk result ((from : ℕ) →
        HaveEnds spans.old.keys rows.old.items from → HaveEnds spans.new.keys rows.new.items from) }
    ensures size { OnOk result (length rows.new.items ≡ length rows.old.items) }
{
    for &high in all {
        if high != low && spans.insert(Span { low, high })? {
            rows[low].push(high)?;
        }
    }
    Ok(())
}
