//! The slice of a value: the places of the case that its node rests on.
//!
//! What the node stands on is marked, node by node from the last. The marks are then tested: the first node has to have
//! one, the value's node too, and with each node those that it stands on. Were they to fail, every node would count as
//! marked.
ghost use Rattle.std.specs.Prelude.{◌≡◌, IfOk, IsTrue, List, true, slice_index_or};
ghost use Rattle.bd_model.specs.DesignView.{design_view};
ghost use Rattle.bd_model.specs.Fits.{Fits};
ghost use Rattle.bd_model.specs.Lawful.{IsLawful};
ghost use Rattle.bd_slice.specs.Columns.{Decides, spot_value};
ghost use Rattle.bd_model.specs.declared.table.Value.{Value};
ghost use Rattle.bd_slice.specs.inner.Followed.{Other, Holds, Grows, Follows, FollowsState};
ghost use Rattle.bd_slice.specs.Places.{AgreesOn};
ghost use Rattle.bd_model.specs.declared.case.Case.{Case};
ghost use Rattle.bd_slice.specs.inner.Runs.{StandsAt, StandsMarked, HasPlaceAt, HasPlaces};

use crate::column::run_of;
use crate::graph::{SupportGraph, SupportNode};
use crate::kept::{Kept, Traced, TracedWord, kept_at};
use crate::place::{CasePlace, CasePlaces, Column, Location};
use bd_model::{Case, Design, Sequence};
use std::alloc::{AllocError, Global};

/// The slice of a value of the diagram: places of the case that decide it.
pub fn slice_of(
    alloc: Global,
    design: &Design,
    case: &Case,
    column: Column,
    spot: Location,
) -> Result<CasePlaces, AllocError>
    requires lawful { IsLawful (design_view design.now) }
    requires fits { Fits (design_view design.now) case.now }
    ensures { IfOk result (λ places.
        Decides (design_view design.now) case.now column spot places) }
{
    let mut graph = SupportGraph::new(alloc)?;
    let state = run_of(alloc, &mut graph, design, case, column)?;
    let traced = spot_of(alloc, &mut graph, case, state.as_slice(), spot)?;
    let nodes = graph.nodes.as_slice();
    let marks = marks_of(alloc, nodes, traced.node)?;
    let places = places_of(alloc, nodes, marks.as_slice())?;
    Ok(places)
}

/// A value of a state, with what it rests on.
pub fn spot_of(
    alloc: Global,
    graph: &mut SupportGraph,
    case: &Case,
    state: &[Kept],
    spot: Location,
) -> Result<Traced, AllocError>
    ensures grows { IfOk result (λ t. Grows graph.old.nodes graph.new.nodes) }
    ensures follows { IfOk result (λ t. (o : Other) (values : List Value) →
        Holds case.now graph.new.nodes o → FollowsState o state.now values →
        Follows o t (spot_value values spot)) }
{
    match spot {
        Location::Latch(i) => Ok(kept_at(state, i)?.scalar()),
        Location::Cell(i, address) => {
            let memory = kept_at(state, i)?.memory(alloc)?;
            let at = TracedWord {
                word: address,
                node: 0,
            };
            let read = graph.read(case, &memory, at)?;
            Ok(read.scalar())
        }
    }
}

/// Marks of the nodes that this node stands on, where a node past the last counts as marked.
pub fn marks_of(alloc: Global, nodes: &[SupportNode], node: usize) -> Result<Vec<bool>, AllocError>
    ensures first { IfOk result (λ ms. IsTrue (slice_index_or ms.items 0 true)) }
    ensures node { IfOk result (λ ms. IsTrue (slice_index_or ms.items node true)) }
    ensures stands { IfOk result (λ ms. StandsMarked nodes.now ms.items) }
{
    let marks = marks_below(alloc, nodes, node)?;
    if has(marks.as_slice(), 0) && has(marks.as_slice(), node) && stands(nodes, marks.as_slice()) {
        return Ok(marks);
    }
    Ok(Vec::new(alloc))
}

/// Marks of the first node, of this node and of the nodes that it stands on.
fn marks_below(alloc: Global, nodes: &[SupportNode], node: usize) -> Result<Vec<bool>, AllocError> {
    let mut marks = Vec::new(alloc);
    for _node in nodes {
        marks.push(false)?;
    }
    mark(&mut marks, 0);
    mark(&mut marks, node);
    let mut left = nodes.len();
    while left > 0 {
        left -= 1;
        if let Some(SupportNode::Both(a, b)) = nodes.get(left) {
            if has(marks.as_slice(), left) {
                mark(&mut marks, *a);
                mark(&mut marks, *b);
            }
        }
    }
    Ok(marks)
}

/// Marks the node of this number, where there is one.
fn mark(marks: &mut [bool], i: usize) {
    if i < marks.len() {
        marks[i] = true;
    }
}

/// Whether the node of this number is marked, as one past the last is.
fn has(marks: &[bool], i: usize) -> bool
    ensures { result ≡ slice_index_or marks.now i true }
{
    match marks.get(i) {
        Some(mark) => *mark,
        None => true,
    }
}

/// Whether with each marked node the nodes that it stands on are marked.
fn stands(nodes: &[SupportNode], marks: &[bool]) -> bool
    ensures { IsTrue result → StandsMarked nodes.now marks.now }
{
    for (i, node) in nodes.iter().enumerate() {
        if !node_stands(node, marks, i) {
            return false;
        }
    }
    true
}

/// Whether the nodes that a node stands on are marked, where it is marked itself.
fn node_stands(node: &SupportNode, marks: &[bool], i: usize) -> bool
    ensures { IsTrue result → StandsAt marks.now i node.now }
{
    match node {
        SupportNode::Both(a, b) => !has(marks, i) || (has(marks, *a) && has(marks, *b)),
        _ => true,
    }
}

/// The places of the marked nodes.
pub fn places_of(
    alloc: Global,
    nodes: &[SupportNode],
    marks: &[bool],
) -> Result<CasePlaces, AllocError>
    ensures { IfOk result (λ ps. HasPlaces nodes.now marks.now ps) }
{
    let mut places = Vec::new(alloc);
    for (i, node) in nodes.iter().enumerate() {
        note_place(&mut places, node, marks, i)?;
    }
    Ok(Sequence::from_vec(places))
}

/// Notes the place of a node, where it is marked.
fn note_place(
    places: &mut Vec<CasePlace>,
    node: &SupportNode,
    marks: &[bool],
    i: usize,
) -> Result<(), AllocError>
    ensures { IfOk result (λ u. (c other : Case) → AgreesOn c places.new.items other →
        AgreesOn c places.old.items other × HasPlaceAt c other marks.now i node.now) }
{
    match node {
        SupportNode::Place(place) => {
            if !has(marks, i) {
                return Ok(());
            }
            places.push(place.clone()?)?;
            Ok(())
        }
        _ => Ok(()),
    }
}
