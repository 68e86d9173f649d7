//! The formula's truth graph with its edges.
ghost use Rattle.std.specs.Prelude.{◌≡◌, ◌<◌, ◌↔◌, ◌⊎◌, All, Contains, IfOk, OnOk, length, option_copied};
ghost use Rattle.bd_prop.specs.Graph.{IsGraph};
ghost use Rattle.bd_transitive.specs.Edges.{AreEdges};
ghost use Rattle.bd_transitive.specs.declared.graph.Edge.{Edge as TheEdge};
ghost use Rattle.bd_equality.specs.Encoding.{Encodes, EncodesByEdges};
ghost use Rattle.bd_equality.specs.Edges.{IsApart, IsEdge, ReachesEdge};
ghost use Rattle.bd_equality.specs.Made.{Made, Term};
ghost use Rattle.bd_equality.specs.inner.Apart.{IsReached};
ghost use Rattle.bd_equality.specs.inner.Means.{HasAtoms};

use crate::apart::apart;
use crate::encoding::Encoding;
use crate::pairs::Pairs;
use crate::rows::row_words;
use crate::trees::Trees;
use crate::wanted::Wanted;
use bd_function::{Flat, Marked};
use bd_model::Distinct;
use bd_prop::{Atom, Prop, PropNode};
use bd_transitive::Edges;
use std::alloc::{AllocError, Global};

/// A truth graph with its root, its edges, and those of them between constants that are kept apart.
#[derive(Drop)]
pub struct Encoded {
    pub prop: Prop,
    pub root: usize,
    pub edges: Edges,
    pub apart: Edges,
}

/// The formula with an atom for each two variables that are compared. An equation between two variables of which
/// one is marked is false, and has no edge.
pub fn encode(
    alloc: Global,
    flat: &Flat,
    distinct: &Distinct,
    marked: Option<&Marked>,
) -> Result<Encoded, AllocError>
    ensures root { IfOk result (λ e. e.root < length e.prop) }
    ensures graph { IfOk result (λ e. IsGraph e.prop) }
    ensures denotes { IfOk result (λ e.
        Encodes flat.now.graph flat.now.root (option_copied marked.entry) e.prop e.root) }
    ensures made { IfOk result (λ e. Made flat.now.graph flat.now.syms
        (option_copied marked.entry) e.prop (Term flat.now.root) e.root) }
    ensures by_edges { IfOk result (λ e.
        EncodesByEdges flat.now.graph flat.now.root (option_copied marked.entry) e.edges e.prop
        e.root) }
    ensures simple { IfOk result (λ e. AreEdges e.edges) }
    ensures edges { IfOk result (λ e. (edge : TheEdge) → Contains e.edges edge
        ↔ (ReachesEdge e.prop e.root edge ⊎ Contains e.apart edge)) }
    ensures vertices { IfOk result (λ e. All (IsEdge flat.now.graph (option_copied marked.entry))
        e.edges) }
    ensures apart { IfOk result (λ e. (edge : TheEdge) → Contains e.apart edge
        ↔ IsApart flat.now.graph flat.now.syms distinct.now (option_copied marked.entry) edge) }
    ensures apart_simple { IfOk result (λ e. AreEdges e.apart) }
{
    let (prop, root) = truth_graph(alloc, flat, marked)?;
    let pairs = apart(alloc, flat, distinct, marked)?;
    let apart = pairs.edges(alloc)?;
    let edges = with_reached(alloc, &prop, root, pairs)?.edges(alloc)?;
    Ok(Encoded {
        prop,
        root,
        edges,
        apart,
    })
}

/// The truth graph of the formula, and its root.
fn truth_graph(
    alloc: Global,
    flat: &Flat,
    marked: Option<&Marked>,
) -> Result<(Prop, usize), AllocError>
    ensures atoms { IfOk result (λ r. HasAtoms flat.now.graph (option_copied marked.entry) r.0) }
    ensures inside { IfOk result (λ r. r.1 < length r.0) }
    ensures denotes { IfOk result (λ r. Encodes flat.now.graph flat.now.root
        (option_copied marked.entry) r.0 r.1) }
    ensures made { IfOk result (λ r. Made flat.now.graph flat.now.syms
        (option_copied marked.entry) r.0 (Term flat.now.root) r.1) }
{
    let rows = row_words(alloc, flat, marked)?;
    let mut trees = Trees::new(alloc, flat.graph.len(), marked.is_some())?;
    let mut encoding = Encoding::new(alloc);
    let wanted = Wanted::Truth(flat.root);
    encoding.settle(flat, marked, &rows, &mut trees, &wanted)?;
    let root = encoding.settled.node(&wanted);
    Ok((encoding.prop, root))
}

/// The edges with those whose atoms the root reaches.
fn with_reached(alloc: Global, prop: &Prop, root: usize, pairs: Pairs) -> Result<Pairs, AllocError>
    requires { root < length prop.now }
    ensures edges { IfOk result (λ all. (edge : TheEdge) → Contains all edge
        ↔ (ReachesEdge prop.now root edge ⊎ Contains pairs edge)) }
    ensures graph { OnOk result (IsGraph prop.now) }
{
    let marks = bd_prop::reached(alloc, prop, root)?;
    let mut pairs = pairs;
    let nodes = prop.nodes();
    for (id, node) in nodes.iter().enumerate() {
        add_edge(&mut pairs, node, marks.as_slice()[id])?;
    }
    Ok(pairs)
}

/// Puts the edge of an atom into the set, if the atom is reached.
fn add_edge(pairs: &mut Pairs, node: &PropNode, is_reached: bool) -> Result<(), AllocError>
    ensures { OnOk result ((e : TheEdge) → Contains pairs.new e
        ↔ (Contains pairs.old e ⊎ IsReached is_reached node.now e)) }
{
    if let PropNode::Atom(atom) = node {
        if let Atom::Edge(from, to) = *atom {
            if is_reached {
                pairs.insert(from, to)?;
            }
        }
    }
    Ok(())
}
