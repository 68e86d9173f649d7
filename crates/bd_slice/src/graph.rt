//! What values rest on, as a graph.
//!
//! A node is a place of the case, or two nodes together. Nodes are made as the run goes on, each after those that it
//! stands on, so what several values rest on is noted once. The first node stands for nothing: constants rest on it.
ghost use Rattle.std.specs.Prelude.{◌≡◌, IfOk, IsTrue, slice_get};
ghost use Rattle.bd_model.specs.declared.case.Case.{Case};
ghost use Rattle.bd_slice.specs.Places.{AgreesAt};
ghost use Rattle.bd_slice.specs.inner.Followed.{Other, Holds, Grows};

use crate::place::CasePlace;
use bd_model::Sequence;
use std::alloc::{AllocError, Global};

/// What a value rests on: nothing, a place of the case, or all that two nodes rest on.
#[derive(Drop)]
pub enum SupportNode {
    Nothing,
    Place(CasePlace),
    Both(usize, usize),
}

/// A list of nodes.
pub type SupportNodes = Sequence<SupportNode>;

/// The nodes made so far.
#[derive(Drop)]
pub struct SupportGraph {
    pub nodes: SupportNodes,
}

impl SupportGraph {
    /// The graph of the node that stands for nothing.
    pub fn new(alloc: Global) -> Result<SupportGraph, AllocError> {
        let mut nodes = Sequence::new(alloc);
        nodes.push(SupportNode::Nothing)?;
        Ok(SupportGraph { nodes })
    }

    /// Adds a node, and gives its number.
    fn push(&mut self, node: SupportNode) -> Result<usize, AllocError>
        ensures grows { IfOk result (λ n. Grows self.old.nodes self.new.nodes) }
        ensures at { IfOk result (λ n. slice_get self.new.nodes n ≡ Some node) }
    {
        let place = self.nodes.len();
        self.nodes.push(node)?;
        Ok(place)
    }

    /// The node of a place.
    pub fn place(&mut self, place: CasePlace) -> Result<usize, AllocError>
        ensures grows { IfOk result (λ n. Grows self.old.nodes self.new.nodes) }
        ensures agrees { IfOk result (λ n. (c : Case) (o : Other) →
            Holds c self.new.nodes o → IsTrue (o.has n) → AgreesAt c o.case place) }
    {
        let node = self.push(SupportNode::Place(place))?;
        Ok(node)
    }

    /// The node of all that these two rest on.
    pub fn both(&mut self, a: usize, b: usize) -> Result<usize, AllocError>
        ensures grows { IfOk result (λ n. Grows self.old.nodes self.new.nodes) }
        ensures first { IfOk result (λ n. (c : Case) (o : Other) →
            Holds c self.new.nodes o → IsTrue (o.has n) → IsTrue (o.has a)) }
        ensures second { IfOk result (λ n. (c : Case) (o : Other) →
            Holds c self.new.nodes o → IsTrue (o.has n) → IsTrue (o.has b)) }
    {
        if a == 0 || a == b {
            return Ok(b);
        }
        if b == 0 {
            return Ok(a);
        }
        let node = self.push(SupportNode::Both(a, b))?;
        Ok(node)
    }
}
