//! Which vertex is eliminated next: one with fewest neighbours among those left, the least number among equals. This
//! keeps the fill-in small.
ghost use Rattle.std.specs.Prelude.{◌≡◌, ◌↔◌, ◌⊎◌, ◌<◌, ◌≤◌, ◌+◌, ◌==◌, ◌&&◌, ◌||◌, not, true, false, ℕ, Contains, IfOk, IfSome, IsNone, OnOk, length, nat_eq};
ghost use Rattle.std.specs.HashMap.{hash_map_len};
ghost use Rattle.std.specs.List.{IsDistinct};
ghost use Rattle.std.specs.Set.{is_member};
ghost use Rattle.bd_transitive.specs.Edges.{AreEdges, IsEnd};
ghost use Rattle.bd_transitive.specs.Elimination.{IsByLeastDegree, joined_by};
ghost use Rattle.bd_transitive.specs.inner.EliminationGraph.{is_end, is_left, is_neighbour, neighbours, rejoined, IsQueued, IsSound};

use crate::graph::Edge;
use indexmap::IndexSet;
use std::alloc::{AllocError, Global};
use std::collections::{BTreeSet, HashMap};

/// The vertices that are left, with their neighbours among these.
#[derive(Drop)]
pub(crate) struct EliminationGraph {
    neighbours: HashMap<u64, IndexSet<u64>>,
    /// The vertices by how many neighbours they have or had.
    queue: BTreeSet<(usize, u64)>,
}

impl EliminationGraph {
    /// All ends of edges.
    fn of(alloc: Global, edges: &[Edge]) -> Result<EliminationGraph, AllocError>
        ensures sound { IfOk result IsSound }
        ensures left { IfOk result (λ l. (v : ℕ) → is_left l v ≡ is_end edges.now v) }
        ensures joined { IfOk result (λ l. (v w : ℕ) →
            is_neighbour l v w ≡ joined_by edges.now v w) }
    {
        let mut left = EliminationGraph {
            neighbours: HashMap::new(alloc),
            queue: BTreeSet::new(alloc),
        };
        for edge in edges {
            left.add_neighbour(alloc, edge.from, edge.to)?;
            left.add_neighbour(alloc, edge.to, edge.from)?;
        }
        Ok(left)
    }

    /// Notes a neighbour of a vertex.
    fn add_neighbour(&mut self, alloc: Global, vertex: u64, other: u64) -> Result<(), AllocError>
        requires { IsSound self.old }
        ensures sound { OnOk result (IsSound self.new) }
        ensures left { OnOk result ((v : ℕ) →
            is_left self.new v ≡ (is_left self.old v || (vertex == v))) }
        ensures joined { OnOk result ((v w : ℕ) → is_neighbour self.new v w
            ≡ (is_neighbour self.old v w || ((vertex == v) && (other == w)))) }
    {
        let mut own = match self.neighbours.remove(&vertex) {
            Some(own) => own,
            None => IndexSet::new(alloc),
        };
        own.insert(other)?;
        self.put(vertex, own)
    }

    /// Notes the neighbours of a vertex.
    fn put(&mut self, vertex: u64, own: IndexSet<u64>) -> Result<(), AllocError>
        requires sound { IsSound self.old }
        requires distinct { IsDistinct nat_eq own.keys }
        ensures sound { OnOk result (IsSound self.new) }
        ensures left { OnOk result ((v : ℕ) →
            is_left self.new v ≡ (is_left self.old v || (vertex == v))) }
        ensures own { OnOk result (neighbours self.new vertex ≡ own.keys) }
        ensures others { OnOk result ((v : ℕ) → (vertex == v) ≡ false →
            neighbours self.new v ≡ neighbours self.old v) }
        ensures count { OnOk result (is_left self.old vertex ≡ false →
            hash_map_len self.new.neighbours ≡ hash_map_len self.old.neighbours + 1) }
    {
        self.queue.insert((own.len(), vertex))?;
        self.neighbours.insert(vertex, own)?;
        Ok(())
    }

    /// Whether a vertex is left and has so many neighbours.
    fn has_degree(&self, vertex: u64, degree: usize) -> bool
        ensures { result
            ≡ (is_left self.now vertex && (length (neighbours self.now vertex) == degree)) }
    {
        match self.neighbours.get(&vertex) {
            Some(own) => own.len() == degree,
            None => false,
        }
    }

    /// The next vertex, which leaves the queue.
    fn next(&mut self) -> Option<u64>
        requires { IsSound self.old }
        ensures same { self.new.neighbours ≡ self.old.neighbours }
        ensures none { IsNone result → (v : ℕ) → is_left self.old v ≡ false }
        ensures left { IfSome result (λ v. is_left self.old v ≡ true) }
        ensures fewest { IfSome result (λ v. (w : ℕ) → is_left self.old w ≡ true →
            (length (neighbours self.old v) < length (neighbours self.old w))
            ⊎ ((length (neighbours self.old v) ≡ length (neighbours self.old w)) × (v ≤ w))) }
        ensures queued { IfSome result (λ v. (w : ℕ) → is_left self.old w ≡ true →
            (v == w) ≡ false → IsQueued self.new w) }
    {
        while let Some((degree, vertex)) = self.queue.pop_first() {
            if self.has_degree(vertex, degree) {
                return Some(vertex);
            }
        }
        None
    }

    /// Joins the neighbours of a vertex that was taken out pairwise.
    fn join(&mut self, gone: u64, own: &[u64]) -> Result<(), AllocError>
        requires sound { IsSound self.old }
        requires distinct { IsDistinct nat_eq own.now }
        requires left { (v : ℕ) → is_member nat_eq own.now v ≡ true → is_left self.old v ≡ true }
        ensures sound { OnOk result (IsSound self.new) }
        ensures left { OnOk result ((v : ℕ) → is_left self.new v ≡ is_left self.old v) }
        ensures joined { OnOk result ((v : ℕ) → is_member nat_eq own.now v ≡ true →
            (w : ℕ) → is_neighbour self.new v w
            ≡ rejoined (is_neighbour self.old v) own.now gone v w) }
        ensures others { OnOk result ((v : ℕ) → is_member nat_eq own.now v ≡ false →
            neighbours self.new v ≡ neighbours self.old v) }
        ensures count { OnOk result
            (hash_map_len self.new.neighbours ≡ hash_map_len self.old.neighbours) }
    {
        for &vertex in own {
            self.rejoin(vertex, gone, own)?;
        }
        Ok(())
    }

    /// Joins a neighbour of a vertex that was taken out to all other neighbours of that one.
    fn rejoin(&mut self, vertex: u64, gone: u64, own: &[u64]) -> Result<(), AllocError>
        requires sound { IsSound self.old }
        requires left { is_left self.old vertex ≡ true }
        ensures sound { OnOk result (IsSound self.new) }
        ensures left { OnOk result ((v : ℕ) → is_left self.new v ≡ is_left self.old v) }
        ensures joined { OnOk result ((w : ℕ) → is_neighbour self.new vertex w
            ≡ rejoined (is_neighbour self.old vertex) own.now gone vertex w) }
        ensures others { OnOk result ((v : ℕ) → (vertex == v) ≡ false →
            neighbours self.new v ≡ neighbours self.old v) }
        ensures count { OnOk result
            (hash_map_len self.new.neighbours ≡ hash_map_len self.old.neighbours) }
    {
        match self.neighbours.remove(&vertex) {
            Some(theirs) => {
                let mut theirs = theirs;
                theirs.swap_remove(&gone);
                add_all_but(&mut theirs, own, vertex)?;
                self.put(vertex, theirs)
            }
            None => unreachable!(),
        }
    }
}

/// Adds all of these but one to a set.
fn add_all_but(set: &mut IndexSet<u64>, all: &[u64], one: u64) -> Result<(), AllocError>
    requires { IsDistinct nat_eq set.old.keys }
    ensures distinct { OnOk result (IsDistinct nat_eq set.new.keys) }
    ensures added { OnOk result ((w : ℕ) → is_member nat_eq set.new.keys w
        ≡ (is_member nat_eq set.old.keys w || (is_member nat_eq all.now w && not (one == w)))) }
{
    for &other in all {
        if other != one {
            set.insert(other)?;
        }
    }
    Ok(())
}

/// The ends of the edges in the order in which they are eliminated.
pub(crate) fn fewest_first(alloc: Global, edges: &[Edge]) -> Result<Vec<u64>, AllocError>
    requires { AreEdges edges.now }
    ensures fewest { IfOk result (λ vs. IsByLeastDegree (joined_by edges.now) vs.items) }
    ensures distinct { IfOk result (λ vs. IsDistinct nat_eq vs.items) }
    ensures ends { IfOk result (λ vs. (v : ℕ) → Contains vs.items v ↔ IsEnd edges.now v) }
{
    let mut left = EliminationGraph::of(alloc, edges)?;
    let mut order = Vec::with_capacity(alloc, left.neighbours.len())?;
    while let Some(vertex) = left.next() {
        match left.neighbours.remove(&vertex) {
            Some(own) => left.join(vertex, own.as_slice())?,
            None => unreachable!(),
        }
        order.push(vertex)?;
    }
    Ok(order)
}
