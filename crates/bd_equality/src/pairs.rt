//! Sets of edges.
ghost use Rattle.std.specs.Prelude.{◌≡◌, ◌≢◌, ◌↔◌, ◌⊎◌, [], AllPairs, Contains, IfOk, OnOk};
ghost use Rattle.bd_equality.specs.inner.Means.{edge};
ghost use Rattle.bd_transitive.specs.declared.graph.Edge.{Edge as TheEdge};

use bd_transitive::{Edge, Edges};
use indexmap::IndexSet;
use std::alloc::{AllocError, Global};
use std::marker::Model;

/// Two variables.
#[derive(Clone, Copy, PartialEq, Eq, Hash)]
struct VariablePair {
    from: u64,
    to: u64,
}

/// Edges, each once.
#[derive(Drop)]
pub(crate) struct Pairs {
    pairs: IndexSet<VariablePair>,
}

impl Model for Pairs {
    ghost use Rattle.std.specs.Prelude.{List, map};
    ghost use Rattle.bd_transitive.specs.declared.graph.Edge.{Edge};
    ghost use Rattle.bd_equality.specs.inner.Sets.{edge_of};

    ghost Value = { List Edge };

    ghost view = { λ p. map edge_of p.pairs.keys };
}

impl Pairs {
    /// The set of no edge. It takes no memory.
    pub(crate) fn new(alloc: Global) -> Pairs
        ensures { result ≡ [] }
    {
        Pairs {
            pairs: IndexSet::new(alloc),
        }
    }

    /// Puts the edge between two variables into the set.
    pub(crate) fn insert(&mut self, from: u64, to: u64) -> Result<(), AllocError>
        ensures { OnOk result ((e : TheEdge) →
            Contains self.new e ↔ (Contains self.old e ⊎ (edge from to ≡ e))) }
    {
        self.pairs.insert(VariablePair { from, to })?;
        Ok(())
    }

    /// The edges, in the order in which they came.
    pub(crate) fn edges(&self, alloc: Global) -> Result<Edges, AllocError>
        ensures edges { IfOk result (λ edges. edges ≡ self.now) }
        ensures once { AllPairs (λ e f. e ≢ f) self.now }
    {
        let mut edges = Edges::new(alloc);
        for pair in self.pairs.as_slice() {
            edges.push(Edge {
                from: pair.from,
                to: pair.to,
            })?;
        }
        Ok(edges)
    }
}
