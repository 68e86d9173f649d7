//! The nodes that are made.
ghost use Rattle.std.specs.Prelude.{◌≡◌, [], Some, OnOk, if◌then◌else◌};
ghost use Rattle.bd_equality.specs.declared.wanted.Wanted.{Wanted as TheWanted};
ghost use Rattle.bd_equality.specs.inner.Sets.{done_in, is_wanted, known};
ghost use Rattle.bd_equality.specs.inner.Steps.{IsKnown, IsNode};

use crate::wanted::{Wanted, Way};
use indexmap::IndexMap;
use std::alloc::{AllocError, Global};
use std::marker::Model;

/// A node, and the way in which it was made.
#[derive(Clone, Copy)]
pub(crate) struct Done {
    pub(crate) way: Way,
    pub(crate) node: usize,
}

/// A node of the truth graph for each truth value and equation that is settled.
#[derive(Drop)]
pub(crate) struct Settled {
    nodes: IndexMap<Wanted, Done>,
}

impl Model for Settled {
    ghost use Rattle.std.specs.Prelude.{List};
    ghost use Rattle.bd_equality.specs.declared.settled.Done.{Done as TheDone};
    ghost use Rattle.bd_equality.specs.declared.wanted.Wanted.{Wanted as TheWanted};

    ghost Value = { List (TheWanted × TheDone) };

    ghost view = { λ s. s.nodes.entries };
}

impl Settled {
    /// The map that keeps no node. It takes no memory.
    pub(crate) fn new(alloc: Global) -> Settled
        ensures { result ≡ [] }
    {
        Settled {
            nodes: IndexMap::new(alloc),
        }
    }

    /// What is kept, if anything.
    pub(crate) fn get(&self, wanted: &Wanted) -> Option<Done>
        ensures { result ≡ known self.now wanted.now }
    {
        self.nodes.get(wanted).copied()
    }

    /// The node of what is settled.
    pub(crate) fn node(&self, wanted: &Wanted) -> usize
        requires { IsKnown self.now wanted.now }
        ensures { IsNode self.now wanted.now result }
    {
        match self.get(wanted) {
            Some(done) => done.node,
            None => 0,
        }
    }

    /// Keeps a node, and the way in which it was made.
    pub(crate) fn keep(&mut self, wanted: &Wanted, way: Way, node: usize) -> Result<(), AllocError>
        ensures { OnOk result ((w : TheWanted) → known self.new w
            ≡ (if is_wanted wanted.now w then Some (done_in way node) else known self.old w)) }
    {
        self.nodes.insert(*wanted, Done { way, node })?;
        Ok(())
    }
}
