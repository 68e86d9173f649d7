//! Atoms, and finite maps from atoms to truth values.
ghost use Rattle.std.specs.Prelude.{◌≡◌, [], Some, None, OnOk, OnErr, if◌then◌else◌};
ghost use Rattle.bd_prop.specs.declared.atom.Atom.{Atom};
ghost use Rattle.bd_prop.specs.Values.{held, truth_of, is_atom};

use indexmap::IndexMap;
use std::alloc::{AllocError, Global};
use std::marker::Model;

/// What truth values are built from.
#[derive(Clone, Copy, PartialEq, Eq, Hash)]
pub enum Atom {
    /// Whether two word variables are equal.
    Edge(u64, u64),
    /// A truth variable.
    Truth(u64),
}

/// A finite map from atoms to truth values. An atom that it doesn't hold is false.
#[derive(Drop)]
pub struct AtomValues {
    values: IndexMap<Atom, bool>,
}

impl Model for AtomValues {
    ghost use Rattle.std.specs.Prelude.{List, Bool};
    ghost use Rattle.bd_prop.specs.declared.atom.Atom.{Atom};

    ghost Value = { List (Atom × Bool) };

    ghost view = { λ a. a.values.entries };
}

impl AtomValues {
    /// The map that holds no atom. Takes no memory.
    pub fn new(alloc: Global) -> AtomValues
        ensures { result ≡ [] }
    {
        AtomValues {
            values: IndexMap::new(alloc),
        }
    }

    /// Gives an atom a value, in place of the one that it had.
    pub fn set(&mut self, atom: Atom, value: bool) -> Result<(), AllocError>
        ensures ok { OnOk result ((q : Atom) →
            held self.new q ≡ (if is_atom atom q then Some value else held self.old q)) }
        ensures err { OnErr result (self.new ≡ self.old) }
    {
        self.values.insert(atom, value)?;
        Ok(())
    }

    /// The value that is held, or `None`. Takes no memory.
    pub fn get(&self, atom: Atom) -> Option<bool>
        ensures { result ≡ held self.now atom }
    {
        self.values.get(&atom).copied()
    }

    /// The value of an atom: false where none is held. Takes no memory.
    pub fn value(&self, atom: Atom) -> bool
        ensures { result ≡ truth_of self.now atom }
    {
        self.get(atom).unwrap_or(false)
    }
}
