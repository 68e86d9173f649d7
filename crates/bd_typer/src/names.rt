//! What names mean, and sets of names.

ghost use Rattle.std.specs.Prelude.{◌≡◌, OnOk, IfOk, not};
ghost use Rattle.bd_typer.specs.NameMap.{no_names, declare, shared_names};
ghost use Rattle.bd_typer.specs.Repeats.{no_texts, with_text};
ghost use Rattle.bd_typer.specs.inner.Held.{lookup_names, meanings, members};

use bd_model::Sort;
use indexmap::{IndexMap, IndexSet};
use std::alloc::{AllocError, Global};

/// What a name means. Entries, inputs and lets are numbered in their machine, symbols in the design.
#[derive(Clone, Copy, PartialEq, Eq)]
pub enum Meaning {
    /// A latch or memory.
    Entry {
        number: u32,
        sort: Sort,
    },
    /// An input.
    Input {
        number: u32,
        sort: Sort,
    },
    /// A function or predicate.
    Symbol {
        number: u32,
        arity: u32,
        predicate: bool,
    },
    /// A let, and whether it uses an input, directly or through other lets.
    Local {
        number: u32,
        sort: Sort,
        uses_input: bool,
    },
    /// A let before its item.
    Later,
}

/// What the names of a file mean.
#[derive(Drop)]
pub struct NameMap<'a> {
    map: IndexMap<&'a [u8], Meaning>,
}

impl<'a> NameMap<'a> {
    /// The map of no name.
    pub fn new(alloc: Global) -> NameMap<'a>
        ensures { meanings result ≡ no_names }
    {
        NameMap {
            map: IndexMap::new(alloc),
        }
    }

    /// Lets the name mean this from now on.
    pub fn declare(&mut self, name: &'a [u8], meaning: Meaning) -> Result<(), AllocError>
        ensures { OnOk result
            (meanings self.new ≡ declare (meanings self.old) name.now meaning) }
    {
        self.map.insert(name, meaning)?;
        Ok(())
    }

    /// What the name means.
    pub fn get(&self, name: &[u8]) -> Option<Meaning>
        ensures { result ≡ meanings self.now name.now }
    {
        self.map.get(&name).copied()
    }
}

/// The names of the machines that an invariant speaks of.
#[derive(Clone, Copy)]
pub struct Outer<'n> {
    pub pipe: &'n NameMap<'n>,
    pub spec: &'n NameMap<'n>,
}

impl<'n> Outer<'n> {
    /// What the name means in the pipeline, where that is no let, else the specification's function or predicate.
    fn get(self, name: &[u8]) -> Option<Meaning>
        ensures { result ≡ shared_names
            (meanings self.entry.pipe.now) (meanings self.entry.spec.now) name.now }
    {
        match self.pipe.get(name) {
            Some(
                meaning @ (Meaning::Entry { .. } | Meaning::Input { .. } | Meaning::Symbol { .. }),
            ) => Some(meaning),
            _ => match self.spec.get(name) {
                Some(meaning @ Meaning::Symbol { .. }) => Some(meaning),
                _ => None,
            },
        }
    }
}

/// The names of a file, and after them those that it shares.
#[derive(Clone, Copy)]
pub struct Lookup<'n> {
    pub own: &'n NameMap<'n>,
    pub outer: Option<Outer<'n>>,
}

impl<'n> Lookup<'n> {
    /// What the name means.
    pub fn get(self, name: &[u8]) -> Option<Meaning>
        ensures { result ≡ lookup_names self.entry name.now }
    {
        match (self.outer, self.own.get(name)) {
            (None, meaning) => meaning,
            (Some(_), Some(meaning)) => Some(meaning),
            (Some(outer), None) => outer.get(name),
        }
    }
}

/// A set of names.
#[derive(Drop)]
pub struct NameSet<'a> {
    set: IndexSet<&'a [u8]>,
}

impl<'a> NameSet<'a> {
    /// The empty set.
    pub fn new(alloc: Global) -> NameSet<'a>
        ensures { members result ≡ no_texts }
    {
        NameSet {
            set: IndexSet::new(alloc),
        }
    }

    /// Adds a name, and answers whether it is new.
    pub fn insert(&mut self, name: &'a [u8]) -> Result<bool, AllocError>
        ensures new { IfOk result (λ new. new ≡ not (members self.old name.now)) }
        ensures set { OnOk result (members self.new ≡ with_text (members self.old) name.now) }
    {
        Ok(self.set.insert(name)?)
    }
}
