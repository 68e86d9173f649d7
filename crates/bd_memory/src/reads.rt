//! The reads that are built, by memory and address.
ghost use Rattle.std.specs.Prelude.{◌≡◌, ℕ, [], Some, OnOk, if◌then◌else◌};
ghost use Rattle.bd_memory.specs.inner.Reads.{known, is_read};

use bd_terms::Id;
use indexmap::IndexMap;
use std::alloc::{AllocError, Global};
use std::marker::Model;

// A memory of the old graph at an address of the new one.
#[derive(Clone, Copy, PartialEq, Eq, Hash)]
pub(crate) struct ReadKey {
    pub(crate) memory: Id,
    pub(crate) address: Id,
}

// The word in the new graph of each read that is built.
#[derive(Drop)]
pub(crate) struct Reads {
    words: IndexMap<ReadKey, Id>,
}

impl Model for Reads {
    ghost use Rattle.std.specs.Prelude.{List, ℕ};
    ghost use Rattle.bd_memory.specs.declared.reads.ReadKey.{ReadKey};

    ghost Value = { List (ReadKey × ℕ) };

    ghost view = { λ r. r.words.entries };
}

impl Reads {
    /// The set in which no read is built. It takes no memory.
    pub(crate) fn new(alloc: Global) -> Reads
        ensures { result ≡ [] }
    {
        Reads {
            words: IndexMap::new(alloc),
        }
    }

    /// The word of this memory at this address, if the read is built.
    pub(crate) fn get(&self, memory: Id, address: Id) -> Option<Id>
        ensures { result ≡ known self.now memory address }
    {
        self.words.get(&ReadKey { memory, address }).copied()
    }

    /// Keeps the word of this memory at this address.
    pub(crate) fn keep(&mut self, memory: Id, address: Id, word: Id) -> Result<(), AllocError>
        ensures { OnOk result ((m a : ℕ) → known self.new m a
            ≡ (if is_read memory address m a then Some word else known self.old m a)) }
    {
        self.words.insert(ReadKey { memory, address }, word)?;
        Ok(())
    }
}
