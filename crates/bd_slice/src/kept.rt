//! Values of a run, each with the node of what it rests on.
//!
//! A memory is kept as the writes over one of the case's memories, newest first, with the nodes of the conditions under
//! which they were made, so a read rests only on the addresses that it compares and on the word that it meets.
ghost use Rattle.std.specs.Prelude.{◌≡◌, ◌∷◌, IfOk, IsTrue, ℕ, false, slice_index_or};
ghost use Rattle.bd_model.specs.Table.{read, write};
ghost use Rattle.bd_model.specs.Value.{memory_of, scalar_word, truth};
ghost use Rattle.bd_model.specs.declared.case.Case.{Case};
ghost use Rattle.bd_model.specs.declared.table.Memory.{Memory};
ghost use Rattle.bd_model.specs.declared.table.Scalar.{Scalar};
ghost use Rattle.bd_model.specs.declared.table.Value.{Value};
ghost use Rattle.bd_slice.specs.inner.Followed.{Other, Holds, Grows, Follows, FollowsWord, FollowsMemory, FollowsKept, scalar_kept, memory_kept, nothing_kept, no_scalar, base_memory};

use crate::graph::SupportGraph;
use crate::place::CasePlace;
use bd_model::{Case, Scalar, Sequence, Value};
use std::alloc::{AllocError, Global};

/// A scalar, and the node of what it rests on.
#[derive(Clone, Copy)]
pub struct Traced {
    pub value: Scalar,
    pub node: usize,
}

/// A word, and the node of what it rests on.
#[derive(Clone, Copy)]
pub struct TracedWord {
    pub word: u64,
    pub node: usize,
}

/// What a memory stands over: the memory of zeros, or an entry of the case's state.
#[derive(Clone, Copy)]
pub enum Base {
    Zeros,
    Entry(usize),
}

/// What is known of a memory over the one below it: that it is that one, if this node is in the slice, or that a word
/// is written over it, at the address that comes first.
#[derive(Clone, Copy)]
pub enum Link {
    Under(usize),
    Write(TracedWord, TracedWord),
}

/// A list of links.
pub type Links = Sequence<Link>;

/// A memory, and the node of what makes it one.
#[derive(Drop)]
pub struct TracedMemory {
    pub base: Base,
    pub links: Links,
    pub shape: usize,
}

impl Clone for TracedMemory {
    ghost use Rattle.std.specs.Prelude.{◌≡◌};

    ghost is_clone = { λ old new. new ≡ old };

    /// A copy of the memory, with its links.
    fn clone(&self) -> Result<TracedMemory, AllocError> {
        Ok(TracedMemory {
            base: self.base,
            links: self.links.clone()?,
            shape: self.shape,
        })
    }
}

/// A value of a run.
#[derive(Drop)]
pub enum Kept {
    Scalar(Traced),
    Memory(TracedMemory),
}

impl Clone for Kept {
    ghost use Rattle.std.specs.Prelude.{◌≡◌};

    ghost is_clone = { λ old new. new ≡ old };

    /// A copy of what is kept of a value.
    fn clone(&self) -> Result<Kept, AllocError> {
        match self {
            Kept::Scalar(traced) => Ok(Kept::Scalar(*traced)),
            Kept::Memory(memory) => Ok(Kept::Memory(memory.clone()?)),
        }
    }
}

impl Traced {
    /// A scalar that rests on nothing.
    pub fn constant(value: Scalar) -> Traced
        ensures { (o : Other) → Follows o result value }
    {
        Traced { value, node: 0 }
    }

    /// The word, 0 where it is a truth value.
    pub fn word(self) -> TracedWord
        ensures { (o : Other) (x : Scalar) → Follows o self x →
            FollowsWord o result (scalar_word x) }
    {
        TracedWord {
            word: self.value.word(),
            node: self.node,
        }
    }
}

impl TracedWord {
    /// The word as a scalar.
    pub fn scalar(self) -> Traced
        ensures { (o : Other) (n : ℕ) → FollowsWord o self n → Follows o result (Scalar.Word n) }
    {
        Traced {
            value: Scalar::Word(self.word),
            node: self.node,
        }
    }
}

impl Kept {
    /// The scalar, false where it is a memory.
    pub fn scalar(&self) -> Traced
        ensures { result ≡ scalar_kept self.now }
    {
        match self {
            Kept::Scalar(traced) => *traced,
            Kept::Memory(memory) => Traced {
                value: Scalar::Bool(false),
                node: memory.shape,
            },
        }
    }

    /// The memory, that of zeros where it is a scalar.
    pub fn memory(self, alloc: Global) -> Result<TracedMemory, AllocError>
        ensures { IfOk result (λ m. m ≡ memory_kept self) }
    {
        match self {
            Kept::Scalar(traced) => {
                let mut links = Sequence::new(alloc);
                links.push(Link::Under(traced.node))?;
                Ok(TracedMemory {
                    base: Base::Zeros,
                    links,
                    shape: 0,
                })
            }
            Kept::Memory(memory) => Ok(memory),
        }
    }
}

/// The links with this one in front.
fn in_front(alloc: Global, link: Link, links: &Links) -> Result<Links, AllocError>
    ensures { IfOk result (λ ls. ls ≡ link ∷ links.now) }
{
    let mut all = Vec::new(alloc);
    all.push(link)?;
    all.extend_from_slice(links.as_slice())?;
    Ok(Sequence::from_vec(all))
}

impl TracedMemory {
    /// The memory with a word more.
    pub fn written(
        self,
        alloc: Global,
        address: TracedWord,
        word: TracedWord,
    ) -> Result<TracedMemory, AllocError>
        ensures { IfOk result (λ t. (o : Other) (m : Memory) (a d : ℕ) → FollowsMemory o self m →
            FollowsWord o address a → FollowsWord o word d → FollowsMemory o t (write m a d)) }
    {
        Ok(TracedMemory {
            base: self.base,
            links: in_front(alloc, Link::Write(address, word), &self.links)?,
            shape: 0,
        })
    }
}

impl SupportGraph {
    /// The value, where what this node stands for is needed to know it.
    pub fn under(&mut self, alloc: Global, node: usize, kept: Kept) -> Result<Kept, AllocError>
        ensures grows { IfOk result (λ k. Grows self.old.nodes self.new.nodes) }
        ensures follows { IfOk result (λ k. (c : Case) (o : Other) (v : Value) →
            Holds c self.new.nodes o → (IsTrue (o.has node) → FollowsKept o kept v) →
            FollowsKept o k v) }
    {
        match kept {
            Kept::Scalar(traced) => Ok(Kept::Scalar(Traced {
                value: traced.value,
                node: self.both(node, traced.node)?,
            })),
            Kept::Memory(memory) => Ok(Kept::Memory(TracedMemory {
                base: memory.base,
                links: in_front(alloc, Link::Under(node), &memory.links)?,
                shape: self.both(node, memory.shape)?,
            })),
        }
    }

    /// What a memory has at an address.
    pub fn read(
        &mut self,
        case: &Case,
        memory: &TracedMemory,
        address: TracedWord,
    ) -> Result<TracedWord, AllocError>
        ensures grows { IfOk result (λ w. Grows self.old.nodes self.new.nodes) }
        ensures follows { IfOk result (λ w. (o : Other) (m : Memory) (a : ℕ) →
            Holds case.now self.new.nodes o → FollowsMemory o memory.now m →
            FollowsWord o address a → FollowsWord o w (read m a)) }
    {
        let mut node = address.node;
        for link in memory.links.as_slice() {
            match *link {
                Link::Under(condition) => node = self.both(node, condition)?,
                Link::Write(at, put) => {
                    node = self.both(node, at.node)?;
                    if at.word == address.word {
                        return Ok(TracedWord {
                            word: put.word,
                            node: self.both(node, put.node)?,
                        });
                    }
                }
            }
        }
        let read = self.read_base(case, memory.base, address.word, node)?;
        Ok(read)
    }

    /// What the memory below all writes has at an address, once the slice has this node.
    fn read_base(
        &mut self,
        case: &Case,
        base: Base,
        address: u64,
        node: usize,
    ) -> Result<TracedWord, AllocError>
        ensures grows { IfOk result (λ w. Grows self.old.nodes self.new.nodes) }
        ensures has { IfOk result (λ w. (o : Other) → Holds case.now self.new.nodes o →
            IsTrue (o.has w.node) → IsTrue (o.has node)) }
        ensures follows { IfOk result (λ w. (o : Other) → Holds case.now self.new.nodes o →
            FollowsWord o w (read (base_memory o.case base) address)) }
    {
        match base {
            Base::Zeros => Ok(TracedWord { word: 0, node }),
            Base::Entry(entry) => {
                let cell = self.place(CasePlace::Cell(entry, address))?;
                Ok(TracedWord {
                    word: word_at(case.state.as_slice(), entry, address),
                    node: self.both(node, cell)?,
                })
            }
        }
    }
}

/// The word at an address of the memory that is this entry, 0 where that is no memory.
fn word_at(values: &[Value], entry: usize, address: u64) -> u64
    ensures { result ≡ read (memory_of (slice_index_or values.now entry (truth false))) address }
{
    match values.get(entry) {
        Some(Value::Memory(memory)) => memory.at(address),
        _ => 0,
    }
}

/// The value at this place, false where there is none.
pub fn kept_at(values: &[Kept], i: u32) -> Result<Kept, AllocError>
    ensures { IfOk result (λ k. k ≡ slice_index_or values.now i nothing_kept) }
{
    match values.get(i as usize) {
        Some(kept) => kept.clone(),
        None => Ok(Kept::Scalar(Traced {
            value: Scalar::Bool(false),
            node: 0,
        })),
    }
}

/// The scalar at this place, false where there is none.
pub fn traced_at(values: &[Traced], i: u32) -> Traced
    ensures { result ≡ slice_index_or values.now i no_scalar }
{
    match values.get(i as usize) {
        Some(traced) => *traced,
        None => Traced {
            value: Scalar::Bool(false),
            node: 0,
        },
    }
}
