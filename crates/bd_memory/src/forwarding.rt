//! What is forwarded so far, and how a term follows those that it stands over.
ghost use Rattle.std.specs.Prelude.{◌≡◌, ◌≢◌, ◌<◌, ℕ, [], ◌∷◌, length, map, slice_get, if◌then◌else◌, ◌==◌, Some, IfOk, OnOk};
ghost use Rattle.std.specs.List.{All};
ghost use Rattle.bd_model.specs.declared.design.Sort.TheVariants as sort;
ghost use Rattle.bd_terms.specs.declared.node.Node.TheVariants as node;
ghost use Rattle.bd_terms.specs.Graph.{HasSort, IsGraph, sort_at};
ghost use Rattle.bd_terms.specs.Reaches.{Reaches};
ghost use Rattle.bd_terms.specs.Denotation.{Word, denoted, word as word_in};
ghost use Rattle.bd_walk.specs.inner.Carrying.{Means};
ghost use Rattle.bd_memory.specs.Forwarded.{Forwarded, Term, At};
ghost use Rattle.bd_memory.specs.inner.Forwarding.{Follows, Grows, Holds, IsMadeAt, IsMadeState, IsReadState, IsWritten, MarksReached, place, word_at};

use crate::reads::Reads;
use bd_model::Sort;
use bd_terms::{Graph, Id, Node, ReachedTerms, Sym};
use std::alloc::{AllocError, Global};

// The new graph, the new place of each old term that is passed (0 for memories and what isn't reached), and the
// reads that are built.
#[derive(Drop)]
pub(crate) struct Forwarding {
    pub(crate) graph: Graph,
    pub(crate) places: Vec<Id>,
    pub(crate) reads: Reads,
}

// The read of a memory waits for the read of one below it, or is this word.
#[derive(Drop)]
pub(crate) enum ReadState {
    Waits(Id),
    Word(Id),
}

impl Forwarding {
    /// An empty graph, with no old term passed and no read built.
    pub(crate) fn new(alloc: Global) -> Forwarding
        ensures graph { result.graph ≡ [] }
        ensures places { result.places.items ≡ [] }
        ensures reads { result.reads ≡ [] }
    {
        Forwarding {
            graph: Graph::new(alloc),
            places: Vec::new(alloc),
            reads: Reads::new(alloc),
        }
    }

    /// The new place of an old term.
    pub(crate) fn place(&self, id: Id) -> Id
        requires { id < length self.now.places.items }
        ensures { result ≡ place self.now.places.items id }
    {
        self.places[id.index()]
    }

    /// The place of the next term of the old graph: one of no meaning for a memory and what isn't marked.
    pub(crate) fn next(
        &mut self,
        old: &Graph,
        marks: &ReachedTerms,
        id: Id,
    ) -> Result<Id, AllocError>
        ghost root: { ℕ }
        requires holds { Holds old.now root self.old }
        requires next { id ≡ length self.old.places.items }
        requires inside { id < length old.now }
        requires marked { MarksReached old.now root marks.now }
        ensures means { IfOk result (λ place. Follows old.now root self.new.graph id place) }
        ensures made { IfOk result (IsMadeAt old.now root self.new.graph id) }
        ensures holds { OnOk result (Holds old.now root self.new) }
        ensures places { OnOk result (self.new.places.items ≡ self.old.places.items) }
    {
        if !marks.has(id) {
            return Ok(Id::default());
        }
        if old.sort(id) == Sort::Memory {
            return Ok(Id::default());
        }
        self.term(old, old.node(id))
    }

    /// The next term of the old graph, in the new one.
    fn term(&mut self, old: &Graph, node: &Node) -> Result<Id, AllocError>
        ghost root: { ℕ }
        requires holds { Holds old.now root self.old }
        requires next { slice_get old.now (length self.old.places.items) ≡ Some node.now }
        requires reached { Reaches old.now root (length self.old.places.items) }
        requires sorted { sort_at old.now (length self.old.places.items) ≢ sort.Memory }
        ensures means { IfOk result (λ id. Means self.new.graph id
            (sort_at old.now (length self.old.places.items))
            (λ w. denoted w old.now (length self.old.places.items))) }
        ensures made { IfOk result (Forwarded old.now self.new.graph
            (Term (length self.old.places.items))) }
        ensures holds { OnOk result (Holds old.now root self.new) }
        ensures places { OnOk result (self.new.places.items ≡ self.old.places.items) }
    {
        match node {
            Node::Read(memory, address) => {
                let address = self.place(*address);
                self.read(old, *memory, address)
            }
            _ => {
                let node = node.renamed(&self.places)?;
                self.graph.build(node)
            }
        }
    }

    /// The read of a memory of the old graph at an address of the new one. Memories whose reads wait for that of the
    /// one at hand stand in a stack, each below the one before it.
    fn read(&mut self, old: &Graph, memory: Id, address: Id) -> Result<Id, AllocError>
        ghost root: { ℕ }
        requires holds { Holds old.now root self.old }
        requires reached { Reaches old.now root memory }
        requires sorted { HasSort old.now memory sort.Memory }
        requires passed { memory < length self.old.places.items }
        requires address { HasSort self.old.graph address sort.Word }
        ensures means { IfOk result (λ id. Means self.new.graph id sort.Word
            (word_at old.now self.new.graph memory address)) }
        ensures made { IfOk result (Forwarded old.now self.new.graph (At memory address)) }
        ensures holds { OnOk result (Holds old.now root self.new) }
        ensures places { OnOk result (self.new.places.items ≡ self.old.places.items) }
    {
        if let Some(word) = self.reads.get(memory, address) {
            return Ok(word);
        }
        let mut waiting: Vec<Id> = Vec::new(*self.places.allocator());
        let mut here = memory;
        loop {
            match self.read_from_below(old, here, address)? {
                ReadState::Waits(below) => {
                    waiting.push(here)?;
                    here = below;
                }
                ReadState::Word(word) => {
                    self.reads.keep(here, address, word)?;
                    match waiting.pop() {
                        Some(above) => here = above,
                        None => return Ok(word),
                    }
                }
            }
        }
    }

    /// The read of a memory, from the reads of those right below it, or the one among these that isn't built yet.
    fn read_from_below(
        &mut self,
        old: &Graph,
        memory: Id,
        address: Id,
    ) -> Result<ReadState, AllocError>
        ghost root: { ℕ }
        requires holds { Holds old.now root self.old }
        requires reached { Reaches old.now root memory }
        requires sorted { HasSort old.now memory sort.Memory }
        requires passed { memory < length self.old.places.items }
        requires address { HasSort self.old.graph address sort.Word }
        ensures step { IfOk result (IsReadState old.now self.new memory address) }
        ensures made { IfOk result (IsMadeState old.now self.new memory address) }
        ensures holds { OnOk result (Holds old.now root self.new) }
        ensures address { OnOk result (HasSort self.new.graph address sort.Word) }
        ensures places { OnOk result (self.new.places.items ≡ self.old.places.items) }
        ensures reads { OnOk result (self.new.reads ≡ self.old.reads) }
    {
        match old.node(memory) {
            Node::Write(below, at, word) => {
                let Some(rest) = self.reads.get(*below, address) else {
                    return Ok(ReadState::Waits(*below));
                };
                let at = self.place(*at);
                let word = self.place(*word);
                Ok(ReadState::Word(written(&mut self.graph, at, word, address, rest)?))
            }
            Node::Ite(control, yes, no) => {
                let Some(if_so) = self.reads.get(*yes, address) else {
                    return Ok(ReadState::Waits(*yes));
                };
                let Some(if_not) = self.reads.get(*no, address) else {
                    return Ok(ReadState::Waits(*no));
                };
                let control = self.place(*control);
                Ok(ReadState::Word(self.graph.mk_ite(control, if_so, if_not)?))
            }
            Node::Init(entry) => {
                Ok(ReadState::Word(self.graph.mk_app(Sym::Entry(*entry), &[address])?))
            }
            _ => Ok(ReadState::Word(address)),
        }
    }
}

/// The word at an address after a word is written: that word if the addresses are equal, else what was there.
fn written(graph: &mut Graph, at: Id, word: Id, address: Id, rest: Id) -> Result<Id, AllocError>
    requires at { HasSort graph.old at sort.Word }
    requires word { HasSort graph.old word sort.Word }
    requires address { HasSort graph.old address sort.Word }
    requires rest { HasSort graph.old rest sort.Word }
    ensures means { IfOk result (λ id. Means graph.new id sort.Word (λ w.
        Word (if word_in w graph.old address == word_in w graph.old at
        then word_in w graph.old word else word_in w graph.old rest))) }
    ensures made { IfOk result (IsWritten graph.new at word address rest) }
    ensures grows { OnOk result (Grows graph.old graph.new []) }
{
    let same = graph.mk_eq(address, at)?;
    graph.mk_ite(same, word, rest)
}
