//! Graphs of terms. Every term is kept once, after the terms that it stands over, so that a pass over the
//! nodes in rising order meets each term after its children, and two terms are equal where their Ids are.
ghost use Rattle.std.specs.Prelude.{◌≡◌, ◌<◌, ◌∷◌, [], length, slice_get, ◌↔◌, IsTrue, Some, IfOk, OnErr};
ghost use Rattle.bd_terms.specs.Graph.{FitsSorts, KeepsSymbol, KeepsUses, node_sort, sorts, sort_at};
ghost use Rattle.bd_terms.specs.Simplified.{KeptAt};

use crate::id::Id;
use crate::node::{Node, Sym};
use bd_model::Sort;
use indexmap::IndexSet;
use std::alloc::{AllocError, Global};
use std::marker::Model;

/// Terms, each kept once. Clauses see the list of its nodes.
#[derive(Drop)]
pub struct Graph {
    pub(crate) nodes: IndexSet<Node>,
    sorts: Vec<Sort>,
}

impl Model for Graph {
    ghost use Rattle.std.specs.Prelude.{List};
    ghost use Rattle.bd_terms.specs.declared.node.Node.{Node as TheNode};
    ghost use Rattle.bd_terms.specs.inner.Kept.{IsKept};

    ghost Value = { List TheNode };

    ghost view = { λ g. g.nodes.keys };

    ghost invariant = { λ g. IsKept g.nodes.keys g.sorts.items };
}

impl Graph {
    ghost use Rattle.bd_terms.specs.Graph.{IsGraph};

    /// The graph of no term. It takes no memory.
    pub fn new(alloc: Global) -> Graph
        ensures { result ≡ [] }
    {
        Graph {
            nodes: IndexSet::new(alloc),
            sorts: Vec::new(alloc),
        }
    }

    /// How many terms.
    pub fn len(&self) -> usize
        ensures len { result ≡ length self.now }
        ensures graph { IsGraph self.now }
    {
        self.nodes.len()
    }

    /// The Id of the term at this place, from 0.
    pub fn id(&self, index: usize) -> Id
        requires { index < length self.now }
        ensures { result ≡ index }
    {
        Id::new(index)
    }

    /// The term at an Id.
    pub fn node(&self, id: Id) -> &Node
        requires { id < length self.now }
        ensures node { slice_get self.now id ≡ Some result.now }
        ensures graph { IsGraph self.now }
    {
        &self.nodes.as_slice()[id.index()]
    }

    /// The sort of the term at an Id.
    pub fn sort(&self, id: Id) -> Sort
        requires { id < length self.now }
        ensures { result ≡ sort_at self.now id }
    {
        self.sorts[id.index()]
    }

    /// Whether the graph keeps this arity and sort wherever it applies the symbol. It looks at every term.
    pub fn keeps_symbol(&self, sym: Sym, arity: usize, sort: Sort) -> bool
        ensures { IsTrue result ↔ KeepsSymbol self.now sym arity sort }
    {
        for node in self.nodes.as_slice() {
            if !node.keeps_symbol(sym, arity, sort) {
                return false;
            }
        }
        true
    }

    /// The Id of the node, which is put after the others if it isn't there.
    pub(crate) fn keep(&mut self, node: Node) -> Result<Id, AllocError>
        requires fits { FitsSorts self.old node }
        requires symbols { KeepsUses self.old node }
        ensures holds { IfOk result (λ id. KeptAt self.old self.new id node) }
        ensures inside { IfOk result (λ id. id < length self.new) }
        ensures graph { IsGraph self.new }
        ensures err { OnErr result (self.new ≡ self.old) }
    {
        let sort = self.node_sort(&node);
        self.sorts.reserve(1)?;
        let (index, is_new) = self.nodes.insert_full(node)?;
        if is_new {
            self.sorts.push_reserved(sort);
        }
        Ok(Id::new(index))
    }

    /// The sort that the node has in this graph.
    fn node_sort(&self, node: &Node) -> Sort
        requires { FitsSorts self.now node.now }
        ensures { result ≡ node_sort (sorts self.now) node.now }
    {
        match node {
            Node::Ite(_, yes, _) => self.sort(*yes),
            Node::App(..) | Node::Read(..) => Sort::Word,
            Node::Write(..) | Node::Init(_) => Sort::Memory,
            _ => Sort::Bool,
        }
    }
}
