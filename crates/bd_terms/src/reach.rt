//! What a term stands over: one pass downwards, since children stand before parents.
ghost use Rattle.std.specs.Prelude.{◌≡◌, ◌<◌, ◌↔◌, ℕ, false, length, slice_index_or, IsTrue, IfOk};
ghost use Rattle.std.specs.List.{All};
ghost use Rattle.bd_terms.specs.Graph.{children};
ghost use Rattle.bd_terms.specs.Reaches.{Reaches};
ghost use Rattle.bd_terms.specs.inner.Marked.{marked};

use crate::graph::Graph;
use crate::id::Id;
use crate::node::Node;
use std::alloc::AllocError;
use std::marker::Model;

/// A mark for each term of a graph, on those that a root reaches.
#[derive(Drop)]
pub struct ReachedTerms {
    items: Vec<bool>,
}

impl Model for ReachedTerms {
    ghost use Rattle.std.specs.Prelude.{List, Bool};

    ghost Value = { List Bool };

    ghost view = { λ m. m.items.items };
}

impl ReachedTerms {
    /// Whether the root reaches the term. It reaches no Id past the graph.
    pub fn has(&self, id: Id) -> bool
        ensures { result ≡ slice_index_or self.now id false }
    {
        self.items.get(id.index()).copied().unwrap_or(false)
    }
}

/// The terms that the root reaches.
pub fn reached(graph: &Graph, root: Id) -> Result<ReachedTerms, AllocError>
    requires { root < length graph.now }
    ensures length { IfOk result (λ marks. length marks ≡ length graph.now) }
    ensures marks { IfOk result (λ marks.
        (id : ℕ) → IsTrue (slice_index_or marks id false) ↔ Reaches graph.now root id) }
{
    let mut items = vec![in *graph.nodes.allocator(); false; graph.len()]?;
    items[root.index()] = true;
    for index in (0..graph.len()).rev() {
        if items[index] {
            mark_children(&mut items, graph.node(graph.id(index)));
        }
    }
    Ok(ReachedTerms { items })
}

/// Marks the terms that the node stands over.
fn mark_children(marks: &mut [bool], node: &Node)
    requires { All (λ c. c < length marks.old) (children node.now) }
    ensures { marks.new ≡ marked marks.old (children node.now) }
{
    match node {
        Node::True | Node::Init(_) => {}
        Node::Not(a) => marks[a.index()] = true,
        Node::And(a, b) | Node::Or(a, b) | Node::Eq(a, b) | Node::Read(a, b) => {
            marks[a.index()] = true;
            marks[b.index()] = true;
        }
        Node::Ite(a, b, c) | Node::Write(a, b, c) => {
            marks[a.index()] = true;
            marks[b.index()] = true;
            marks[c.index()] = true;
        }
        Node::App(_, args) | Node::Pred(_, args) => {
            for arg in args.as_slice() {
                marks[arg.index()] = true;
            }
        }
    }
}
