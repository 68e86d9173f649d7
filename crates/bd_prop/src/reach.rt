//! Which nodes a root reaches. Children stand before parents, so one pass down the ids marks them all.
ghost use Rattle.std.specs.Prelude.{◌≡◌, ◌<◌, ◌↔◌, ℕ, true, false, All, fold, length, slice_set, slice_index_or, IfOk};
ghost use Rattle.bd_prop.specs.Node.{children, named};
ghost use Rattle.bd_prop.specs.Graph.{Reaches};

use crate::choices::Choice;
use crate::node::PropNode;
use crate::prop::Prop;
use bd_list::Sequence;
use std::alloc::{AllocError, Global};

/// A truth value for each node.
pub type Marks = Sequence<bool>;

/// Marks the nodes that the root reaches.
pub fn reached(alloc: Global, prop: &Prop, root: usize) -> Result<Marks, AllocError>
    requires { root < length prop.now }
    ensures len { IfOk result (λ marks. length marks ≡ length prop.now) }
    ensures marks { IfOk result (λ marks. (id : ℕ) →
        (slice_index_or marks id false ≡ true) ↔ Reaches prop.now root id) }
{
    let nodes = prop.nodes();
    let mut marks = vec![in alloc; false; nodes.len()]?;
    marks[root] = true;
    for id in (0..nodes.len()).rev() {
        if marks[id] {
            mark_children(marks.as_mut_slice(), &nodes[id]);
        }
    }
    Ok(Marks::from_vec(marks))
}

/// Marks the nodes that a node stands over.
fn mark_children(marks: &mut [bool], node: &PropNode)
    requires { All (λ c. c < length marks.old) (children node.now) }
    ensures { marks.new ≡ fold (λ m c. slice_set m c true) marks.old (children node.now) }
{
    match node {
        PropNode::True | PropNode::Atom(_) => {}
        PropNode::Not(a) => marks[*a] = true,
        PropNode::And(a, b) | PropNode::Or(a, b) => {
            marks[*a] = true;
            marks[*b] = true;
        }
        PropNode::Ite(a, b, c) => {
            marks[*a] = true;
            marks[*b] = true;
            marks[*c] = true;
        }
        PropNode::Tree(choices) => mark_named(marks, choices.as_slice()),
    }
}

/// Marks the nodes that the items of a tree name.
fn mark_named(marks: &mut [bool], items: &[Choice])
    requires { All (λ c. c < length marks.old) (named items.now) }
    ensures { marks.new ≡ fold (λ m c. slice_set m c true) marks.old (named items.now) }
{
    for item in items {
        match *item {
            Choice::Test(a) => marks[a] = true,
            Choice::Not => {}
            Choice::Leaf(a) => marks[a] = true,
        }
    }
}
