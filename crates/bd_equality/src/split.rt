//! How an equation of ite trees is taken apart by a control of one of its words.
ghost use Rattle.std.specs.Prelude.{◌≡◌, ◌<◌, true, false, length};
ghost use Rattle.bd_terms.specs.Graph.{IsGraph};
ghost use Rattle.bd_equality.specs.Made.{branch, head};
ghost use Rattle.bd_equality.specs.inner.Split.{part};

use crate::wanted::{Wanted, between};
use bd_terms::{Graph, Id, Node};

/// The control of a term, if it is an ite.
pub(crate) fn head(graph: &Graph, id: Id) -> Option<Id>
    requires { id < length graph.now }
    ensures { result ≡ head graph.now id }
{
    match graph.node(id) {
        Node::Ite(control, _, _) => Some(*control),
        _ => None,
    }
}

/// What a word is where the control is true, and where it is false: an ite of this control is one of its branches, and
/// each other word stays.
fn branches(graph: &Graph, control: Id, id: Id) -> (Id, Id)
    requires { id < length graph.now }
    ensures yes { result.0 ≡ branch graph.now true control id }
    ensures no { result.1 ≡ branch graph.now false control id }
    ensures graph { IsGraph graph.now }
{
    match graph.node(id) {
        Node::Ite(test, yes, no) => {
            if *test == control {
                (*yes, *no)
            } else {
                (id, id)
            }
        }
        _ => (id, id),
    }
}

/// The equations of what two words are where a control is true and where it is false.
pub(crate) fn sides(graph: &Graph, control: Id, left: Id, right: Id) -> (Wanted, Wanted)
    requires left { left < length graph.now }
    requires right { right < length graph.now }
    ensures yes { result.0 ≡ part graph.now true control left right }
    ensures no { result.1 ≡ part graph.now false control left right }
    ensures graph { IsGraph graph.now }
{
    let left = branches(graph, control, left);
    let right = branches(graph, control, right);
    (between(left.0, right.0), between(left.1, right.1))
}
