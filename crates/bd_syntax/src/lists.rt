//! Lists: their first part, their last, and how many parts they have.

ghost use Rattle.std.specs.Prelude.{◌≡◌, length, IfNone, IfOk, IfSome};
ghost use Rattle.bd_text.specs.Nodes.{node, node_count, no_nodes};
ghost use Rattle.bd_text.specs.View.{node_of, nodes_of, nodes_of_all};
ghost use Rattle.bd_syntax.specs.Reading.{Gives, before_last, end_form, first_form, headed_form, last_node, offset_of, others, spot};

use crate::FormFault;
use crate::fault::bad;
use bd_text::{Code, Tree, Trees};

/// The atom that a list begins with, and the parts after it.
#[derive(Clone, Copy)]
pub struct Opened<'a> {
    /// The atom's offset.
    pub at: usize,
    /// Its bytes.
    pub first: &'a [u8],
    /// The parts after it.
    pub parts: &'a [Tree],
}

/// Opens the list that stands at an offset.
#[tactic(auto, using(crate::proofs::Views::node_counts))]
pub fn open(offset: usize, parts: &Trees) -> Result<Opened<'_>, FormFault>
    ensures first { Gives (λ list. spot list.at list.first.now) result
        (first_form offset (nodes_of parts.now)) }
    ensures parts { IfOk result (λ list.
        others (nodes_of parts.now) ≡ nodes_of_all list.parts.now) }
    ensures count { IfOk result (λ list.
        node_count (others (nodes_of parts.now)) ≡ length list.parts.now) }
{
    let Some((first, parts)) = parts.as_slice().split_first() else {
        return Err(bad(offset, Code::Malformed));
    };
    match first {
        Tree::Atom { offset: at, text } => Ok(Opened {
            at: *at,
            first: text.as_slice(),
            parts,
        }),
        Tree::List { .. } => Err(bad(offset, Code::Malformed)),
    }
}

/// Where a tree stands.
pub fn offset_of(tree: &Tree) -> usize
    ensures { result ≡ offset_of (node_of tree.now) }
{
    match tree {
        Tree::Atom { offset, .. } | Tree::List { offset, .. } => *offset,
    }
}

/// The offset of a list that begins with this text, and the parts after it.
pub fn headed<'a>(tree: &'a Tree, head: &[u8]) -> Result<(usize, &'a [Tree]), FormFault>
    ensures { Gives (λ file. (file.0, nodes_of_all file.1.now)) result
        (headed_form head.now (node_of tree.now)) }
{
    if let Tree::List { offset, parts } = tree {
        if let Some((Tree::Atom { text, .. }, parts)) = parts.as_slice().split_first() {
            if text.as_slice() == head {
                return Ok((*offset, parts));
            }
        }
    }
    Err(bad(offset_of(tree), Code::WrongHead))
}

/// Tests that no tree follows.
pub fn end(further: &[Tree]) -> Result<(), FormFault>
    ensures { Gives (λ _. tt {0}) result (end_form (nodes_of_all further.now)) }
{
    match further.first() {
        Some(tree) => Err(bad(offset_of(tree), Code::WrongHead)),
        None => Ok(()),
    }
}

/// The last part, and the parts before it.
pub fn split_last(parts: &[Tree]) -> Option<(&Tree, &[Tree])>
    ensures last { IfSome result (λ p.
        last_node (nodes_of_all parts.now) ≡ Some (node_of p.0.now)) }
    ensures before { IfSome result (λ p.
        before_last (nodes_of_all parts.now) ≡ nodes_of_all p.1.now) }
    ensures none { IfNone result (nodes_of_all parts.now ≡ no_nodes) }
{
    parts.split_last()
}

/// The part of a list that has one.
pub(crate) fn one(parts: &[Tree]) -> &Tree
    requires { length parts.now ≡ 1 }
    ensures { nodes_of_all parts.now ≡ node (node_of result.now) no_nodes }
{
    &parts[0]
}

/// The parts of a list that has two.
pub(crate) fn two(parts: &[Tree]) -> (&Tree, &Tree)
    requires { length parts.now ≡ 2 }
    ensures { nodes_of_all parts.now
        ≡ node (node_of result.0.now) (node (node_of result.1.now) no_nodes) }
{
    (&parts[0], &parts[1])
}

/// The parts of a list that has three.
pub(crate) fn three(parts: &[Tree]) -> (&Tree, &Tree, &Tree)
    requires { length parts.now ≡ 3 }
    ensures { nodes_of_all parts.now
        ≡ node (node_of result.0.now)
        (node (node_of result.1.now) (node (node_of result.2.now) no_nodes)) }
{
    (&parts[0], &parts[1], &parts[2])
}
