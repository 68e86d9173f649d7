//! Which choices are inside trees: those that occur once, as a branch of another choice, and have few choices below
//! them (Velev 2004).
ghost use Rattle.std.specs.Prelude.{◌≡◌, ◌<◌, All, IfOk, fold, length};
ghost use Rattle.bd_prop.specs.Node.{children, named};
ghost use Rattle.bd_prop.specs.Graph.{IsGraph};
ghost use Rattle.bd_prop.specs.Inside.{add_use, height, heights, use_children, uses_of};

use crate::choices::Choice;
use crate::node::PropNode;
use std::alloc::{AllocError, Global};

/// The most choices on a path of a tree, so that clauses stay short and few.
const DEEPEST: u32 = 8;

/// Where a node occurs below a root, seen through negations.
#[derive(Clone, Copy)]
pub(crate) enum Uses {
    Nowhere,
    /// Once, as a branch of a choice.
    OneBranch,
    Elsewhere,
}

/// By id, how many choices are on the longest path of a node that is inside a tree, and 0 for other nodes.
pub(crate) fn heights_of(
    alloc: Global,
    nodes: &[PropNode],
    root: usize,
) -> Result<Vec<u32>, AllocError>
    requires graph { IsGraph nodes.now }
    requires root { root < length nodes.now }
    ensures len { IfOk result (λ hs. length hs.items ≡ length nodes.now) }
    ensures heights { IfOk result (λ hs. hs.items ≡ heights nodes.now (uses_of nodes.now root)) }
{
    let uses = uses_of(alloc, nodes, root)?;
    let mut heights = Vec::with_capacity(alloc, nodes.len())?;
    for (id, node) in nodes.iter().enumerate() {
        let height = height(&heights, node, uses[id]);
        heights.push(height)?;
    }
    Ok(heights)
}

/// How each node is used. Parents come before children on the way down, so what a negation is used
/// for, its child is.
fn uses_of(alloc: Global, nodes: &[PropNode], root: usize) -> Result<Vec<Uses>, AllocError>
    requires graph { IsGraph nodes.now }
    requires root { root < length nodes.now }
    ensures len { IfOk result (λ uses. length uses.items ≡ length nodes.now) }
    ensures uses { IfOk result (λ uses. uses.items ≡ uses_of nodes.now root) }
{
    let mut uses = vec![in alloc; Uses::Nowhere; nodes.len()]?;
    uses[root] = Uses::Elsewhere;
    for id in (0..nodes.len()).rev() {
        let own = uses[id];
        use_children(uses.as_mut_slice(), &nodes[id], own);
    }
    Ok(uses)
}

/// Adds a use to each child of a node that is itself used so.
fn use_children(uses: &mut [Uses], node: &PropNode, own: Uses)
    requires { All (λ c. c < length uses.old) (children node.now) }
    ensures { uses.new ≡ use_children own uses.old node.now }
{
    if let Uses::Nowhere = own {
        return;
    }
    match node {
        PropNode::True | PropNode::Atom(_) => {}
        PropNode::Not(a) => add_use(uses, *a, own),
        PropNode::And(a, b) | PropNode::Or(a, b) => {
            add_use(uses, *a, Uses::Elsewhere);
            add_use(uses, *b, Uses::Elsewhere);
        }
        PropNode::Ite(a, b, c) => {
            add_use(uses, *a, Uses::Elsewhere);
            add_use(uses, *b, Uses::OneBranch);
            add_use(uses, *c, Uses::OneBranch);
        }
        PropNode::Tree(choices) => use_items(uses, choices.as_slice()),
    }
}

/// Adds a use of each node that the items of a tree name.
fn use_items(uses: &mut [Uses], items: &[Choice])
    requires { All (λ c. c < length uses.old) (named items.now) }
    ensures { uses.new ≡ fold (add_use Uses.Elsewhere) uses.old (named items.now) }
{
    for item in items {
        match *item {
            Choice::Test(a) => add_use(uses, a, Uses::Elsewhere),
            Choice::Not => {}
            Choice::Leaf(a) => add_use(uses, a, Uses::Elsewhere),
        }
    }
}

/// Adds a use of a node.
fn add_use(uses: &mut [Uses], id: usize, more: Uses)
    requires { id < length uses.old }
    ensures { uses.new ≡ add_use more uses.old id }
{
    uses[id] = match uses[id] {
        Uses::Nowhere => more,
        Uses::OneBranch | Uses::Elsewhere => Uses::Elsewhere,
    };
}

/// How many choices are on the longest path of a node if it is inside, by those of the nodes before it.
fn height(heights: &[u32], node: &PropNode, uses: Uses) -> u32
    requires { All (λ c. c < length heights.now) (children node.now) }
    ensures { result ≡ height uses heights.now node.now }
{
    match node {
        PropNode::Not(a) => heights[*a],
        PropNode::Ite(_, b, c) => {
            let below = heights[*b].max(heights[*c]);
            let is_alone = matches!(uses, Uses::OneBranch);
            if is_alone && below < DEEPEST - 1 {
                below + 1
            } else {
                0
            }
        }
        PropNode::True
        | PropNode::Atom(_)
        | PropNode::And(_, _)
        | PropNode::Or(_, _)
        | PropNode::Tree(_) => 0,
    }
}
