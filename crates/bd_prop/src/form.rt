//! How the constructors rewrite. No rule looks below a child, but to see a negation.
ghost use Rattle.std.specs.Prelude.{◌≡◌, ◌<◌, Bool, length, not, ◌&&◌, ◌||◌, if◌then◌else◌};
ghost use Rattle.bd_prop.specs.declared.atom.Atom.{Atom};
ghost use Rattle.bd_prop.specs.Graph.{IsGraph};
ghost use Rattle.bd_prop.specs.Truth.{truth_at};
ghost use Rattle.bd_prop.specs.Form.{IsFormBelow, form_truth, is_true, is_false, not_form, and_form, or_form, ite_form};

use crate::node::PropNode;

/// What a constructor makes of its node: an id that stands for it already, or the node.
#[derive(Drop)]
pub(crate) enum Rewrite {
    Kept(usize),
    Fresh(PropNode),
}

/// Whether the node is the constant true.
fn is_true(nodes: &[PropNode], id: usize) -> bool
    requires { id < length nodes.now }
    ensures { result ≡ is_true nodes.now id }
{
    matches!(nodes[id], PropNode::True)
}

/// Whether the node is the negation of the constant true.
fn is_false(nodes: &[PropNode], id: usize) -> bool
    requires graph { IsGraph nodes.now }
    requires within { id < length nodes.now }
    ensures { result ≡ is_false nodes.now id }
{
    match &nodes[id] {
        PropNode::Not(a) => is_true(nodes, *a),
        _ => false,
    }
}

/// What a negation comes out as: the node below where that is a negation itself.
pub(crate) fn not_form(nodes: &[PropNode], a: usize) -> Rewrite
    requires graph { IsGraph nodes.now }
    requires within { a < length nodes.now }
    ensures form { result ≡ not_form nodes.now a }
    ensures below { IsFormBelow (length nodes.now) result }
    ensures truth { (v : Atom → Bool) →
        form_truth v nodes.now result ≡ not (truth_at v nodes.now a) }
{
    match &nodes[a] {
        PropNode::Not(b) => Rewrite::Kept(*b),
        _ => Rewrite::Fresh(PropNode::Not(a)),
    }
}

/// What a conjunction comes out as: one part where they are equal or one is constant.
pub(crate) fn and_form(nodes: &[PropNode], a: usize, b: usize) -> Rewrite
    requires graph { IsGraph nodes.now }
    requires first { a < length nodes.now }
    requires second { b < length nodes.now }
    ensures form { result ≡ and_form nodes.now a b }
    ensures below { IsFormBelow (length nodes.now) result }
    ensures truth { (v : Atom → Bool) →
        form_truth v nodes.now result ≡ (truth_at v nodes.now a && truth_at v nodes.now b) }
{
    if is_true(nodes, a) || is_false(nodes, b) || a == b {
        Rewrite::Kept(b)
    } else if is_false(nodes, a) || is_true(nodes, b) {
        Rewrite::Kept(a)
    } else {
        Rewrite::Fresh(PropNode::And(a, b))
    }
}

/// What a disjunction comes out as: one part where they are equal or one is constant.
pub(crate) fn or_form(nodes: &[PropNode], a: usize, b: usize) -> Rewrite
    requires graph { IsGraph nodes.now }
    requires first { a < length nodes.now }
    requires second { b < length nodes.now }
    ensures form { result ≡ or_form nodes.now a b }
    ensures below { IsFormBelow (length nodes.now) result }
    ensures truth { (v : Atom → Bool) →
        form_truth v nodes.now result ≡ (truth_at v nodes.now a || truth_at v nodes.now b) }
{
    if is_false(nodes, a) || is_true(nodes, b) || a == b {
        Rewrite::Kept(b)
    } else if is_true(nodes, a) || is_false(nodes, b) {
        Rewrite::Kept(a)
    } else {
        Rewrite::Fresh(PropNode::Or(a, b))
    }
}

/// What a choice comes out as: a branch where the control is constant or the branches are equal.
pub(crate) fn ite_form(nodes: &[PropNode], control: usize, first: usize, second: usize) -> Rewrite
    requires graph { IsGraph nodes.now }
    requires control { control < length nodes.now }
    requires first { first < length nodes.now }
    requires second { second < length nodes.now }
    ensures form { result ≡ ite_form nodes.now control first second }
    ensures below { IsFormBelow (length nodes.now) result }
    ensures truth { (v : Atom → Bool) → form_truth v nodes.now result ≡
        (if truth_at v nodes.now control
        then truth_at v nodes.now first else truth_at v nodes.now second) }
{
    if is_true(nodes, control) || first == second {
        Rewrite::Kept(first)
    } else if is_false(nodes, control) {
        Rewrite::Kept(second)
    } else {
        Rewrite::Fresh(PropNode::Ite(control, first, second))
    }
}
