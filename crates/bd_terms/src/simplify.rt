//! The rules by which terms are simplified as they are built. No rule looks below a child, but to see a
//! negation, so each costs no more than a few looks into the graph.
ghost use Rattle.std.specs.Prelude.{◌≡◌, ◌==◌, ◌<◌, length, if◌then◌else◌};
ghost use Rattle.bd_terms.specs.Graph.{FitsSorts, IsGraph};
ghost use Rattle.bd_terms.specs.Simplified.{is_true, is_false, simplified};
ghost use Rattle.bd_terms.specs.declared.node.Node.TheVariants as node;
ghost use Rattle.bd_terms.specs.declared.simplify.Outcome.TheVariants as outcome;

use crate::graph::Graph;
use crate::id::Id;
use crate::node::Node;

/// What a term comes out as: a node that is there, or this node.
#[derive(Drop)]
pub enum Outcome {
    Same(Id),
    Built(Node),
}

impl Graph {
    /// What the node comes out as: a term that is there, or a node that is still to be kept.
    pub(crate) fn simplified(&self, node: Node) -> Outcome
        requires { FitsSorts self.now node }
        ensures outcome { result ≡ simplified self.now node }
        ensures graph { IsGraph self.now }
    {
        let _ = &self.nodes;
        match node {
            Node::Not(a) => self.negation(a),
            Node::And(a, b) => self.conjunction(a, b),
            Node::Or(a, b) => self.disjunction(a, b),
            Node::Ite(c, a, b) => self.choice(c, a, b),
            Node::Eq(a, b) => equation(a, b),
            other => Outcome::Built(other),
        }
    }

    /// What the negation of a term comes out as: that of a negation is the term below it.
    fn negation(&self, a: Id) -> Outcome
        requires { a < length self.now }
        ensures { result ≡ simplified self.now (node.Not a) }
    {
        match self.node(a) {
            Node::Not(b) => Outcome::Same(*b),
            _ => Outcome::Built(Node::Not(a)),
        }
    }

    /// What a conjunction comes out as: one part where they are equal or one is constant.
    fn conjunction(&self, a: Id, b: Id) -> Outcome
        requires first { a < length self.now }
        requires second { b < length self.now }
        ensures { result ≡ simplified self.now (node.And a b) }
    {
        if self.is_true(a) || self.is_false(b) || a == b {
            Outcome::Same(b)
        } else if self.is_false(a) || self.is_true(b) {
            Outcome::Same(a)
        } else {
            Outcome::Built(Node::And(a, b))
        }
    }

    /// What a disjunction comes out as: one part where they are equal or one is constant.
    fn disjunction(&self, a: Id, b: Id) -> Outcome
        requires first { a < length self.now }
        requires second { b < length self.now }
        ensures { result ≡ simplified self.now (node.Or a b) }
    {
        if self.is_false(a) || self.is_true(b) || a == b {
            Outcome::Same(b)
        } else if self.is_true(a) || self.is_false(b) {
            Outcome::Same(a)
        } else {
            Outcome::Built(Node::Or(a, b))
        }
    }

    /// What a choice comes out as: a branch where the control is constant or the branches are equal.
    fn choice(&self, control: Id, yes: Id, no: Id) -> Outcome
        requires { control < length self.now }
        ensures { result ≡ simplified self.now (node.Ite control yes no) }
    {
        if self.is_true(control) || yes == no {
            Outcome::Same(yes)
        } else if self.is_false(control) {
            Outcome::Same(no)
        } else {
            Outcome::Built(Node::Ite(control, yes, no))
        }
    }

    /// Whether the term is the constant true.
    fn is_true(&self, id: Id) -> bool
        requires { id < length self.now }
        ensures { result ≡ is_true self.now id }
    {
        matches!(self.node(id), Node::True)
    }

    /// Whether the term is the negation of the constant true.
    fn is_false(&self, id: Id) -> bool
        requires { id < length self.now }
        ensures { result ≡ is_false self.now id }
    {
        match self.node(id) {
            Node::Not(a) => self.is_true(*a),
            _ => false,
        }
    }
}

/// What an equation of words comes out as: true where both sides are one term.
fn equation(a: Id, b: Id) -> Outcome
    ensures { result ≡ (if a == b then outcome.Built node.True else outcome.Built (node.Eq a b)) }
{
    if a == b {
        Outcome::Built(Node::True)
    } else {
        Outcome::Built(Node::Eq(a, b))
    }
}
