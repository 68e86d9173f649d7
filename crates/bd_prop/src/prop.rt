//! The truth graph. Children stand before parents, so each pass over it is a loop over its nodes.
use crate::atom::Atom;
use crate::form::{Rewrite, and_form, ite_form, not_form, or_form};
use crate::node::PropNode;
use indexmap::IndexSet;
use std::alloc::{AllocError, Global};
use std::marker::Model;

/// A truth graph: a list of different nodes, children before parents. A node's id is its place.
#[derive(Drop)]
pub struct Prop {
    nodes: IndexSet<PropNode>,
}

impl Model for Prop {
    ghost use Rattle.std.specs.Prelude.{List};
    ghost use Rattle.bd_prop.specs.declared.node.PropNode.{PropNode};
    ghost use Rattle.bd_prop.specs.Graph.{IsGraph};

    ghost Value = { List PropNode };

    ghost view = { λ p. p.nodes.keys };

    ghost invariant = { λ p. IsGraph p.nodes.keys };
}

impl Prop {
    ghost use Rattle.std.specs.Prelude.{◌≡◌, ◌==◌, ◌<◌, Bool, ℕ, [], length, Some, slice_get};
    ghost use Rattle.std.specs.Prelude.{IfOk, OnErr, not, ◌&&◌, ◌||◌, true, if◌then◌else◌};
    ghost use Rattle.bd_prop.specs.Graph.{IsGraph, HasOneId, Extends};
    ghost use Rattle.bd_prop.specs.Form.{HasForm, IsFormBelow, form_truth};
    ghost use Rattle.bd_prop.specs.Form.{not_form, and_form, or_form, ite_form};
    ghost use Rattle.bd_prop.specs.Truth.{truth_at};
    ghost use Rattle.bd_prop.specs.declared.atom.Atom.{Atom};

    /// The graph of no node. Takes no memory.
    pub fn new(alloc: Global) -> Prop
        ensures { result ≡ [] }
    {
        Prop {
            nodes: IndexSet::new(alloc),
        }
    }

    /// The nodes by their ids. Takes no memory.
    pub fn nodes(&self) -> &[PropNode]
        ensures value { result.now ≡ self.now }
        ensures graph { IsGraph self.now }
        ensures different { HasOneId self.now }
    {
        self.nodes.as_slice()
    }

    /// The node at an id. Takes no memory.
    pub fn node(&self, id: usize) -> &PropNode
        requires { id < length self.now }
        ensures { slice_get self.now id ≡ Some result.now }
    {
        &self.nodes.as_slice()[id]
    }

    /// How many nodes. Takes no memory.
    pub fn len(&self) -> usize
        ensures { result ≡ length self.now }
    {
        self.nodes.len()
    }

    /// Whether there is no node. Takes no memory.
    pub fn is_empty(&self) -> bool
        ensures { result ≡ (length self.now == 0) }
    {
        self.nodes.len() == 0
    }

    /// The constant true.
    pub fn mk_true(&mut self) -> Result<usize, AllocError>
        ensures grows { Extends self.old self.new }
        ensures within { IfOk result (λ id. id < length self.new) }
        ensures form { IfOk result (HasForm self.old (Rewrite.Fresh PropNode.True) self.new) }
        ensures truth { IfOk result (λ id. (v : Atom → Bool) → truth_at v self.new id ≡ true) }
        ensures err { OnErr result (self.new ≡ self.old) }
    {
        self.make(Rewrite::Fresh(PropNode::True))
    }

    /// An atom.
    pub fn mk_atom(&mut self, atom: Atom) -> Result<usize, AllocError>
        ensures grows { Extends self.old self.new }
        ensures within { IfOk result (λ id. id < length self.new) }
        ensures form { IfOk result (HasForm self.old
            (Rewrite.Fresh (PropNode.Atom atom)) self.new) }
        ensures truth { IfOk result (λ id. (v : Atom → Bool) → truth_at v self.new id ≡ v atom) }
        ensures err { OnErr result (self.new ≡ self.old) }
    {
        self.make(Rewrite::Fresh(PropNode::Atom(atom)))
    }

    /// A negation. That of a negation is the node below.
    pub fn mk_not(&mut self, a: usize) -> Result<usize, AllocError>
        requires { a < length self.old }
        ensures grows { Extends self.old self.new }
        ensures within { IfOk result (λ id. id < length self.new) }
        ensures form { IfOk result (HasForm self.old (not_form self.old a) self.new) }
        ensures truth { IfOk result (λ id. (v : Atom → Bool) →
            truth_at v self.new id ≡ not (truth_at v self.old a)) }
        ensures err { OnErr result (self.new ≡ self.old) }
    {
        let form = not_form(self.nodes(), a);
        self.make(form)
    }

    /// A conjunction. One with a constant child or two equal children is one of the children.
    pub fn mk_and(&mut self, a: usize, b: usize) -> Result<usize, AllocError>
        requires first { a < length self.old }
        requires second { b < length self.old }
        ensures grows { Extends self.old self.new }
        ensures within { IfOk result (λ id. id < length self.new) }
        ensures form { IfOk result (HasForm self.old (and_form self.old a b) self.new) }
        ensures truth { IfOk result (λ id. (v : Atom → Bool) →
            truth_at v self.new id ≡ (truth_at v self.old a && truth_at v self.old b)) }
        ensures err { OnErr result (self.new ≡ self.old) }
    {
        let form = and_form(self.nodes(), a, b);
        self.make(form)
    }

    /// A disjunction. One with a constant child or two equal children is one of the children.
    pub fn mk_or(&mut self, a: usize, b: usize) -> Result<usize, AllocError>
        requires first { a < length self.old }
        requires second { b < length self.old }
        ensures grows { Extends self.old self.new }
        ensures within { IfOk result (λ id. id < length self.new) }
        ensures form { IfOk result (HasForm self.old (or_form self.old a b) self.new) }
        ensures truth { IfOk result (λ id. (v : Atom → Bool) →
            truth_at v self.new id ≡ (truth_at v self.old a || truth_at v self.old b)) }
        ensures err { OnErr result (self.new ≡ self.old) }
    {
        let form = or_form(self.nodes(), a, b);
        self.make(form)
    }

    /// `yes` where the control is true, else `no`. With a constant control or two equal branches it is
    /// one of the branches.
    pub fn mk_ite(&mut self, control: usize, yes: usize, no: usize) -> Result<usize, AllocError>
        requires control { control < length self.old }
        requires first { yes < length self.old }
        requires second { no < length self.old }
        ensures grows { Extends self.old self.new }
        ensures within { IfOk result (λ id. id < length self.new) }
        ensures form { IfOk result (HasForm self.old (ite_form self.old control yes no) self.new) }
        ensures truth { IfOk result (λ id. (v : Atom → Bool) → truth_at v self.new id ≡
            (if truth_at v self.old control
            then truth_at v self.old yes else truth_at v self.old no)) }
        ensures err { OnErr result (self.new ≡ self.old) }
    {
        let form = ite_form(self.nodes(), control, yes, no);
        self.make(form)
    }

    /// The id that a form stands for, whose node is put after the others if it isn't there.
    pub(crate) fn make(&mut self, form: Rewrite) -> Result<usize, AllocError>
        requires { IsFormBelow (length self.old) form }
        ensures grows { Extends self.old self.new }
        ensures within { IfOk result (λ id. id < length self.new) }
        ensures form { IfOk result (HasForm self.old form self.new) }
        ensures truth { IfOk result (λ id. (v : Atom → Bool) →
            truth_at v self.new id ≡ form_truth v self.old form) }
        ensures err { OnErr result (self.new ≡ self.old) }
    {
        match form {
            Rewrite::Kept(id) => Ok(id),
            Rewrite::Fresh(node) => {
                let (id, _) = self.nodes.insert_full(node)?;
                Ok(id)
            }
        }
    }
}
