//! Choices gathered into trees, so that a choice that occurs once, as a branch of another one, is no node of its own: one
//! pass over the nodes in rising order.
ghost use Rattle.std.specs.Prelude.{◌≡◌, ◌<◌, Bool, ℕ, [], ◌∷◌, All, IfOk, OnOk, length, map};
ghost use Rattle.bd_prop.specs.declared.atom.Atom.{Atom as TheAtom};
ghost use Rattle.bd_prop.specs.declared.choices.Choice.TheVariants as item;
ghost use Rattle.bd_prop.specs.Gathered.{AreRenamed, IsEntry, IsGathered, IsPart, IsPlaced};
ghost use Rattle.bd_prop.specs.Gathered.{branches, choice_node, choice_part, entry_at, leaf_of, negation_part};
ghost use Rattle.bd_prop.specs.Graph.{Extends, IsGraph};
ghost use Rattle.bd_prop.specs.Node.{children, named};
ghost use Rattle.bd_prop.specs.Truth.{truth_at};
ghost use Rattle.bd_prop.specs.inner.Gathering.{AreLow, IsPartBelow};

use crate::choices::{Choice, Choices};
use crate::form::Rewrite;
use crate::inside::heights_of;
use crate::node::PropNode;
use crate::prop::Prop;
use std::alloc::{AllocError, Global};

/// A graph with its root, in which choices are gathered into trees.
#[derive(Drop)]
pub struct Gathered {
    pub prop: Prop,
    pub root: usize,
}

/// What becomes of a node.
#[derive(Drop)]
pub(crate) enum Part {
    /// Items of a tree, where the node is inside one.
    Inside(Choices),
    /// A node of the new graph.
    Node(PropNode),
}

/// The root with its choices gathered into trees: exactly those that occur once, as a branch of another choice, cut
/// where a path would have more than eight choices.
pub fn gather(alloc: Global, prop: &Prop, root: usize) -> Result<Gathered, AllocError>
    requires { root < length prop.now }
    ensures inside { IfOk result (λ g. g.root < length g.prop) }
    ensures graph { IfOk result (λ g. IsGraph g.prop) }
    ensures gathered { IfOk result (λ g. IsGathered prop.now root g.prop g.root) }
    ensures truth { IfOk result (λ g. (v : TheAtom → Bool) →
        truth_at v g.prop g.root ≡ truth_at v prop.now root) }
{
    let nodes = prop.nodes();
    let heights = heights_of(alloc, nodes, root)?;
    let mut entries = Vec::with_capacity(alloc, nodes.len())?;
    let mut new = Prop::new(alloc);
    for (id, node) in nodes.iter().enumerate() {
        let part = part_of(alloc, &mut new, &entries, node, heights[id] > 0)?;
        let entry = entry(alloc, &mut new, part)?;
        entries.push(entry)?;
    }
    let root = placed_at(alloc, &mut new, &entries, root)?;
    Ok(Gathered { prop: new, root })
}

/// The leaf, where the items are a leaf alone.
fn leaf_of(items: &[Choice]) -> Option<usize>
    ensures { result ≡ leaf_of items.now }
{
    if items.len() == 1 {
        if let Choice::Leaf(id) = items[0] {
            return Some(id);
        }
    }
    None
}

/// The node for the items: that of their leaf, or a tree of them.
fn placed(alloc: Global, prop: &mut Prop, items: &[Choice]) -> Result<usize, AllocError>
    requires { All (λ c. c < length prop.old) (named items.now) }
    ensures grows { Extends prop.old prop.new }
    ensures within { IfOk result (λ id. id < length prop.new) }
    ensures placed { IfOk result (IsPlaced prop.new items.now) }
{
    if let Some(id) = leaf_of(items) {
        return Ok(id);
    }
    let items = Choices::from_vec(Vec::from_slice(alloc, items)?);
    prop.make(Rewrite::Fresh(PropNode::Tree(items)))
}

/// What stands for a node.
fn entry_of(entries: &[Choices], id: usize) -> &[Choice]
    requires { id < length entries.now }
    ensures { result.now ≡ entry_at entries.now id }
{
    entries[id].as_slice()
}

/// The node for what stands for another one.
fn placed_at(
    alloc: Global,
    prop: &mut Prop,
    entries: &[Choices],
    id: usize,
) -> Result<usize, AllocError>
    requires inside { id < length entries.now }
    requires low { AreLow (length prop.old) entries.now }
    ensures grows { Extends prop.old prop.new }
    ensures low { AreLow (length prop.new) entries.now }
    ensures within { IfOk result (λ new. new < length prop.new) }
    ensures placed { IfOk result (IsPlaced prop.new (entry_at entries.now id)) }
{
    placed(alloc, prop, entry_of(entries, id))
}

/// The nodes for what stands for two others.
fn placed_both(
    alloc: Global,
    prop: &mut Prop,
    entries: &[Choices],
    a: usize,
    b: usize,
) -> Result<(usize, usize), AllocError>
    requires first { a < length entries.now }
    requires second { b < length entries.now }
    requires low { AreLow (length prop.old) entries.now }
    ensures grows { Extends prop.old prop.new }
    ensures first_within { IfOk result (λ new. new.0 < length prop.new) }
    ensures second_within { IfOk result (λ new. new.1 < length prop.new) }
    ensures first { IfOk result (λ new. IsPlaced prop.new (entry_at entries.now a) new.0) }
    ensures second { IfOk result (λ new. IsPlaced prop.new (entry_at entries.now b) new.1) }
{
    let first = placed_at(alloc, prop, entries, a)?;
    let second = placed_at(alloc, prop, entries, b)?;
    Ok((first, second))
}

/// What becomes of a node, by whether it is inside a tree and what stands for its children.
fn part_of(
    alloc: Global,
    prop: &mut Prop,
    entries: &[Choices],
    node: &PropNode,
    inside: bool,
) -> Result<Part, AllocError>
    requires children { All (λ c. c < length entries.now) (children node.now) }
    requires low { AreLow (length prop.old) entries.now }
    ensures grows { Extends prop.old prop.new }
    ensures part { IfOk result (IsPart prop.new entries.now inside node.now) }
    ensures below { IfOk result (IsPartBelow (length prop.new)) }
{
    match node {
        PropNode::True => Ok(Part::Node(PropNode::True)),
        PropNode::Atom(atom) => Ok(Part::Node(PropNode::Atom(*atom))),
        PropNode::Not(a) => negation(alloc, entry_of(entries, *a)),
        PropNode::And(a, b) => {
            let (a, b) = placed_both(alloc, prop, entries, *a, *b)?;
            Ok(Part::Node(PropNode::And(a, b)))
        }
        PropNode::Or(a, b) => {
            let (a, b) = placed_both(alloc, prop, entries, *a, *b)?;
            Ok(Part::Node(PropNode::Or(a, b)))
        }
        PropNode::Ite(a, b, c) => {
            let control = placed_at(alloc, prop, entries, *a)?;
            let yes = entry_of(entries, *b);
            let no = entry_of(entries, *c);
            choice(alloc, inside, control, yes, no)
        }
        PropNode::Tree(choices) => {
            let items = renamed(alloc, prop, entries, choices.as_slice())?;
            Ok(Part::Node(PropNode::Tree(Choices::from_vec(items))))
        }
    }
}

/// A negation, of a node or of what is inside a tree.
fn negation(alloc: Global, items: &[Choice]) -> Result<Part, AllocError>
    ensures { IfOk result (λ part. part ≡ negation_part items.now (leaf_of items.now)) }
{
    if let Some(id) = leaf_of(items) {
        return Ok(Part::Node(PropNode::Not(id)));
    }
    let mut negated = Vec::with_capacity(alloc, 8)?;
    negated.push(Choice::Not)?;
    negated.extend_from_slice(items)?;
    Ok(Part::Inside(Choices::from_vec(negated)))
}

/// A choice, by whether it is inside a tree.
fn choice(
    alloc: Global,
    inside: bool,
    control: usize,
    yes: &[Choice],
    no: &[Choice],
) -> Result<Part, AllocError>
    ensures { IfOk result (λ part. part ≡ choice_part inside control yes.now no.now) }
{
    if inside {
        let items = branches(alloc, control, yes, no)?;
        return Ok(Part::Inside(items));
    }
    let node = choice_node(alloc, control, yes, no)?;
    Ok(Part::Node(node))
}

/// A choice that is no branch: of two nodes, or else with the choices below it a tree.
fn choice_node(
    alloc: Global,
    control: usize,
    yes: &[Choice],
    no: &[Choice],
) -> Result<PropNode, AllocError>
    ensures { IfOk result (λ node.
        node ≡ choice_node control yes.now no.now (leaf_of yes.now) (leaf_of no.now)) }
{
    if let Some(a) = leaf_of(yes) {
        if let Some(b) = leaf_of(no) {
            return Ok(PropNode::Ite(control, a, b));
        }
    }
    let items = branches(alloc, control, yes, no)?;
    Ok(PropNode::Tree(items))
}

/// The items of a control with its two branches.
fn branches(
    alloc: Global,
    control: usize,
    yes: &[Choice],
    no: &[Choice],
) -> Result<Choices, AllocError>
    ensures { IfOk result (λ items. items ≡ branches control yes.now no.now) }
{
    let mut items = Vec::with_capacity(alloc, 8)?;
    items.push(Choice::Test(control))?;
    items.extend_from_slice(yes)?;
    items.extend_from_slice(no)?;
    Ok(Choices::from_vec(items))
}

/// The items with the new nodes of those that they name.
fn renamed(
    alloc: Global,
    prop: &mut Prop,
    entries: &[Choices],
    items: &[Choice],
) -> Result<Vec<Choice>, AllocError>
    requires children { All (λ c. c < length entries.now) (named items.now) }
    requires low { AreLow (length prop.old) entries.now }
    ensures grows { Extends prop.old prop.new }
    ensures renamed { IfOk result (λ new.
        AreRenamed prop.new entries.now items.now new.items) }
    ensures below { IfOk result (λ new. All (λ c. c < length prop.new) (named new.items)) }
{
    let mut new = Vec::with_capacity(alloc, 8)?;
    for item in items {
        let item = renamed_item(alloc, prop, entries, *item)?;
        new.push(item)?;
    }
    Ok(new)
}

/// The item with the new node of the one that it names.
fn renamed_item(
    alloc: Global,
    prop: &mut Prop,
    entries: &[Choices],
    item: Choice,
) -> Result<Choice, AllocError>
    requires children { All (λ c. c < length entries.now) (named (item ∷ [])) }
    requires low { AreLow (length prop.old) entries.now }
    ensures grows { Extends prop.old prop.new }
    ensures low { AreLow (length prop.new) entries.now }
    ensures renamed { IfOk result (λ new. AreRenamed prop.new entries.now (item ∷ []) (new ∷ [])) }
    ensures below { IfOk result (λ new. All (λ c. c < length prop.new) (named (new ∷ []))) }
{
    match item {
        Choice::Test(a) => {
            let id = placed_at(alloc, prop, entries, a)?;
            Ok(Choice::Test(id))
        }
        Choice::Not => Ok(Choice::Not),
        Choice::Leaf(a) => {
            let id = placed_at(alloc, prop, entries, a)?;
            Ok(Choice::Leaf(id))
        }
    }
}

/// What stands for a node: its items where it is inside a tree, else its node in the new graph.
fn entry(alloc: Global, prop: &mut Prop, part: Part) -> Result<Choices, AllocError>
    requires { IsPartBelow (length prop.old) part }
    ensures grows { Extends prop.old prop.new }
    ensures entry { IfOk result (IsEntry prop.new part) }
    ensures below { IfOk result (λ items. All (λ c. c < length prop.new) (named items)) }
{
    match part {
        Part::Inside(items) => Ok(items),
        Part::Node(node) => {
            let id = prop.make(Rewrite::Fresh(node))?;
            let items = Vec::from_slice(alloc, &[Choice::Leaf(id)])?;
            Ok(Choices::from_vec(items))
        }
    }
}
