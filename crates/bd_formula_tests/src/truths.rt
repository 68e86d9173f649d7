//! Truth graphs as texts, and values of their atoms. Nodes are parted by commas: `T 7` is a truth variable, `= 1 2` an
//! edge, and the others name their parts by their places.
use crate::numbers::numbers;
use bd_prop::{Atom, AtomValues, Choice, Prop, PropNode, reached};
use std::alloc::AllocError;
use std::process::Abort;

/// The number at the place, and 0 past the end.
fn at(numbers: &[u32], place: usize) -> u32 {
    numbers.get(place).copied().unwrap_or(0)
}

/// The node of an operation on nodes of the graph.
fn make_over(
    rt: &impl Abort,
    prop: &mut Prop,
    op: &str,
    a: usize,
    b: usize,
    c: usize,
) -> Result<usize, AllocError> {
    let len = prop.len();
    assert!(rt; a < len && b < len && c < len);
    if op == "not" {
        prop.mk_not(a)
    } else if op == "and" {
        prop.mk_and(a, b)
    } else if op == "or" {
        prop.mk_or(a, b)
    } else {
        prop.mk_ite(a, b, c)
    }
}

/// The node of an operation and its numbers, made in the graph; it may be rewritten.
fn make_with(
    rt: &impl Abort,
    prop: &mut Prop,
    op: &str,
    numbers: &[u32],
) -> Result<usize, AllocError> {
    let (a, b, c) = (at(numbers, 0), at(numbers, 1), at(numbers, 2));
    if op == "true" {
        prop.mk_true()
    } else if op == "T" {
        prop.mk_atom(Atom::Truth(u64::from(a)))
    } else if op == "=" {
        prop.mk_atom(Atom::Edge(u64::from(a), u64::from(b)))
    } else {
        make_over(rt, prop, op, a as usize, b as usize, c as usize)
    }
}

/// The node of a text, made in the graph; it may be rewritten.
fn make(rt: &(impl Abort + AllocGlobal), prop: &mut Prop, node: &str) -> usize {
    let (op, rest) = node.split_once(' ').unwrap_or((node, ""));
    let numbers = numbers(rt, rest);
    make_with(rt, prop, op, &numbers).expect(rt, "memory")
}

/// Makes the nodes of the text in order, and answers with the last.
pub(crate) fn make_all(rt: &(impl Abort + AllocGlobal), prop: &mut Prop, text: &str) -> usize {
    let mut last = 0;
    for node in text.split(", ") {
        last = make(rt, prop, node);
    }
    assert!(rt; last < prop.len());
    last
}

/// Adds an atom.
pub(crate) fn push_atom(text: &mut String, atom: Atom) -> Result<(), AllocError> {
    match atom {
        Atom::Truth(var) => write!(text, "T {var}"),
        Atom::Edge(from, to) => write!(text, "= {from} {to}"),
    }
}

/// Adds a tree of choices, item by item.
fn push_tree(text: &mut String, items: &[Choice]) -> Result<(), AllocError> {
    text.push_str("tree")?;
    for item in items {
        match *item {
            Choice::Test(a) => write!(text, " ?{a}")?,
            Choice::Not => text.push_str(" not")?,
            Choice::Leaf(a) => write!(text, " {a}")?,
        }
    }
    Ok(())
}

/// Adds a node.
fn push_node(text: &mut String, node: &PropNode) -> Result<(), AllocError> {
    match node {
        PropNode::True => text.push_str("true"),
        PropNode::Atom(atom) => push_atom(text, *atom),
        PropNode::Not(a) => write!(text, "not {a}"),
        PropNode::And(a, b) => write!(text, "and {a} {b}"),
        PropNode::Or(a, b) => write!(text, "or {a} {b}"),
        PropNode::Ite(a, b, c) => write!(text, "ite {a} {b} {c}"),
        PropNode::Tree(choices) => push_tree(text, choices.as_slice()),
    }
}

/// Adds the nodes, as `make_all` reads them, and a comma and a space after each.
fn push_nodes(text: &mut String, nodes: &[PropNode]) -> Result<(), AllocError> {
    for node in nodes {
        push_node(text, node)?;
        text.push_str(", ")?;
    }
    Ok(())
}

/// Whether the nodes have this text.
pub(crate) fn are_shown(rt: &(impl Abort + AllocGlobal), nodes: &[PropNode], want: &str) -> bool {
    let mut text = String::new(rt.alloc());
    push_nodes(&mut text, nodes).expect(rt, "memory");
    text.as_str().strip_suffix(", ").unwrap_or("") == want
}

/// Equal nodes, a double negation, constant and equal parts, a constant control, equal branches, and nodes of each form
/// to which no rule applies.
const MADE: &str =
    "true, not 0, T 7, = 1 7, T 7, not 1, not 2, not 4, and 2 3, and 0 2, and 2 0, and 1 2, \
and 2 1, and 3 3, or 2 3, or 0 2, or 2 0, or 1 2, or 2 1, or 3 3, ite 0 2 3, ite 1 2 3, ite 2 3 3, and 3 2, \
ite 2 3 5";

const KEPT: &str = "true, not 0, T 7, = 1 7, not 2, and 2 3, or 2 3, and 3 2, ite 2 3 5";

/// Checks that the root reaches just the nodes that are true in the list.
fn check_reached(rt: &(impl Abort + AllocGlobal), prop: &Prop, root: usize, want: &[bool]) {
    assert!(rt; root < prop.len());
    let marks = reached(rt.alloc(), prop, root).expect(rt, "memory");
    assert!(rt; marks.as_slice() == want);
}

/// Nodes that come to others aren't kept, and the root reaches those that it is made of.
#[test]
fn constructors_rewrite(rt: HostRuntime) {
    let mut prop = Prop::new(rt.alloc());
    let root = make_all(&rt, &mut prop, MADE);
    assert!(rt; are_shown(&rt, prop.nodes(), KEPT));
    let want = [false, false, true, true, false, true, false, false, true];
    check_reached(&rt, &prop, root, want.as_slice());
}

/// An atom has the value that was set, another has none, and where none is set its value is false.
#[test]
fn values_are_kept(rt: HostRuntime) {
    let mut values = AtomValues::new(rt.alloc());
    values.set(Atom::Edge(3, 4), true).expect(&rt, "memory");
    assert!(rt; values.get(Atom::Edge(3, 4)) == Some(true));
    assert!(rt; values.get(Atom::Truth(3)).is_none() && !values.value(Atom::Edge(4, 3)));
}
