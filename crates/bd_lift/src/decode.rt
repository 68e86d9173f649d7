//! Values of the flat graph's variables.
ghost use Rattle.std.specs.Prelude.{◌≡◌, ◌<◌, ◌+◌, ◌*◌, ◌^◌, ℕ, length, nat_eq, slice_index, IfOk, OnOk, Some, None, if◌then◌else◌};
ghost use Rattle.std.specs.List.{IsDistinct};
ghost use Rattle.std.specs.Map.{lookup};
ghost use Rattle.bd_transitive.specs.Orders.{IsOrder, place};
ghost use Rattle.bd_transitive.specs.Triangle.{class_of};
ghost use Rattle.bd_function.specs.Values.{held, scalar_of};
ghost use Rattle.bd_lift.specs.Decoded.{AreDecodedBy, edge_truths, is_end};
ghost use Rattle.bd_lift.specs.inner.Steps.{AreDecodedSo, HasSmallVariable, decoded_at, word_by};

use bd_function::{Flat, Values};
use bd_model::Scalar;
use bd_prop::{Atom, AtomValues};
use bd_terms::{Node, Sym};
use bd_transitive::{Classes, Edge, EdgeValues, Order};
use indexmap::{IndexMap, IndexSet};
use std::alloc::{AllocError, Global};

/// The value of each edge: that of its atom.
pub(crate) fn edge_values(
    alloc: Global,
    order: &Order,
    values: &AtomValues,
) -> Result<EdgeValues, AllocError>
    ensures { IfOk result (λ truths. truths ≡ edge_truths values.now order.now.edges) }
{
    let mut truths = Vec::with_capacity(alloc, order.edges.len())?;
    for edge in order.edges.as_slice() {
        truths.push(values.value(Atom::Edge(edge.from, edge.to)))?;
    }
    Ok(EdgeValues::from_vec(truths))
}

/// The value of each variable of the graph, from classes and the atoms' values.
pub(crate) fn decode(
    alloc: Global,
    flat: &Flat,
    order: &Order,
    classes: &Classes,
    values: &AtomValues,
) -> Result<Values, AllocError>
    requires { IsOrder order.now }
    ensures { IfOk result (λ v.
        AreDecodedBy flat.now.graph order.now values.now classes.now (scalar_of v)) }
{
    let ends = end_classes(alloc, order, classes.as_slice())?;
    decode_all(alloc, flat, &ends, order.vertices.as_slice(), values)
}

/// The value of each variable: a word is its vertex's class or a number of its own, a truth value its atom's.
fn decode_all(
    alloc: Global,
    flat: &Flat,
    ends: &IndexMap<u64, u64>,
    vertices: &[u64],
    values: &AtomValues,
) -> Result<Values, AllocError>
    ensures { IfOk result (λ v. AreDecodedSo flat.now.graph
        (word_by ends.now.entries (length vertices.now)) values.now (held v)) }
{
    let mut decoded = Values::new(alloc);
    for index in 0..flat.graph.len() {
        let node = flat.graph.node(flat.graph.id(index));
        decode_node(&mut decoded, ends, vertices, values, node)?;
    }
    Ok(decoded)
}

/// Sets the value of the variable that the node applies, if it applies one.
fn decode_node(
    decoded: &mut Values,
    ends: &IndexMap<u64, u64>,
    vertices: &[u64],
    values: &AtomValues,
    node: &Node,
) -> Result<(), AllocError>
    requires { HasSmallVariable node.now }
    ensures { OnOk result ((y : ℕ) → held decoded.new y
        ≡ decoded_at (word_by ends.now.entries (length vertices.now)) values.now node.now y
        (held decoded.old y)) }
{
    match node {
        Node::App(Sym::Var(var), _) => {
            let word = word_of(ends, vertices, *var);
            decoded.set(*var, Scalar::Word(word))
        }
        Node::Pred(Sym::Var(var), _) => {
            let truth = values.value(Atom::Truth(*var));
            decoded.set(*var, Scalar::Bool(truth))
        }
        _ => Ok(()),
    }
}

/// The class of the variable's vertex, or a number of its own.
fn word_of(ends: &IndexMap<u64, u64>, vertices: &[u64], var: u64) -> u64
    requires { var < 2 ^ 60 }
    ensures { result ≡ word_by ends.now.entries (length vertices.now) var }
{
    match ends.get(&var) {
        Some(class) => *class,
        None => own_number(vertices, var),
    }
}

/// The number past the classes of a variable in no edge, at twice its own. It has 64 bits, since so many vertices fit
/// the memory.
pub(crate) fn own_number(vertices: &[u64], index: u64) -> u64
    requires { index < 2 ^ 60 }
    ensures number { result ≡ length vertices.now + 2 * index }
    ensures small { result < 3 * 2 ^ 60 }
{
    vertices.len() as u64 + index * 2
}

/// The class of each end of an edge of the order.
fn end_classes(
    alloc: Global,
    order: &Order,
    classes: &[u64],
) -> Result<IndexMap<u64, u64>, AllocError>
    requires { IsDistinct nat_eq order.now.vertices }
    ensures { IfOk result (λ ends. (x : ℕ) → lookup (nat_eq x) ends.entries
        ≡ (if is_end order.now.edges x
        then Some (class_of order.now.vertices classes.now x) else None)) }
{
    let vertices = places(alloc, order.vertices.as_slice())?;
    classes_at(alloc, &vertices, classes, order.edges.as_slice())
}

/// The class of each end of these edges, where so many vertices have a class by their places.
fn classes_at(
    alloc: Global,
    vertices: &IndexSet<u64>,
    classes: &[u64],
    edges: &[Edge],
) -> Result<IndexMap<u64, u64>, AllocError>
    ensures { IfOk result (λ ends. (x : ℕ) → lookup (nat_eq x) ends.entries
        ≡ (if is_end edges.now x
        then Some (class_of vertices.now.keys classes.now x) else None)) }
{
    let mut ends = IndexMap::new(alloc);
    for edge in edges {
        ends.insert(edge.from, class_of(vertices, classes, edge.from))?;
        ends.insert(edge.to, class_of(vertices, classes, edge.to))?;
    }
    Ok(ends)
}

/// The vertices by their places.
fn places(alloc: Global, vertices: &[u64]) -> Result<IndexSet<u64>, AllocError>
    requires { IsDistinct nat_eq vertices.now }
    ensures { IfOk result (λ places. places.keys ≡ vertices.now) }
{
    let mut places = IndexSet::new(alloc);
    for vertex in vertices {
        places.insert(*vertex)?;
    }
    Ok(places)
}

/// The class of a vertex.
fn class_of(vertices: &IndexSet<u64>, classes: &[u64], vertex: u64) -> u64
    ensures { result ≡ class_of vertices.now.keys classes.now vertex }
{
    class_at(classes, place_of(vertices, vertex))
}

/// The place of a vertex: the number of vertices where it is not there.
fn place_of(vertices: &IndexSet<u64>, vertex: u64) -> usize
    ensures { result ≡ place vertices.now.keys vertex }
{
    vertices.get_index_of(&vertex).unwrap_or(vertices.len())
}

/// The class at a place, or 0 past the last.
fn class_at(classes: &[u64], place: usize) -> u64
    ensures { result ≡ slice_index classes.now place }
{
    classes.get(place).copied().unwrap_or(0)
}
