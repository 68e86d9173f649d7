//! Formulas encoded by hand.
use crate::graphs::{build_all, has, has_no_memory};
use crate::numbers::{field, number, numbers};
use crate::truths::are_shown;
use bd_equality::{Encoded, encode};
use bd_function::{Flat, Marked, flatten};
use bd_list::Sequence;
use bd_model::{Distinct, Sort};
use bd_terms::Graph;
use bd_transitive::Edge;
use std::alloc::AllocError;
use std::process::Abort;

/// Formulas, each a row: terms, of which the last is the root, a group of constants that are kept apart, marked
/// variables if any are, and the truth graph with its edges and those of the constants. Variables are numbered as
/// constants come.
const ROWS: &str = "# two variables
terms F 0, F 1, = 0 1
nodes = 0 1
edges 0 1

# one word and itself
terms F 0, = 0 0
nodes true

# the constant true
terms true
nodes true

# an ite against one of its branches
terms F? 0, F 1, F 2, ite 0 1 2, = 3 1
nodes true, = 1 2, T 0, ite 2 0 1
edges 1 2

# an ite against an ite
terms F? 0, F? 1, F 2, F 3, ite 0 2 3, ite 1 2 3, = 4 5
nodes true, = 2 3, T 0, ite 2 0 1, ite 2 1 0, T 1, ite 5 3 4
edges 2 3

# a marked variable
terms F 0, F 1, = 0 1
group 0 1
marked 1
nodes true, not 0

# two constants that are compared, and one without a variable
terms F 0, F 1, = 0 1
group 1 5 0
nodes = 0 1
edges 0 1
apart 0 1

# two constants that are not compared with each other
terms F? 3, F 0, F 1, ite 0 1 2, F 2, = 3 4
group 0 1
nodes = 1 3, = 2 3, T 0, ite 2 0 1
edges 1 2 1 3 2 3
apart 1 2

# connectives
terms F 0, F 1, = 0 1, F? 2, not 2, and 4 3, or 5 3, ite 3 6 2
nodes T 2, = 0 1, not 1, and 2 0, or 3 0, ite 0 4 1
edges 0 1

# two rows of a marked function: their arguments
terms F 0, F 1, F 2 0, F 2 1, = 2 3, not 4
marked 2 3
nodes = 0 1, true, not 0
edges 0 1

# rows of two marked functions, of which one is nested
terms F 0, F 1, F 2 0, F 2 1, F 3 0, = 3 4
marked 2 3 4
nodes true, not 0

# a nested row of a marked function, and a variable that isn't marked
terms F 0, F 1, F 2 0, F 2 1, = 0 3
marked 2 3
nodes true, not 0

# two rows of a function that isn't marked: a choice
terms F 0, F 1, F 2 0, F 2 1, = 2 3, not 4
nodes true, = 2 3, = 0 1, ite 2 0 1, not 3
edges 2 3 0 1";

/// The set of the variables of a text, to be marked.
fn marked_of(rt: &(impl Abort + AllocGlobal), vars: &str) -> Marked {
    let mut marked = Marked::new(rt.alloc());
    for var in vars.split_whitespace() {
        marked.insert(u64::from(number(var))).expect(rt, "memory");
    }
    marked
}

/// The list of one group of constants that are kept apart, read from their numbers.
fn group_of(rt: &(impl Abort + AllocGlobal), group: &str) -> Distinct {
    let mut groups = Distinct::new(rt.alloc());
    let places = Sequence::from_vec(numbers(rt, group));
    groups.push(places).expect(rt, "memory");
    groups
}

/// Adds the ends of edges, each after a space.
fn push_ends(text: &mut String, edges: &[Edge]) -> Result<(), AllocError> {
    for edge in edges {
        let (from, to) = (edge.from, edge.to);
        write!(text, " {from} {to}")?;
    }
    Ok(())
}

/// Whether the ends of the edges, in order, have this text.
fn are_edges(rt: &(impl Abort + AllocGlobal), edges: &[Edge], want: &str) -> bool {
    let mut text = String::new(rt.alloc());
    push_ends(&mut text, edges).expect(rt, "memory");
    text.as_str() == want
}

/// Checks that an encoded formula has the nodes and the edges of a row, and its last node as its root.
fn check_told(rt: &(impl Abort + AllocGlobal), encoded: &Encoded, row: &str) {
    let (edges, apart) = (encoded.edges.as_slice(), encoded.apart.as_slice());
    assert!(rt; encoded.root.saturating_add(1) == encoded.prop.len());
    assert!(rt;
        are_shown(rt, encoded.prop.nodes(), field(row, "nodes ")),
        "{row}"
    );
    assert!(rt; are_edges(rt, edges, field(row, "edges")), "{row}");
    assert!(rt; are_edges(rt, apart, field(row, "apart")), "{row}");
}

/// Checks that a flat formula is encoded as a row tells, with these marked variables or with none.
fn check_encoded(rt: &(impl Abort + AllocGlobal), flat: &Flat, marked: Option<&Marked>, row: &str) {
    let distinct = group_of(rt, field(row, "group"));
    let encoded = encode(rt.alloc(), flat, &distinct, marked).expect(rt, "memory");
    check_told(rt, &encoded, row);
}

/// Checks that a flat formula is encoded as a row tells, whether it marks variables or not.
fn check_flat(rt: &(impl Abort + AllocGlobal), flat: &Flat, row: &str) {
    let vars = field(row, "marked");
    if vars.is_empty() {
        check_encoded(rt, flat, None, row);
    } else {
        check_encoded(rt, flat, Some(&marked_of(rt, vars)), row);
    }
}

/// Builds and flattens the terms of a row, and checks how they are encoded.
fn check(rt: &(impl Abort + AllocGlobal), graph: &mut Graph, row: &str) {
    let root = build_all(rt, graph, field(row, "terms "));
    assert!(rt; has(graph, root, Sort::Bool) && has_no_memory(graph, root));
    let flat = flatten(rt.alloc(), graph, root).expect(rt, "memory");
    check_flat(rt, &flat, row);
}

/// Each formula is encoded as the truth graph and the edges written by hand.
#[test]
fn formulas_are_encoded(rt: HostRuntime) {
    for row in ROWS.split("\n\n") {
        let mut graph = Graph::new(rt.alloc());
        check(&rt, &mut graph, row);
    }
}
