//! Terms of each form, and the graph that they make.
use crate::graphs::{build_all, has, is_shown};
use bd_model::Sort;
use bd_terms::{Graph, reached};
use std::process::Abort;

/// Each form, an application twice, a read at a written address, and truth values that come to others: a double
/// negation, a constant part, equal parts, a constant control and equal branches.
const TERMS: &str =
    "I 0, F 0 0, F 0 0, = 1 2, F 1 0 1, F? 2 0 1, = 0 4, init 0, write 7 0 1, read 8 0, \
read 8 4, ite 5 8 7, read 11 0, not 5, not 13, and 3 5, and 5 6, or 5 3, or 13 6, and 5 5, not 3, ite 20 5 6, \
ite 5 6 6, V 7";

/// What the terms of each form are kept as.
const KEPT: &str =
    "I 0, F 0 0, true, F 1 0 1, F? 2 0 1, = 0 3, init 0, write 6 0 1, read 7 0, read 7 3, \
ite 4 7 6, read 10 0, not 4, and 4 5, or 12 5, not 2, V 7";

/// Builds terms of each form, and checks what they are kept as.
fn keeps_all(rt: &(impl Abort + AllocGlobal), graph: &mut Graph) {
    build_all(rt, graph, TERMS);
    assert!(rt; is_shown(rt, graph, KEPT));
}

/// Terms that come to others aren't kept, and an application made twice is kept once.
#[test]
fn each_term_is_simplified_and_kept_once(rt: HostRuntime) {
    let mut graph = Graph::new(rt.alloc());
    keeps_all(&rt, &mut graph);
}

/// Checks that of four terms the root reaches two, and that these are marked.
fn marks(rt: &(impl Abort + AllocGlobal), graph: &mut Graph) {
    let root = build_all(rt, graph, "I? 0, I? 1, not 1, not 0");
    assert!(rt; has(graph, root, Sort::Bool));
    assert!(rt; graph.len() == 4);
    let marks = reached(graph, root).expect(rt, "memory");
    assert!(rt; marks.has(graph.id(0)) && marks.has(root));
    assert!(rt; !marks.has(graph.id(1)) && !marks.has(graph.id(2)));
}

/// Exactly the terms that the root reaches are marked.
#[test]
fn what_is_reached_is_marked(rt: HostRuntime) {
    let mut graph = Graph::new(rt.alloc());
    marks(&rt, &mut graph);
}
