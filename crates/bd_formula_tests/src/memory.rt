//! Reads worked by hand. That a long chain of writes takes no stack is tested by a row.
use crate::graphs::{build_all, has, is_shown};
use crate::numbers::field;
use bd_memory::forward;
use bd_model::Sort;
use bd_terms::{Graph, Id};
use std::process::Abort;

/// Terms of which the last is the root, and the terms that come out, a row each.
const ROWS: &str = "# a read at the address that is written
terms init 0, A 0, I 0, write 0 1 2, read 3 1, I 1, = 4 5
left A 0, I 0, E 0 0, true, I 1, = 1 4

# and at another
terms init 0, A 0, I 0, A 1, write 0 1 2, read 4 3, = 5 2
left A 0, I 0, A 1, E 0 2, = 2 0, ite 4 1 3, = 5 1

# an ite of memories is read at two addresses, once at the one that is written
terms init 0, A 0, I 0, I? 1, write 0 1 2, ite 3 4 0, A 1, read 5 6, read 5 1, = 7 8
left A 0, I 0, I? 1, A 1, E 0 3, = 3 0, ite 5 1 4, ite 2 6 4, E 0 0, true, ite 2 1 8, = 7 10

# no memory, and terms that the root doesn't reach
terms I 0, I 1, I 2, init 3, F 0 0 1, = 4 0, F? 1 0, and 5 6, not 7, or 8 6, ite 6 9 5
left I 0, I 1, F 0 0 1, = 2 0, F? 1 0, and 3 4, not 5, or 6 4, ite 4 7 3";

/// Checks that removing the memories of a graph leaves the terms that are wanted, the root as the last.
fn check_forwarded(rt: &(impl Abort + AllocGlobal), graph: &Graph, root: Id, want: &str) {
    assert!(rt; has(graph, root, Sort::Bool));
    let (forwarded, place) = forward(rt.alloc(), graph, root).expect(rt, "memory");
    assert!(rt; place.index().saturating_add(1) == forwarded.len());
    assert!(rt; is_shown(rt, &forwarded, want), "{want}");
}

/// Builds the terms of a row, and checks what removing their memories leaves.
fn check(rt: &(impl Abort + AllocGlobal), graph: &mut Graph, row: &str) {
    let root = build_all(rt, graph, field(row, "terms "));
    check_forwarded(rt, graph, root, field(row, "left "));
}

/// Each read becomes a choice between the words written and what the memory first has.
#[test]
fn reads_go_down_to_what_was_written(rt: HostRuntime) {
    for row in ROWS.split("\n\n") {
        let mut graph = Graph::new(rt.alloc());
        check(&rt, &mut graph, row);
    }
}
