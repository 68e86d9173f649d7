//! A formula flattened by hand, with values of its variables and the tables that these make.
use crate::graphs::{build_all, has, has_no_memory, is_shown};
use bd_function::{Flat, Marked, SymTable, Values, flatten, tables};
use bd_model::{Scalar, Sort};
use bd_terms::{Graph, Sym};
use std::process::Abort;

/// p(g(x, f(x))) or f(x) = f(y), with x = y = 5: the first application of f counts.
const TERMS: &str = "E 0, E 1, F 0 0, F 0 1, F 1 0 2, F? 2 4, = 2 3, or 5 6";

/// An application is its symbol's earlier ones where the arguments are equal, and else its own variable. The equations
/// of the arguments are joined from true on.
const FLAT: &str = "V 0, V 1, V 2, V 3, true, = 0 1, ite 5 2 3, V 4, V? 5, = 2 6, or 8 9";

/// What the table of the symbol has at words.
pub(crate) fn value_at(tables: &[SymTable], sym: Sym, args: &[u64]) -> Scalar {
    match tables.iter().find(|table| table.sym == sym) {
        Some(table) => table.table.at(args),
        None => Scalar::Bool(false),
    }
}

/// The values of the variables.
fn values(rt: &(impl Abort + AllocGlobal)) -> Values {
    let mut values = Values::new(rt.alloc());
    for (var, word) in [(0, 5), (1, 5), (2, 7), (3, 9), (4, 8)] {
        values.set(var, Scalar::Word(word)).expect(rt, "memory");
    }
    values.set(5, Scalar::Bool(true)).expect(rt, "memory");
    values
}

/// Whether the tables have what was worked out by hand at arguments.
fn are_tables(tables: &[SymTable]) -> bool {
    value_at(tables, Sym::Entry(1), &[]) == Scalar::Word(5)
        && value_at(tables, Sym::Function(0), &[5]) == Scalar::Word(7)
        && value_at(tables, Sym::Function(0), &[7]) == Scalar::Word(0)
        && value_at(tables, Sym::Function(1), &[5, 7]) == Scalar::Word(8)
        && value_at(tables, Sym::Function(2), &[8]) == Scalar::Bool(true)
}

/// Whether the values of the variables make the tables written by hand.
fn has_tables(rt: &(impl Abort + AllocGlobal), flat: &Flat) -> bool {
    let values = values(rt);
    let tables = tables(rt.alloc(), flat, &values).expect(rt, "memory");
    are_tables(tables.as_slice())
}

/// Builds and flattens the terms, and checks the flat form and the tables that values of its variables make.
fn check(rt: &(impl Abort + AllocGlobal), graph: &mut Graph) {
    let root = build_all(rt, graph, TERMS);
    assert!(rt; has(graph, root, Sort::Bool) && has_no_memory(graph, root));
    let flat = flatten(rt.alloc(), graph, root).expect(rt, "memory");
    assert!(rt; is_shown(rt, &flat.graph, FLAT) && has_tables(rt, &flat));
}

/// The flat form is the one written by hand, and its tables give each application its value.
#[test]
fn tables_show_the_applications(rt: HostRuntime) {
    let mut graph = Graph::new(rt.alloc());
    check(&rt, &mut graph);
}

/// A set of marked variables has the one that was put in, and no other.
#[test]
fn sets_hold_what_was_put_in(rt: HostRuntime) {
    let mut marked = Marked::new(rt.alloc());
    marked.insert(3).expect(&rt, "memory");
    assert!(rt; marked.has(3) && !marked.has(4));
}
