//! A formula whose positive symbols were found by hand, and a world made diverse.
ghost use Rattle.bd_model.specs.declared.design.Sort.TheVariants as kind;
ghost use Rattle.bd_terms.specs.Graph.{HasSort};

use crate::function::value_at;
use crate::graphs::{build_all, has, has_no_memory, symbol_of};
use bd_diverse::{Positive, diversify, is_true, marked, positive};
use bd_function::{Flat, FlatTables, SymTable, flatten};
use bd_model::{Rows, Scalar, Sort, Table};
use bd_terms::{Graph, Id, Sym};
use std::process::Abort;

/// f(x) = y, or not f(z) = m, or not (p and not a = b), or g(ite(n = q, x, z)) = y, or ite(c = d, a, b) = y. The
/// symbols f, p, c, d, m, n and q aren't positive, g, x, y, z, a and b are.
const MIXED: &str =
    "I 1, I 2, I 3, F 0 0, = 3 1, F 0 2, I 8, = 5 6, not 7, I? 0, I 4, I 5, = 10 11, not 12, \
and 9 13, not 14, I 9, I 10, = 16 17, ite 18 0 2, F 1 19, = 20 1, I 6, I 7, = 22 23, ite 24 10 11, = 25 1, \
or 4 8, or 15 21, or 27 28, or 29 26";

const POSITIVE: &str = "F 1, I 1, I 2, I 3, I 4, I 5";

const OTHERS: &str = "F 0, I 0, I 6, I 7, I 8, I 9, I 10";

/// Whether each of these symbols was found positive, or none of them.
fn are(positive: &Positive, symbols: &str, wanted: bool) -> bool {
    for symbol in symbols.split(", ") {
        if positive.has(symbol_of(symbol)) != wanted {
            return false;
        }
    }
    true
}

/// Checks that exactly the variables of positive symbols are marked.
fn check_marked(rt: &(impl Abort + AllocGlobal), flat: &Flat, positive: &Positive) {
    let marked = marked(rt.alloc(), flat, positive).expect(rt, "memory");
    for symbol in flat.syms.as_slice() {
        for row in symbol.rows.as_slice() {
            assert!(rt; marked.has(row.var) == positive.has(symbol.sym));
        }
    }
}

/// Checks that the flat form of a formula has marked variables for its positive symbols alone.
fn check_flat(rt: &(impl Abort + AllocGlobal), graph: &Graph, root: Id, positive: &Positive)
    requires { HasSort graph.now root kind.Bool }
{
    assert!(rt; has_no_memory(graph, root));
    let flat = flatten(rt.alloc(), graph, root).expect(rt, "memory");
    check_marked(rt, &flat, positive);
}

/// Checks which symbols of the mixed formula are positive, and which variables of its flat form are marked.
fn mixed(rt: &(impl Abort + AllocGlobal), graph: &mut Graph) {
    let root = build_all(rt, graph, MIXED);
    assert!(rt; has(graph, root, Sort::Bool));
    let positive = positive(rt.alloc(), graph, root).expect(rt, "memory");
    assert!(rt; are(&positive, POSITIVE, true) && are(&positive, OTHERS, false));
    check_flat(rt, graph, root, &positive);
}

/// Symbols are found positive or not in a formula with each way to stand in an equation.
#[test]
fn symbols_are_positive_or_not(rt: HostRuntime) {
    let mut graph = Graph::new(rt.alloc());
    mixed(&rt, &mut graph);
}

/// A symbol's table that has one word everywhere.
fn constant(rt: &impl AllocGlobal, sym: Sym, word: u64) -> SymTable {
    SymTable {
        sym,
        table: Table {
            default: Scalar::Word(word),
            rows: Rows::new(rt.alloc()),
        },
    }
}

/// Whether f(x), x and y have three different values under the tables.
fn are_different(tables: &[SymTable]) -> bool {
    let x = value_at(tables, Sym::Input(0), &[]);
    let y = value_at(tables, Sym::Input(1), &[]);
    match x {
        Scalar::Word(word) => {
            let f = value_at(tables, Sym::Function(0), &[word]);
            x != y && f != x && f != y
        }
        Scalar::Bool(_) => false,
    }
}

/// Checks that a formula is false under the tables, and that its values differ once they are made diverse.
fn check_diverse(rt: &(impl Abort + AllocGlobal), graph: &Graph, root: Id, tables: &FlatTables) {
    assert!(rt; has(graph, root, Sort::Bool) && has_no_memory(graph, root));
    let is_true = is_true(rt.alloc(), graph, root, tables).expect(rt, "memory");
    assert!(rt; !is_true);
    let diverse = diversify(rt.alloc(), graph, root, tables).expect(rt, "memory");
    assert!(rt; are_different(diverse.as_slice()));
}

/// The tables in which f is 0 everywhere, x is 0 and y is 1.
fn world(rt: &(impl Abort + AllocGlobal)) -> FlatTables {
    let mut tables = FlatTables::new(rt.alloc());
    for (symbol, word) in [("F 0", 0), ("I 0", 0), ("I 1", 1)] {
        let table = constant(rt, symbol_of(symbol), word);
        tables.push(table).expect(rt, "memory");
    }
    tables
}

/// Builds the equation f(x) = y, and checks that its values become different.
fn equation(rt: &(impl Abort + AllocGlobal), graph: &mut Graph) {
    let root = build_all(rt, graph, "I 0, F 0 0, I 1, = 1 2");
    let tables = world(rt);
    check_diverse(rt, graph, root, &tables);
}

/// A world where f(x) and x are equal gets different values, since no general equation compares them.
#[test]
fn equal_values_become_different(rt: HostRuntime) {
    let mut graph = Graph::new(rt.alloc());
    equation(&rt, &mut graph);
}
