//! Truth graphs as clauses. That a long chain takes no stack is tested by a row.
use crate::numbers::field;
use crate::truths::{make_all, push_atom};
use bd_cnf::{Assignment, dimacs_text};
use bd_prop::{Atom, Prop, gather};
use bd_tseitin::{AtomVars, Formula, clauses, inputs_of};
use std::alloc::AllocError;
use std::process::Abort;

/// Graphs, each a row that ends with a line of its own: the nodes, of which the last is the root, the atoms with their
/// variables, and the form of the root.
const ROWS: &str = "\
nodes T 7, = 1 2, and 0 1
atoms (T 7 1) (= 1 2 2)
form
p cnf 3 4
1 -3 0
2 -3 0
-1 -2 3 0
3 0
--
# an atom before them isn't reached
nodes T 9, T 7, = 1 2, or 1 2
atoms (T 7 1) (= 1 2 2)
form
p cnf 3 4
-1 3 0
-2 3 0
1 2 -3 0
3 0
--
nodes T 7, = 1 2, T 9, ite 0 1 2
atoms (T 7 1) (= 1 2 2) (T 9 3)
form
p cnf 4 5
-1 2 -4 0
-1 -2 4 0
1 3 -4 0
1 -3 4 0
4 0
--
# a tree of two choices is one gate
nodes T 7, = 1 2, T 9, T 8, ite 0 1 2, ite 3 4 1
atoms (T 7 1) (= 1 2 2) (T 9 3) (T 8 4)
form
p cnf 5 7
-1 2 -4 -5 0
-1 -2 -4 5 0
1 3 -4 -5 0
1 -3 -4 5 0
2 4 -5 0
-2 4 5 0
5 0
--
# so it is where a branch is the negation of a choice
nodes T 7, = 1 2, T 9, T 8, ite 0 1 2, not 4, ite 3 5 1
atoms (T 7 1) (= 1 2 2) (T 9 3) (T 8 4)
form
p cnf 5 7
-1 2 -4 5 0
-1 -2 -4 -5 0
1 3 -4 5 0
1 -3 -4 -5 0
2 4 -5 0
-2 4 5 0
5 0
--
# a choice that is a control is a gate of its own
nodes T 7, = 1 2, T 9, ite 0 1 2, ite 3 0 1
atoms (T 7 1) (= 1 2 2) (T 9 3)
form
p cnf 5 9
-1 2 -4 0
-1 -2 4 0
1 3 -4 0
1 -3 4 0
1 -4 -5 0
-1 -4 5 0
2 4 -5 0
-2 4 5 0
5 0
--
# not (a and not b)
nodes T 7, = 1 2, not 1, and 0 2, not 3
atoms (T 7 1) (= 1 2 2)
form
p cnf 3 4
1 -3 0
-2 -3 0
-1 2 3 0
-3 0
--
# a and not a: the clause that is always true is left out
nodes T 7, not 0, and 0 1
atoms (T 7 1)
form
p cnf 2 3
1 -2 0
-1 -2 0
2 0
--
nodes = 1 2
atoms (= 1 2 1)
form
p cnf 1 1
1 0
--
nodes true
form
p cnf 1 2
1 0
1 0
--
nodes true, not 0
form
p cnf 1 2
1 0
-1 0
";

/// The clauses of the graph, whose choices are gathered into trees before.
fn form(rt: &(impl Abort + AllocGlobal), nodes: &str) -> Formula {
    let mut prop = Prop::new(rt.alloc());
    let root = make_all(rt, &mut prop, nodes);
    assert!(rt; root < prop.len());
    let gathered = gather(rt.alloc(), &prop, root).expect(rt, "memory");
    clauses(rt.alloc(), &gathered.prop, gathered.root).expect(rt, "memory")
}

/// Adds the atoms, each with its variable.
fn push_atoms(text: &mut String, atoms: &AtomVars) -> Result<(), AllocError> {
    for row in atoms.as_slice() {
        let var = row.var;
        text.push_str(" (")?;
        push_atom(text, row.atom)?;
        write!(text, " {var})")?;
    }
    Ok(())
}

/// Whether the atoms of a formula, with their variables, have this text.
fn has_atoms(rt: &(impl Abort + AllocGlobal), formula: &Formula, want: &str) -> bool {
    let mut text = String::new(rt.alloc());
    push_atoms(&mut text, &formula.atoms).expect(rt, "memory");
    text.as_str() == want
}

/// Whether the clauses of a formula have this DIMACS text.
fn has_text(rt: &(impl Abort + AllocGlobal), formula: &Formula, want: &str) -> bool {
    let text = dimacs_text(rt.alloc(), &formula.cnf).expect(rt, "memory");
    text.as_slice() == want.as_bytes()
}

/// Checks the clauses and the atoms of a row.
fn check(rt: &(impl Abort + AllocGlobal), row: &str) {
    let (told, want) = row.split_once("form\n").expect(rt, "a form");
    let formula = form(rt, field(told, "nodes "));
    assert!(rt; has_text(rt, &formula, want), "{row}");
    assert!(rt; has_atoms(rt, &formula, field(told, "atoms")), "{row}");
}

/// Each root becomes the clauses and gets the variables that were written by hand.
#[test]
fn roots_become_clauses(rt: HostRuntime) {
    for row in ROWS.split("--\n") {
        check(&rt, row);
    }
}

/// Checks that the first atom is true, the second false, and another without a value where the first variable is true.
fn check_values(rt: &(impl Abort + AllocGlobal), formula: &Formula) {
    let mut assignment = Assignment::new(rt.alloc());
    assignment.set(1, true).expect(rt, "memory");
    let values = inputs_of(rt.alloc(), formula, &assignment).expect(rt, "memory");
    assert!(rt; values.get(Atom::Truth(7)) == Some(true));
    assert!(rt; values.get(Atom::Edge(1, 2)) == Some(false));
    assert!(rt; values.get(Atom::Truth(9)).is_none());
}

/// An assignment gives a value to each atom of the formula, false where its variable has none, and to no other.
#[test]
fn assignments_give_values(rt: HostRuntime) {
    let formula = form(&rt, "T 7, = 1 2, and 0 1");
    check_values(&rt, &formula);
}
