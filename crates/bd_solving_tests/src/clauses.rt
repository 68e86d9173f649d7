//! Clauses of literals, and formulas under assignments.
use crate::formulas::{SQUARE, formula, literals};
use bd_cnf::{Assignment, Clause, Cnf, dimacs_text, push_literals};
use std::alloc::{AllocError, Global};
use std::process::Abort;
use std::test::Fail;

/// The clause, as DIMACS CNF writes it; none for a tautology.
fn spelled(alloc: Global, clause: Option<&Clause>) -> Result<String, AllocError> {
    let mut text = String::new(alloc);
    match clause {
        Some(clause) => push_literals(&mut text, clause.lits())?,
        None => text.push_str("none")?,
    }
    Ok(text)
}

/// Whether a clause has this text; `none` stands for no clause.
fn is_spelled(alloc: Global, clause: Option<&Clause>, want: &str) -> Result<bool, AllocError> {
    let text = spelled(alloc, clause)?;
    Ok(text.as_str() == want)
}

/// Whether the clause made of the literals of a text, which stay, is the one wanted.
fn is_of(alloc: Global, text: &str, want: &str) -> Result<bool, AllocError> {
    let lits = literals(alloc, text)?;
    let clause = Clause::of(alloc, &lits)?;
    is_spelled(alloc, clause.as_ref(), want)
}

/// Whether the clause made of the literals of a text, which it takes, is the one wanted.
fn is_from_vec(alloc: Global, text: &str, want: &str) -> Result<bool, AllocError> {
    let clause = Clause::from_vec(literals(alloc, text)?);
    is_spelled(alloc, clause.as_ref(), want)
}

/// A clause has each literal once, and literals of both signs make none, by either way to make one.
#[test]
fn clauses_drop_repeats_and_refuse_both_signs(rt: HostRuntime) -> Result<(), Fail> {
    for (text, want) in [("2 -1 2", "-1 2 "), ("1 -1", "none")] {
        assert!(&rt; is_of(rt.alloc(), text, want)?);
        assert!(&rt; is_from_vec(rt.alloc(), text, want)?);
    }
    Ok(())
}

/// The assignment in which variable 2 alone is held.
fn second(alloc: Global, value: bool) -> Result<Assignment, AllocError> {
    let mut a = Assignment::new(alloc);
    a.set(2, value)?;
    Ok(a)
}

/// Whether the assignment that holds variable 2 alone satisfies the formula, where what isn't held is false.
fn satisfies(rt: &(impl Abort + AllocGlobal), value: bool, text: &str) -> Result<bool, AllocError> {
    let a = second(rt.alloc(), value)?;
    assert!(rt; a.get(1).is_none() && a.value(2) == value);
    let cnf = formula(rt, 2, text)?;
    Ok(cnf.satisfied(&a))
}

/// An assignment satisfies a formula if it makes a literal of each clause true.
#[test]
fn assignments_satisfy_formulas(rt: HostRuntime) -> Result<(), Fail> {
    assert!(&rt; satisfies(&rt, false, "1 -2\n-1 -2\n")? && !satisfies(&rt, false, SQUARE)?);
    assert!(rt; !satisfies(&rt, true, "1 -2\n-1 -2\n")? && satisfies(&rt, true, "")?);
    Ok(())
}

/// Whether a formula is written as the DIMACS CNF of the square.
fn has_text(alloc: Global, cnf: &Cnf) -> Result<bool, AllocError> {
    let text = dimacs_text(alloc, cnf)?;
    Ok(text.as_slice() == b"p cnf 2 4\n1 2 0\n1 -2 0\n-1 2 0\n-1 -2 0\n".as_slice())
}

/// The four clauses over two variables are written as DIMACS CNF.
#[test]
fn the_square_is_written(rt: HostRuntime) -> Result<(), Fail> {
    let cnf = formula(&rt, 2, SQUARE)?;
    assert!(rt; has_text(rt.alloc(), &cnf)?);
    Ok(())
}
