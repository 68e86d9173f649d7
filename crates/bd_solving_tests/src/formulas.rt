//! Formulas as texts: a line for each clause, whose literals are written as DIMACS CNF writes them.
//!
//! What a function owns is dropped at each of its ways out, and each drop is proved: so a function here owns little,
//! and hands the rest on by reference.
use bd_cnf::{Clause, Clauses, Cnf, Lit};
use std::alloc::{AllocError, Global};
use std::process::Abort;

/// The four clauses over two variables, which no assignment satisfies.
pub(crate) const SQUARE: &str = "1 2\n1 -2\n-1 2\n-1 -2\n";

/// The literal that a number spells; none for 0.
pub(crate) fn literal(word: &str) -> Option<Lit> {
    let number = word.parse::<i64>().unwrap_or(0);
    let var = number.unsigned_abs();
    if var > 0 {
        Some(Lit::new(var, number > 0))
    } else {
        None
    }
}

/// The literals of a text.
pub(crate) fn literals(alloc: Global, text: &str) -> Result<Vec<Lit>, AllocError> {
    let mut lits = Vec::new(alloc);
    for word in text.split_whitespace() {
        if let Some(lit) = literal(word) {
            lits.push(lit)?;
        }
    }
    Ok(lits)
}

/// The clause of a text, which is no tautology.
pub(crate) fn clause(rt: &(impl Abort + AllocGlobal), text: &str) -> Result<Clause, AllocError> {
    let lits = literals(rt.alloc(), text)?;
    Ok(Clause::from_vec(lits).expect(rt, "no tautology"))
}

/// Adds the clause of a text, whose variables the formula has.
pub(crate) fn push(
    rt: &(impl Abort + AllocGlobal),
    cnf: &mut Cnf,
    text: &str,
) -> Result<(), AllocError> {
    let clause = clause(rt, text)?;
    assert!(rt; clause.is_within(cnf.vars()));
    cnf.push(clause)
}

/// The formula of a text.
pub(crate) fn formula(
    rt: &(impl Abort + AllocGlobal),
    vars: u64,
    text: &str,
) -> Result<Cnf, AllocError> {
    let mut cnf = Cnf::new(vars, Clauses::new(rt.alloc()));
    for line in text.lines() {
        push(rt, &mut cnf, line)?;
    }
    Ok(cnf)
}
