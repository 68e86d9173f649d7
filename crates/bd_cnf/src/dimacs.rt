//! The text that other solvers read. It is proved byte by byte against its definition, so a formula
//! and what is written of it can't differ.
ghost use Rattle.std.specs.Prelude.{◌≡◌, OnOk, IfOk};
ghost use Rattle.bd_cnf.specs.Problem.{Appends, dimacs, literals_text};

use crate::cnf::Cnf;
use crate::lit::Lit;
use std::alloc::{AllocError, Global};

/// The formula in DIMACS CNF: the problem line, then a line for each clause.
pub fn dimacs_text(alloc: Global, cnf: &Cnf) -> Result<Vec<u8>, AllocError>
    ensures { IfOk result (λ text. text.items ≡ dimacs cnf.now) }
{
    let vars = cnf.vars();
    let clauses = cnf.clauses();
    let count = clauses.len();
    let mut text = format!(in alloc; "p cnf {vars} {count}\n")?;
    for clause in clauses {
        push_literals(&mut text, clause.lits())?;
        text.push_str("0\n")?;
    }
    Ok(text.into_bytes())
}

/// Writes literals after the text, each followed by a space.
pub fn push_literals(text: &mut String, lits: &[Lit]) -> Result<(), AllocError>
    ensures { OnOk result (Appends text.old text.new (literals_text lits.now)) }
{
    for lit in lits {
        write!(text, "{lit} ")?;
    }
    Ok(())
}
