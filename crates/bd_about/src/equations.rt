//! How many equations each function and predicate has, and in how many clauses one stands: one pass over the edges, and
//! one over Tseitin's clauses (Bryant, German and Velev 2001; Tseitin 1968). The clauses of the edges' triangles aren't
//! counted.
ghost use Rattle.std.specs.Prelude.{◌≡◌, ◌<◌, ℕ, All, count_by, length, slice_index_or, IfOk};
ghost use Rattle.bd_terms.specs.declared.node.Sym.TheVariants.{Function};
ghost use Rattle.bd_about.specs.Equations.{clauses_of, equations_of};
ghost use Rattle.bd_about.specs.inner.Owned.{is_held_for, is_noted, is_owned};
ghost use Rattle.bd_about.specs.inner.Tallied.{IsUpTo, named, no_tally};

use crate::owners::{Atoms, Owners};
use crate::tallying::{Tally, note_both};
use bd_cnf::{Clause, Lit};
use bd_prop::Atom;
use bd_transitive::Edge;
use bd_tseitin::Formula;
use std::alloc::{AllocError, Global};

/// How many of the edges are equations of each of so many functions and predicates.
pub(crate) fn equation_counts(
    alloc: Global,
    functions: usize,
    owners: &Owners,
    edges: &[Edge],
) -> Result<Vec<Tally>, AllocError>
    ensures size { IfOk result (λ tallies. length tallies.items ≡ functions) }
    ensures counts { IfOk result (λ tallies. (f : ℕ) → f < functions →
        (slice_index_or tallies.items f no_tally).count
        ≡ equations_of (is_owned owners.now) edges.now (Function f)) }
{
    let mut tallies = vec![in alloc; Tally { count: 0, last: 0 }; functions]?;
    for (place, edge) in edges.iter().enumerate() {
        note_both(&mut tallies, owners, edge.from, edge.to, place + 1);
    }
    Ok(tallies)
}

/// Counts a clause for the functions and predicates of the equation for which a literal's variable stands, if it does.
fn note_literal(
    tallies: &mut Vec<Tally>,
    owners: &Owners,
    atoms: &Atoms,
    literal: Lit,
    clause: usize,
)
    requires { All (IsUpTo clause) tallies.old.items }
    ensures size { length tallies.new.items ≡ length tallies.old.items }
    ensures up_to { All (IsUpTo clause) tallies.new.items }
    ensures tallies { (f : ℕ) → f < length tallies.old.items →
        slice_index_or tallies.new.items f no_tally
        ≡ named (is_held_for owners.now atoms.now (Function f) literal.var) clause
        (slice_index_or tallies.old.items f no_tally) }
{
    if let Some(Atom::Edge(from, to)) = atoms.get(literal.var()) {
        note_both(tallies, owners, from, to, clause);
    }
}

/// Counts a clause for the functions and predicates whose equations stand in it.
fn note_clause(
    tallies: &mut Vec<Tally>,
    owners: &Owners,
    atoms: &Atoms,
    literals: &[Lit],
    clause: usize,
)
    requires { All (IsUpTo clause) tallies.old.items }
    ensures size { length tallies.new.items ≡ length tallies.old.items }
    ensures up_to { All (IsUpTo clause) tallies.new.items }
    ensures tallies { (f : ℕ) → f < length tallies.old.items →
        slice_index_or tallies.new.items f no_tally
        ≡ named (is_noted owners.now atoms.now (Function f) literals.now) clause
        (slice_index_or tallies.old.items f no_tally) }
{
    for literal in literals {
        note_literal(tallies, owners, atoms, *literal, clause);
    }
}

/// In how many of some clauses an equation of each of so many functions and predicates stands, where the atoms of
/// variables are found.
fn clause_tallies(
    alloc: Global,
    functions: usize,
    owners: &Owners,
    atoms: &Atoms,
    clauses: &[Clause],
) -> Result<Vec<Tally>, AllocError>
    ensures size { IfOk result (λ tallies. length tallies.items ≡ functions) }
    ensures counts { IfOk result (λ tallies. (f : ℕ) → f < functions →
        (slice_index_or tallies.items f no_tally).count
        ≡ count_by (is_noted owners.now atoms.now (Function f)) clauses.now) }
{
    let mut tallies = vec![in alloc; Tally { count: 0, last: 0 }; functions]?;
    for (place, clause) in clauses.iter().enumerate() {
        note_clause(&mut tallies, owners, atoms, clause.lits(), place + 1);
    }
    Ok(tallies)
}

/// In how many of the clauses an equation of each of so many functions and predicates stands.
pub(crate) fn clause_counts(
    alloc: Global,
    functions: usize,
    owners: &Owners,
    formula: &Formula,
) -> Result<Vec<Tally>, AllocError>
    ensures size { IfOk result (λ tallies. length tallies.items ≡ functions) }
    ensures counts { IfOk result (λ tallies. (f : ℕ) → f < functions →
        (slice_index_or tallies.items f no_tally).count
        ≡ clauses_of (is_owned owners.now) formula.now.atoms formula.now.cnf.clauses
        (Function f)) }
{
    let atoms = Atoms::of(alloc, formula)?;
    clause_tallies(alloc, functions, owners, &atoms, formula.cnf.clauses())
}
