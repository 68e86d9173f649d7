//! A formula with what its edges have to meet: the triangles of an order, and edges that are false.
ghost use Rattle.std.specs.Prelude.{◌≡◌, ◌<◌, ◌++◌, All, Contains, IfOk, OnOk, map};
ghost use Rattle.bd_transitive.specs.Orders.{IsOrder};
ghost use Rattle.bd_transitive.specs.declared.graph.Edge.{Edge as AnyEdge};
ghost use Rattle.bd_verify.specs.Kept.{AddsEdges, denial};
ghost use Rattle.bd_verify.specs.inner.Numbers.{most_variables};

use crate::numbers::Numbers;
use bd_cnf::{Clause, Clauses, Cnf, Lit};
use bd_transitive::{Edge, Order, triangles};
use bd_tseitin::Formula;
use std::alloc::{AllocError, Global};

/// The formula, then the triangles' clauses, then a clause for each edge that is kept apart, which makes it false. An
/// edge without a row gets a variable of its own.
pub(crate) fn with_edges(
    alloc: Global,
    formula: Formula,
    order: &Order,
    apart: &[Edge],
) -> Result<Formula, AllocError>
    requires few { formula.cnf.vars < most_variables }
    requires order { IsOrder order.now }
    requires apart { (edge : AnyEdge) → Contains apart.now edge → Contains order.now.edges edge }
    ensures { IfOk result (λ new. AddsEdges order.now apart.now
        formula.cnf formula.atoms new.cnf new.atoms) }
{
    let Formula { cnf, atoms } = formula;
    let mut numbers = Numbers::of(alloc, cnf.vars(), atoms)?;
    let variables = numbers.variables(alloc, order.edges.as_slice())?;
    let triangles = triangles(alloc, order, &variables)?;
    let denied = numbers.variables(alloc, apart)?;
    let mut clauses = joined(cnf.into_clauses(), triangles)?;
    push_denials(alloc, &mut clauses, &denied)?;
    Ok(Formula {
        cnf: Cnf::new(numbers.vars, clauses),
        atoms: numbers.atoms,
    })
}

/// The clauses of two lists, one after the other.
fn joined(first: Clauses, second: Clauses) -> Result<Clauses, AllocError>
    ensures { IfOk result (λ all. all ≡ first ++ second) }
{
    let mut all = first.into_vec();
    let mut more = second.into_vec();
    all.append(&mut more)?;
    Ok(Clauses::from_vec(all))
}

/// Puts a clause after the others for each variable, which makes it false.
fn push_denials(alloc: Global, clauses: &mut Clauses, variables: &[u64]) -> Result<(), AllocError>
    requires { All (λ x. 0 < x) variables.now }
    ensures { OnOk result (clauses.new ≡ clauses.old ++ map denial variables.now) }
{
    for variable in variables {
        let lits = vec![in alloc; Lit::new(*variable, false)]?;
        clauses.push(Clause::from_rising(lits))?;
    }
    Ok(())
}
