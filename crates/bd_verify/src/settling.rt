//! A solver's answer, checked. Nobody need believe the solver: a proof counts if each of its lines is accepted and it
//! ends as it should, and a model if it satisfies the formula.
ghost use Rattle.std.specs.Prelude.{◌≡◌, IfOk};
ghost use Rattle.bd_cdcl.specs.Asks.{Asks};
ghost use Rattle.bd_cnf.specs.Assignment.{value_of};
ghost use Rattle.bd_lrat.specs.Log.{additions, adds_literals};
ghost use Rattle.bd_verify.specs.Settled.{Settles, false_from, refuted, settled_of, spent};

use bd_cdcl::{Found, Solver};
use bd_cnf::{Assignment, Cnf};
use bd_lrat::{Line, Log, adds_empty, refused_line};
use std::alloc::{AllocError, Global};

/// What an answer comes to.
#[derive(Drop)]
pub enum Settled {
    /// The log is accepted, and adds the empty clause.
    Refuted(Log),
    /// The assignment satisfies the formula.
    Model(Assignment, Log),
    /// The log is accepted, and adds as many clauses of one literal or more as the budget allows.
    Spent(Log),
    /// The number of the first line, from 1, that isn't accepted on those before it.
    BadProof(u64),
    /// How many clauses of one literal or more the log adds, where it is accepted and doesn't end as it should.
    NoEnd(u64),
    /// The number of the first clause, from 1, that the assignment makes false.
    BadModel(u64),
}

/// Asks the solver, and checks what it says.
pub fn settle<S: Solver>(
    alloc: Global,
    solver: &mut S,
    cnf: &Cnf,
    budget: u32,
) -> Result<Settled, AllocError>
    ensures settles { IfOk result (λ settled.
        Settles (S.says solver.old solver.new cnf.now budget) cnf.now budget settled) }
    ensures counted { Asks (S.asked solver.old) (S.asked solver.new) 1 }
{
    let mut log = Log::new(alloc);
    let found = solver.solve(cnf, budget, &mut log)?;
    checked(alloc, cnf, budget, found, log)
}

/// What this answer and log come to.
fn checked(
    alloc: Global,
    cnf: &Cnf,
    budget: u32,
    found: Found,
    log: Log,
) -> Result<Settled, AllocError>
    ensures { IfOk result (λ settled. settled ≡ settled_of cnf.now budget found log) }
{
    match found {
        Found::Model(assignment) => match false_clause(cnf, &assignment) {
            Some(number) => Ok(Settled::BadModel(number)),
            None => Ok(Settled::Model(assignment, log)),
        },
        Found::Refuted => match refused_line(alloc, cnf, &log)? {
            Some(number) => Ok(Settled::BadProof(number)),
            None => Ok(refuted(log)),
        },
        Found::Spent => match refused_line(alloc, cnf, &log)? {
            Some(number) => Ok(Settled::BadProof(number)),
            None => Ok(spent(budget, log)),
        },
    }
}

/// An accepted log that is to add the empty clause.
fn refuted(log: Log) -> Settled
    ensures { result ≡ refuted log }
{
    let ends = adds_empty(&log);
    if ends {
        Settled::Refuted(log)
    } else {
        Settled::NoEnd(additions(&log))
    }
}

/// An accepted log that is to add so many clauses of one literal or more.
fn spent(budget: u32, log: Log) -> Settled
    ensures { result ≡ spent budget log }
{
    let added = additions(&log);
    if added == u64::from(budget) {
        Settled::Spent(log)
    } else {
        Settled::NoEnd(added)
    }
}

/// How many lines add a clause of one literal or more.
fn additions(log: &Log) -> u64
    ensures { result ≡ additions log.now }
{
    log.as_slice()
        .iter()
        .filter(|line| adds_literals(line))
        .count() as u64
}

/// Whether a line adds a clause of one literal or more.
fn adds_literals(line: &Line) -> bool
    ensures { result ≡ adds_literals line.now }
{
    match line {
        Line::Add { clause, .. } => !clause.lits().is_empty(),
        Line::Delete { .. } => false,
    }
}

/// The number of the first clause that the assignment makes false.
fn false_clause(cnf: &Cnf, assignment: &Assignment) -> Option<u64>
    ensures { result ≡ false_from 1 (value_of assignment.now) cnf.now.clauses }
{
    for (index, clause) in cnf.clauses().iter().enumerate() {
        if !clause.satisfied(assignment) {
            return Some(index as u64 + 1);
        }
    }
    None
}
