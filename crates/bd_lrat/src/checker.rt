//! The check of a log. What stands is the formula's clauses and those that accepted lines added. An
//! addition is accepted where its hints lead from the negations of its literals to a conflict. No
//! assignment then makes all that stands true and the clause false, so whatever satisfies the formula
//! satisfies the clause too, and once the empty clause is added nothing satisfies the formula. That
//! takes no trust in whoever wrote the log: wrong hints are refused, and missing ones aren't looked for.
ghost use Rattle.std.specs.Prelude.{◌≡◌, ◌↔◌, IfOk, IfErr, OnOk, OnErr, IsOk};
ghost use Rattle.bd_cnf.specs.Clause.{IsRising};
ghost use Rattle.bd_lrat.specs.Database.{database_of, addition_answer, line_answer, variable_past, after, IsAccepted, IsAddError, IsDeletion, KeepsModels};

use crate::hints::Hints;
use crate::line::Line;
use crate::propagation::propagate;
use crate::refused::{AddError, Refused};
use crate::store::ClauseStore;
use crate::trail::PropagationTrail;
use bd_cnf::{Cnf, Lit};
use std::alloc::{AllocError, Global};
use std::marker::Model;

/// As many variables as literals can be packed.
const VARIABLES: u64 = 1 << 31;

/// The clauses of a formula and of the lines that were added, by their ids, each of which follows
/// from the formula.
#[derive(Drop)]
pub struct Checker {
    vars: u64,
    clauses: ClauseStore,
    /// No literal between two calls.
    trail: PropagationTrail,
}

impl Model for Checker {
    ghost use Rattle.bd_lrat.specs.Database.{Database, coded_database, database};
    ghost use Rattle.bd_lrat.specs.inner.Ready.{IsReady};

    ghost Value = { Database };

    ghost coded = { coded_database };

    ghost view = { λ a. database a.vars a.clauses.last a.clauses.clauses };

    ghost invariant = { λ a. IsReady a.vars a.clauses.clauses a.trail };
}

impl Checker {
    /// Holds the formula's clauses, with the ids from 1. A formula of 2,147,483,648 variables or more
    /// ends as out of memory.
    pub fn new(alloc: Global, cnf: &Cnf) -> Result<Checker, AllocError>
        ensures { IfOk result (λ checker. checker ≡ database_of cnf.now) }
    {
        let vars = cnf.vars();
        if vars >= VARIABLES {
            return Err(AllocError);
        }
        let trail = PropagationTrail::new(alloc, vars)?;
        let mut clauses = ClauseStore::new(alloc);
        let mut last = 0;
        for clause in cnf.clauses() {
            last += 1;
            clauses.insert(last, clause.lits())?;
        }
        Ok(Checker {
            vars,
            clauses,
            trail,
        })
    }

    /// Tests a line on what stands, which it leaves. Takes no memory, and as many steps as the
    /// line's clause and the clauses that its hints name have literals.
    pub fn check_line(&mut self, line: &Line) -> Result<(), Refused>
        ensures accepted { IsOk result ↔ IsAccepted self.old line.now }
        ensures answer { result ≡ line_answer self.old line.now }
        ensures unchanged { self.new ≡ self.old }
        ensures sound { OnOk result (KeepsModels self.old (after self.old line.now)) }
    {
        match line {
            Line::Add { id, clause, hints } => { self.check_addition(*id, clause.lits(), hints) }
            Line::Delete { .. } => Ok(()),
        }
    }

    /// Tests an addition on what stands: its id rises, its variables are the formula's, and its hints bear it out.
    fn check_addition(&mut self, id: u64, clause: &[Lit], hints: &Hints) -> Result<(), Refused>
        requires { IsRising clause.now }
        ensures answer { result ≡ addition_answer self.old id clause.now hints.now }
        ensures unchanged { self.new ≡ self.old }
    {
        if id <= self.clauses.last() {
            return Err(Refused::NotRising);
        }
        if let Some(var) = variable_past(clause, self.vars) {
            return Err(Refused::NoVariable(var));
        }
        self.trail.assign_negations(clause);
        let answer = propagate(&self.clauses, &mut self.trail, hints);
        self.trail.clear();
        answer
    }

    /// Tests a line, and then adds its clause or takes out the clauses of its ids. An error leaves
    /// what stands.
    pub fn add_line(&mut self, line: &Line) -> Result<(), AddError>
        ensures ok { OnOk result (self.new ≡ after self.old line.now) }
        ensures accepted { OnOk result (IsAccepted self.old line.now) }
        ensures refused { IfErr result (IsAddError self.old line.now) }
        ensures err { OnErr result (self.new ≡ self.old) }
        ensures sound { OnOk result (KeepsModels self.old self.new) }
        ensures deletion { IsDeletion line.now → IsOk result }
    {
        self.check_line(line)?;
        match line {
            Line::Add { id, clause, .. } => {
                self.clauses.insert(*id, clause.lits())?;
            }
            Line::Delete { ids, .. } => self.clauses.remove_all(ids.as_slice()),
        }
        Ok(())
    }
}

/// The first variable of a clause that is above `vars`.
fn variable_past(clause: &[Lit], vars: u64) -> Option<u64>
    ensures { result ≡ variable_past vars clause.now }
{
    for lit in clause {
        let var = lit.var();
        if var > vars {
            return Some(var);
        }
    }
    None
}
