//! A search for an assignment by decisions (Davis, Logemann and Loveland, 1962), which learns from
//! its conflicts. One above level 0 teaches the decision clause: the negations of all decisions, one of
//! which must be wrong. It follows by the reasons on the trail, it is false but for the last
//! decision's negation at the end of the level before, and there it implies that negation.
//! Propagation was complete there, so nothing known said so before: the clause is fresh.
ghost use Rattle.std.specs.Prelude.{◌≡◌, ◌≤◌, length, map, IfOk, OnErr};
ghost use Rattle.std.specs.Bool.{OnTrue, OnFalse};
ghost use Rattle.std.specs.List.{All};
ghost use Rattle.bd_cnf.specs.Literal.{negate};
ghost use Rattle.bd_cnf.specs.Clause.{IsRising, SameLiterals};
ghost use Rattle.bd_cnf.specs.Problem.{AreWithin};
ghost use Rattle.bd_lrat.specs.Log.{HaveDifferentVariables, IsAcceptedLog};
ghost use Rattle.bd_lrat.specs.Database.{database_of, numbered};
ghost use Rattle.bd_watch.specs.Levels.{IsComplete};
ghost use Rattle.bd_watch.specs.Trails.{Decides, AllAssigned};
ghost use Rattle.bd_cdcl.specs.Law.{IsLaw};
ghost use Rattle.bd_cdcl.specs.inner.Search.{IsSearching, Resolves};

use super::propagation::propagate;
use crate::conflict::hints;
use crate::solver::Found;
use bd_cnf::{Clause, Cnf, Lit};
use bd_lrat::{Line, Log};
use bd_watch::AssignmentTrail;
use std::alloc::{AllocError, Global};

/// The clauses so far, with the ids from 1 and the formula's first, how many were learned, and the
/// trail.
#[derive(Drop)]
pub(crate) struct PlainSearch {
    pub(crate) clauses: Vec<Clause>,
    pub(crate) learned: u32,
    pub(crate) trail: AssignmentTrail,
}

/// The clauses of a formula.
pub(crate) fn copied(alloc: Global, cnf: &Cnf) -> Result<Vec<Clause>, AllocError>
    ensures same { IfOk result (λ copy. copy.items ≡ cnf.now.clauses) }
    ensures rising { IfOk result (λ copy. All IsRising copy.items) }
    ensures within { AreWithin cnf.now.vars cnf.now.clauses }
{
    let mut copy = Vec::new(alloc);
    for clause in cnf.clauses() {
        copy.push(copy_of(alloc, clause)?)?;
    }
    Ok(copy)
}

/// A copy of a clause, which is in order already.
fn copy_of(alloc: Global, clause: &Clause) -> Result<Clause, AllocError>
    ensures same { IfOk result (λ copy. copy ≡ clause.now) }
    ensures rising { IfOk result IsRising }
{
    let lits = Vec::from_slice(alloc, clause.lits())?;
    Ok(Clause::from_rising(lits))
}

/// The negations of literals, in order.
fn negations(alloc: Global, lits: &[Lit]) -> Result<Vec<Lit>, AllocError>
    ensures { IfOk result (λ found. found.items ≡ map negate lits.now) }
{
    lits.iter().map(|lit| lit.negated()).collect(alloc)
}

/// The clause of the decisions' negations.
fn decision_clause(alloc: Global, decisions: &[Lit]) -> Result<Clause, AllocError>
    requires { HaveDifferentVariables decisions.now }
    ensures same { IfOk result (λ clause. SameLiterals clause (map negate decisions.now)) }
    ensures rising { IfOk result IsRising }
{
    match Clause::from_vec(negations(alloc, decisions)?) {
        Some(clause) => Ok(clause),
        None => unreachable!(),
    }
}

impl PlainSearch {
    /// Decides the least variable without a value to be false, if there is one.
    pub(crate) fn decide(&mut self) -> bool
        ensures clauses { self.new.clauses ≡ self.old.clauses }
        ensures learned { self.new.learned ≡ self.old.learned }
        ensures decided { OnTrue result (Decides self.old.trail self.new.trail) }
        ensures room { OnTrue result (length self.new.trail.entries ≤ self.new.trail.limit) }
        ensures all { OnFalse result (AllAssigned self.old.trail) }
        ensures unchanged { OnFalse result (self.new.trail ≡ self.old.trail) }
    {
        match self.trail.free_variable() {
            Some(var) => {
                self.trail.decide(Lit::new(var, false));
                true
            }
            None => false,
        }
    }

    /// Learns from a conflict, or ends the search.
    pub(crate) fn learn(
        &mut self,
        alloc: Global,
        conflict: u64,
        budget: u32,
        log: &mut Log,
    ) -> Result<Option<Found>, AllocError>
        requires complete { IsComplete (numbered self.old.clauses.items) self.old.trail.entries }
        requires within { self.old.learned ≤ budget }
        ensures resolved { IfOk result
            (Resolves self.old self.new log.old log.new conflict budget) }
        ensures refused { OnErr result (log.new ≡ log.old) }
    {
        let hints = hints(alloc, &self.trail, conflict)?;
        let decisions = self.trail.decisions(alloc)?;
        let id = self.clauses.len() as u64 + 1;
        let Some(last) = self.trail.go_back() else {
            let clause = Clause::from_rising(decisions);
            log.push(Line::Add { id, clause, hints })?;
            return Ok(Some(Found::Refuted));
        };
        if self.learned == budget {
            return Ok(Some(Found::Spent));
        }
        let clause = decision_clause(alloc, &decisions)?;
        self.clauses.push(copy_of(alloc, &clause)?)?;
        log.push(Line::Add { id, clause, hints })?;
        self.learned += 1;
        let asserted = self.trail.pack(last.negated());
        self.trail.imply(asserted, id);
        Ok(None)
    }

    /// Searches to an end. Answers what it found.
    pub(crate) fn finish(
        &mut self,
        alloc: Global,
        problem: &Cnf,
        budget: u32,
        log: &mut Log,
    ) -> Result<Found, AllocError>
        requires searching { IsSearching problem.now self.old.clauses.items self.old.trail
            self.old.learned log.old }
        requires within { self.old.learned ≤ budget }
        ensures law { IfOk result (λ found. IsLaw problem.now budget found log.new) }
        ensures err { OnErr result (IsAcceptedLog (database_of problem.now) log.new) }
    {
        loop {
            match propagate(&self.clauses, &mut self.trail) {
                Some(conflict) => {
                    if let Some(found) = self.learn(alloc, conflict, budget, log)? {
                        return Ok(found);
                    }
                }
                None => {
                    if !self.decide() {
                        return Ok(Found::Model(self.trail.assignment(alloc)?));
                    }
                }
            }
        }
    }
}
