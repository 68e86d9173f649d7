//! The search of a conflict-driven solver: decide, propagate, learn, backjump (Marques-Silva and
//! Sakallah, GRASP, 1996; Moskewicz and others, Chaff, 2001; Eén and Sörensson, MiniSat, 2003). A
//! conflict above level 0 teaches a clause that is false but for one literal at the end of the level
//! before, where no clause was false or unit: so nothing known said it before, and it is fresh.
//!
//! Between two steps a search is a `CompleteSearch`, whose type says that its trail is complete and
//! what was deleted is covered. So a step that backjumps too low, and leaves a lower level where some
//! clause is still to be propagated, or that deletes what is needed, is refused where it makes one.
ghost use Rattle.std.specs.Prelude.{◌≡◌, ◌<◌, ◌≤◌, ◌+◌, ◌^◌, ◌⊎◌, [], IfOk, IfSome, IfNone, OnOk, OnErr, true};
ghost use Rattle.std.specs.Bool.{OnTrue, OnFalse};
ghost use Rattle.bd_lrat.specs.Database.{numbered, database_of};
ghost use Rattle.bd_lrat.specs.Log.{IsAcceptedLog};
ghost use Rattle.bd_watch.specs.Levels.{IsComplete};
ghost use Rattle.bd_watch.specs.Trails.{IsLastStart, AllAssigned};
ghost use Rattle.bd_watch.specs.Watching.{IsConflict};
ghost use Rattle.bd_watch.specs.Watch.{IsWatching, IsPropagated};
ghost use Rattle.bd_cdcl.specs.Law.{IsLaw};
ghost use Rattle.bd_cdcl.specs.inner.Analyses.{IsClear};
ghost use Rattle.bd_cdcl.specs.inner.Deleting.{Deletes};
ghost use Rattle.bd_cdcl.specs.inner.Deletions.{AreCovered};
ghost use Rattle.bd_cdcl.specs.inner.Descents.{standing_in, IsBegun, IsDescending, GoesOn, Refutes, IsChoice, Advances, Follows, Steps};

use super::analyze::Analysis;
use super::guide::Guide;
use super::learn::{Lesson, learned_from};
use super::reduce::Deletion;
use crate::conflict::hints;
use crate::solver::Found;
use bd_cnf::{Clause, Cnf, Lit};
use bd_lrat::{Line, Log};
use bd_watch::Watch;
use std::alloc::{AllocError, Global};

/// Clauses and their trail, an analysis to use again, and what guides the search.
#[derive(Drop)]
pub(crate) struct Search {
    watch: Watch,
    analysis: Analysis,
    guide: Guide,
    deletion: Deletion,
    learned: u32,
    /// Whether a restart is due.
    restarts: bool,
}

/// A search between two steps. At the end of each level below the last no clause that stands is false
/// or unit, and what stands covers each clause that was deleted.
#[derive(Drop)]
pub(crate) struct CompleteSearch {
    search: Search,
    ghost complete: { ∥ IsComplete (standing_in search) search.watch.trail.entries ∥₁ },
    ghost covered: { ∥ AreCovered search.watch.clauses (standing_in search) ∥₁ },
}

impl Search {
    /// The clauses of a formula, before anything is assigned.
    pub(crate) fn new(alloc: Global, cnf: &Cnf) -> Result<Search, AllocError>
        ensures { IfOk result (IsBegun cnf.now) }
    {
        let analysis = Analysis::new(alloc, cnf.vars())?;
        let guide = Guide::new(alloc, cnf.vars())?;
        let watch = Watch::load(alloc, cnf)?;
        Ok(Search {
            watch,
            analysis,
            guide,
            deletion: Deletion::new(alloc),
            learned: 0,
            restarts: false,
        })
    }

    /// Ends a search with a conflict at level 0.
    fn refute(&self, alloc: Global, conflict: u64, log: &mut Log) -> Result<(), AllocError>
        ensures ok { OnOk result (Refutes self.now conflict log.old log.new) }
        ensures err { OnErr result (log.new ≡ log.old) }
    {
        let hints = hints(alloc, self.watch.trail(), conflict)?;
        let id = self.watch.len() as u64 + 1;
        let clause = Clause::from_rising(Vec::new(alloc));
        log.push(Line::Add { id, clause, hints })
    }

    /// Learns from a conflict above level 0, whose level begins at that place.
    fn learn(
        &mut self,
        alloc: Global,
        start: usize,
        conflict: u64,
        log: &mut Log,
    ) -> Result<(), AllocError>
        requires watching { IsWatching self.old.watch }
        requires clear { IsClear self.old.watch.trail.limit self.old.analysis }
        requires start { IsLastStart self.old.watch.trail.entries start }
        requires conflict { IsConflict (numbered self.old.watch.clauses)
            self.old.watch.trail.entries conflict }
        requires room { self.old.learned + 1 < 2 ^ 32 }
        ensures ok { OnOk result (GoesOn self.old self.new log.old log.new) }
        ensures err { OnErr result (log.new ≡ log.old) }
    {
        let lesson = learned_from(
            alloc,
            &self.watch,
            &mut self.analysis,
            &mut self.guide,
            start,
            conflict,
        )?;
        self.guide.queue.requeue();
        self.guide
            .release(&self.watch.trail().as_slice()[lesson.backjump..]);
        self.watch.go_back_to(lesson.backjump);
        let id = self.watch.len() as u64 + 1;
        let Lesson {
            clause,
            hints,
            first,
            second,
            lbd,
            ..
        } = lesson;
        self.watch.learn(clause.lits(), first, second)?;
        log.push(Line::Add { id, clause, hints })?;
        self.learned += 1;
        let due = self.guide.count(lbd);
        self.restarts = self.restarts || due;
        Ok(())
    }

    /// A variable without a value, and a sign for it.
    fn choice(&mut self) -> Option<Lit>
        ensures watch { self.new.watch ≡ self.old.watch }
        ensures analysis { self.new.analysis ≡ self.old.analysis }
        ensures deletion { self.new.deletion ≡ self.old.deletion }
        ensures learned { self.new.learned ≡ self.old.learned }
        ensures restarts { self.new.restarts ≡ self.old.restarts }
        ensures some { IfSome result (IsChoice self.old.watch) }
        ensures none { IfNone result (AllAssigned self.old.watch.trail) }
    {
        let trail = self.watch.trail();
        if let Some((var, positive)) = self.guide.propose(trail) {
            if var > 0 && var < trail.limit() && trail.is_free(var) {
                return Some(Lit::new(var, positive));
            }
        }
        let var = trail.free_variable()?;
        Some(Lit::new(var, false))
    }

    /// Goes back to level 0, but for decisions that would be made again.
    fn restart(&mut self)
        requires watching { IsWatching self.old.watch }
        requires propagated { IsPropagated self.old.watch }
        requires due { self.old.restarts ≡ true }
        ensures propagated { IsPropagated self.new.watch }
        ensures learned { self.new.learned ≡ self.old.learned }
        ensures analysis { self.new.analysis ≡ self.old.analysis }
        ensures deletion { self.new.deletion ≡ self.old.deletion }
        ensures advanced { Advances self.old self.new }
    {
        self.restarts = false;
        let place = self.guide.queue.restart_place(self.watch.trail());
        if let Some(start) = self.watch.trail().start_from(place) {
            self.guide.release(&self.watch.trail().as_slice()[start..]);
            self.watch.go_back_to(start);
        }
    }

    /// Decides a literal. Answers whether it could.
    fn decide(&mut self) -> bool
        requires watching { IsWatching self.old.watch }
        requires propagated { IsPropagated self.old.watch }
        ensures learned { self.new.learned ≡ self.old.learned }
        ensures analysis { self.new.analysis ≡ self.old.analysis }
        ensures deletion { self.new.deletion ≡ self.old.deletion }
        ensures advanced { OnTrue result (Advances self.old self.new) }
        ensures ended { OnFalse result (AllAssigned self.old.watch.trail) }
        ensures unchanged { OnFalse result (self.new.watch ≡ self.old.watch) }
    {
        match self.choice() {
            Some(lit) => {
                self.watch.decide(lit);
                true
            }
            None => false,
        }
    }

    /// Goes on where all is propagated: by a restart, after which clauses are deleted, or by a decision.
    /// Answers whether it could. A deletion has the id of the last addition, so none comes before the
    /// first.
    fn advance(&mut self, alloc: Global, log: &mut Log) -> Result<bool, AllocError>
        requires watching { IsWatching self.old.watch }
        requires propagated { IsPropagated self.old.watch }
        ensures learned { self.new.learned ≡ self.old.learned }
        ensures analysis { self.new.analysis ≡ self.old.analysis }
        ensures advanced { IfOk result (λ more. OnTrue more (Advances self.old self.new)) }
        ensures deletes { OnOk result
            (Deletes self.new.watch self.old.deletion self.new.deletion log.old log.new) }
        ensures after { OnOk result (0 < self.old.learned ⊎ (log.new ≡ log.old)) }
        ensures ended { IfOk result (λ more. OnFalse more (AllAssigned self.old.watch.trail)) }
        ensures unchanged { IfOk result (λ more. OnFalse more (self.new.watch ≡ self.old.watch)) }
        ensures err { OnErr result (log.new ≡ log.old) }
    {
        if !self.restarts {
            return Ok(self.decide());
        }
        self.restart();
        if self.learned > 0 {
            self.deletion.reduce(alloc, &self.watch, log)?;
        }
        Ok(true)
    }

    /// Follows a conflict: learns from it, or ends the search.
    fn follow(
        &mut self,
        alloc: Global,
        conflict: u64,
        budget: u32,
        log: &mut Log,
    ) -> Result<Option<Found>, AllocError>
        requires watching { IsWatching self.old.watch }
        requires clear { IsClear self.old.watch.trail.limit self.old.analysis }
        requires conflict { IsConflict (numbered self.old.watch.clauses)
            self.old.watch.trail.entries conflict }
        requires budget { self.old.learned ≤ budget }
        ensures ok { IfOk result (Follows self.old self.new log.old log.new budget conflict) }
        ensures ended { IfOk result (λ found. IfSome found (λ _. self.new ≡ self.old)) }
        ensures err { OnErr result (log.new ≡ log.old) }
    {
        let Some(start) = self.watch.trail().last_start() else {
            self.refute(alloc, conflict, log)?;
            return Ok(Some(Found::Refuted));
        };
        if self.learned == budget {
            return Ok(Some(Found::Spent));
        }
        self.learn(alloc, start, conflict, log)?;
        Ok(None)
    }

    /// Makes a step: propagates, and follows the conflict that this comes to, or goes on where there
    /// is none. Answers what it found, where the search is at its end.
    fn step(
        &mut self,
        alloc: Global,
        problem: &Cnf,
        budget: u32,
        log: &mut Log,
    ) -> Result<Option<Found>, AllocError>
        requires descending { IsDescending problem.now self.old log.old }
        requires budget { self.old.learned ≤ budget }
        ensures ok { IfOk result (Steps problem.now self.old self.new log.new budget) }
        ensures err { OnErr result (IsAcceptedLog (database_of problem.now) log.new) }
    {
        match self.watch.propagate()? {
            Some(conflict) => self.follow(alloc, conflict, budget, log),
            None => {
                if self.advance(alloc, log)? {
                    return Ok(None);
                }
                let model = self.watch.trail().assignment(alloc)?;
                Ok(Some(Found::Model(model)))
            }
        }
    }
}

impl CompleteSearch {
    /// The clauses of a formula, before anything is assigned.
    pub(crate) fn new(alloc: Global, cnf: &Cnf) -> Result<CompleteSearch, AllocError>
        ensures { IfOk result (λ kept. IsBegun cnf.now kept.search) }
    {
        let search = Search::new(alloc, cnf)?;
        Ok(CompleteSearch { search })
    }

    /// The search, to make its next step.
    fn into_search(self) -> Search
        ensures { result ≡ self.search }
    {
        self.search
    }

    /// Searches to an end. Answers what it found, and the search as it ended.
    pub(crate) fn finish(
        self,
        alloc: Global,
        problem: &Cnf,
        budget: u32,
        log: &mut Log,
    ) -> Result<(Found, CompleteSearch), AllocError>
        requires begun { IsBegun problem.now self.search }
        requires empty { log.old ≡ [] }
        ensures law { IfOk result (λ ended. IsLaw problem.now budget ended.0 log.new) }
        ensures err { OnErr result (IsAcceptedLog (database_of problem.now) log.new) }
    {
        let mut search = self.search;
        if let Some(conflict) = search.watch.assign_units() {
            search.refute(alloc, conflict, log)?;
            return Ok((Found::Refuted, CompleteSearch { search }));
        }
        loop {
            if let Some(found) = search.step(alloc, problem, budget, log)? {
                return Ok((found, CompleteSearch { search }));
            }
            search = CompleteSearch { search }.into_search();
        }
    }
}
