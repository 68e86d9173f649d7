//! Clauses put into a watch: a formula's before anything is assigned, and learned ones.
ghost use Rattle.std.specs.Prelude.{◌≡◌, ◌≤◌, ◌<◌, ◌+◌, ◌^◌, [], length, replicate, None, IfSome, IfOk, OnOk};
ghost use Rattle.bd_cnf.specs.Clause.{IsRising};
ghost use Rattle.bd_cnf.specs.Standing.{IsBelow};
ghost use Rattle.bd_cnf.specs.Packed.{literal_index};
ghost use Rattle.bd_watch.specs.Watching.{IsPair, IsThird, IsRest, AreWatched, pair_of};
ghost use Rattle.bd_watch.specs.Watch.{IsLoaded, Starts};
ghost use Rattle.bd_watch.specs.inner.Loading.{Lists, Adds, IsStarting, StartsUnit};

use crate::trail::AssignmentTrail;
use crate::watch::Watch;
use crate::watcher::{WatchList, WatchedPair, Watcher};
use bd_cnf::{Cnf, Lit, PackedClauses, PackedLit};
use std::alloc::{AllocError, Global};

/// The first two literals, if there are two.
fn first_two(lits: &[Lit]) -> (PackedLit, PackedLit)
    requires rising { IsRising lits.now }
    requires packable { IsBelow (2 ^ 31) lits.now }
    ensures { 2 ≤ length lits.now → IsPair lits.now (pair_of result.0 result.1 None) }
{
    if lits.len() < 2 {
        let unused = PackedLit::of(Lit::new(1, true));
        return (unused, unused);
    }
    (PackedLit::of(lits[0]), PackedLit::of(lits[1]))
}

/// The only literal of a clause besides the two that it watches, if there is one.
fn third(lits: &[Lit], first: PackedLit, second: PackedLit) -> Option<PackedLit>
    requires { IsBelow (2 ^ 31) lits.now }
    ensures { IfSome result (IsThird lits.now first second) }
{
    let mut third = None;
    for &lit in lits {
        let packed = PackedLit::of(lit);
        if packed.is(first) || packed.is(second) {
            continue;
        }
        match third {
            Some(_) => return None,
            None => third = Some(packed),
        }
    }
    third
}

/// The watcher of one of the two literals that a clause watches; the other is its blocker.
fn watcher(lits: &[Lit], clause: u32, watched: PackedLit, blocker: PackedLit) -> Watcher
    requires below { IsBelow (2 ^ 31) lits.now }
    requires pair { IsPair lits.now (pair_of watched blocker None) }
    ensures clause { result.clause ≡ clause }
    ensures blocker { result.blocker ≡ blocker }
    ensures rest { IsRest lits.now (literal_index watched) result }
{
    if lits.len() == 2 {
        return Watcher {
            clause,
            blocker,
            rest: watched,
        };
    }
    let rest = third(lits, watched, blocker).unwrap_or(blocker);
    Watcher {
        clause,
        blocker,
        rest,
    }
}

/// So many empty lists of watchers.
fn empty_lists(alloc: Global, count: usize) -> Result<Vec<WatchList>, AllocError>
    ensures { IfOk result (λ lists. lists.items ≡ replicate count []) }
{
    let mut lists = Vec::new(alloc);
    for _ in 0..count {
        lists.push(WatchList::new(alloc))?;
    }
    Ok(lists)
}

impl Watch {
    /// No clause and no literal, with room for the variables up to `vars`.
    fn empty(alloc: Global, vars: u64) -> Result<Watch, AllocError>
        ensures { IfOk result (IsLoaded (vars + 1) []) }
    {
        let trail = AssignmentTrail::new(alloc, vars)?;
        let lists = empty_lists(alloc, 2 * (vars as usize + 1))?;
        Ok(Watch {
            clauses: PackedClauses::new(alloc),
            pairs: Vec::new(alloc),
            lists,
            trail,
            head: 0,
        })
    }

    /// Puts a watcher after the others of the literal.
    fn list(&mut self, packed: PackedLit, watcher: Watcher) -> Result<(), AllocError>
        requires { literal_index packed < length self.old.lists.items }
        ensures { OnOk result (Lists self.old self.new packed watcher) }
    {
        self.lists[packed.index()].push(watcher)
    }

    /// Puts a clause after the others, which watches those two literals if it has two or more.
    pub(crate) fn add(
        &mut self,
        lits: &[Lit],
        first: PackedLit,
        second: PackedLit,
    ) -> Result<(), AllocError>
        requires watched { AreWatched self.old.trail.limit self.old.clauses
            self.old.pairs.items self.old.lists.items }
        requires rising { IsRising lits.now }
        requires below { IsBelow self.old.trail.limit lits.now }
        requires pair { 2 ≤ length lits.now → IsPair lits.now (pair_of first second None) }
        ensures { OnOk result (Adds self.old self.new lits.now first second) }
    {
        let place = self.clauses.len();
        if place >= 1 << 32 {
            return Err(AllocError);
        }
        let clause = place as u32;
        self.clauses.push(lits)?;
        let third = third(lits, first, second);
        self.pairs.push(WatchedPair {
            first,
            second,
            third,
        })?;
        if lits.len() < 2 {
            return Ok(());
        }
        self.list(first, watcher(lits, clause, first, second))?;
        self.list(second, watcher(lits, clause, second, first))
    }

    /// Puts the clauses of a formula in.
    fn fill(&mut self, cnf: &Cnf) -> Result<(), AllocError>
        requires { IsLoaded (cnf.now.vars + 1) [] self.old }
        ensures { OnOk result (IsLoaded (cnf.now.vars + 1) cnf.now.clauses self.new) }
    {
        for clause in cnf.clauses() {
            let lits = clause.lits();
            let (first, second) = first_two(lits);
            self.add(lits, first, second)?;
        }
        Ok(())
    }

    /// The clauses of a formula, with the ids from 1, and no literal yet. More than 2^31 - 1
    /// variables or 2^32 clauses end as out of memory.
    pub fn load(alloc: Global, cnf: &Cnf) -> Result<Watch, AllocError>
        ensures { IfOk result (IsLoaded (cnf.now.vars + 1) cnf.now.clauses) }
    {
        let mut watch = Watch::empty(alloc, cnf.vars())?;
        watch.fill(cnf)?;
        Ok(watch)
    }

    /// Takes the literal of a clause as implied, if it is the only one. Answers whether the clause
    /// is false.
    fn assign_unit(&mut self, place: usize) -> bool
        requires starting { IsStarting self.old place }
        requires within { place < length self.old.clauses }
        ensures { StartsUnit self.old self.new place result }
    {
        let clause = self.clauses.get(place);
        if clause.len() >= 2 {
            return false;
        }
        let Some(&packed) = clause.first() else {
            return true;
        };
        if self.trail.has(packed.negated()) {
            return true;
        }
        if !self.trail.has(packed) {
            self.trail.imply(packed, place as u64 + 1);
        }
        false
    }

    /// Takes the literals of all clauses of one literal as implied, before anything is propagated.
    /// Answers the id of a clause that is false then, if there is one.
    pub fn assign_units(&mut self) -> Option<u64>
        requires { IsLoaded self.old.trail.limit self.old.clauses self.old }
        ensures { Starts self.old self.new result }
    {
        for place in 0..self.clauses.len() {
            if self.assign_unit(place) {
                return Some(place as u64 + 1);
            }
        }
        None
    }
}
