//! Clauses that watch two of their literals, and the trail that they watch. A clause is looked at
//! only where one of its two has become false: then it is true, or watches another literal from
//! then on, or is unit, or false. Going back changes no watched literal: where the two were right at
//! the end of a level, they still are.
ghost use Rattle.std.specs.Prelude.{◌≡◌, ◌<◌, ◌≤◌, ◌+◌, ◌^◌, length, true, false, IfOk, IfSome, IfNone, OnOk};
ghost use Rattle.bd_cnf.specs.Literal.{Literal, has_literal};
ghost use Rattle.bd_cnf.specs.Packed.{literal_index};
ghost use Rattle.bd_cnf.specs.Standing.{IsBelow};
ghost use Rattle.bd_cnf.specs.Trail.{is_false};
ghost use Rattle.bd_watch.specs.declared.watch.Visited.TheVariants.{Moved};
ghost use Rattle.bd_watch.specs.Levels.{literals};
ghost use Rattle.bd_watch.specs.Watching.{clause_at, list_at, IsOneOf, IsWatcher};
ghost use Rattle.bd_watch.specs.Watch.{IsWatching, IsPropagated, Propagates};
ghost use Rattle.bd_watch.specs.inner.Watchers.{AreTwo};
ghost use Rattle.bd_watch.specs.inner.Visits.{IsReplacement, AreFalseBesides, IsLong, AreWatchedAt, MayWatch, IsLeft, IsAt, MayBlock, IsStale, IsNext, Visits, Renews, Unwatches, Sweeps};

use crate::trail::AssignmentTrail;
use crate::watcher::{WatchList, WatchedPair, Watcher};
use bd_cnf::{PackedClauses, PackedLit};
use std::alloc::AllocError;

/// Clauses, each of which watches two of its literals while it has two, and the trail that they
/// watch: what a trail makes unit or false is found by looking at those clauses alone that watch a
/// literal which has become false.
#[derive(Drop)]
pub struct Watch {
    pub(crate) clauses: PackedClauses,
    /// By the place of a clause, the literals that it watches, if it has two or more.
    pub(crate) pairs: Vec<WatchedPair>,
    /// By literal, the clauses that watch it.
    pub(crate) lists: Vec<WatchList>,
    pub(crate) trail: AssignmentTrail,
    /// How many literals of the trail were propagated.
    pub(crate) head: usize,
}

/// What came of a clause whose watched literal has become false.
enum Visited {
    /// The clause watches another literal in its place.
    Moved,
    /// The clause is true.
    Kept,
    /// The clause is true by the other literal that it watches.
    Blocked(PackedLit),
    /// The clause is false.
    Conflict,
}

/// A literal of the clause that isn't false, besides the other that it watches.
fn replacement(trail: &AssignmentTrail, clause: &[PackedLit], other: PackedLit) -> Option<PackedLit>
    requires { IsBelow trail.now.limit clause.now }
    ensures some { IfSome result
        (IsReplacement (literals trail.now.entries) clause.now other) }
    ensures none { IfNone result
        (AreFalseBesides (literals trail.now.entries) clause.now other) }
{
    for &packed in clause {
        if !packed.is(other) && !trail.has(packed.negated()) {
            return Some(packed);
        }
    }
    None
}

impl Watch {
    /// Lets a clause watch another literal, the first of the pair.
    fn replace(&mut self, clause: u32, pair: WatchedPair) -> Result<(), AllocError>
        requires watching { IsWatching self.old }
        requires long { IsLong self.old clause }
        requires pair { MayWatch self.old clause pair }
        ensures { OnOk result ((l : Literal) → (IsOneOf pair l → ⊥) →
            Visits self.old self.new l clause Moved) }
    {
        let watcher = pair.watcher(clause);
        self.lists[pair.first.index()].push(watcher)?;
        self.pairs[clause as usize] = pair;
        Ok(())
    }

    /// Takes the one literal that is left of a clause as implied, if it isn't false.
    fn conclude(&mut self, clause: u32, left: PackedLit) -> Visited
        requires watching { IsWatching self.old }
        requires long { IsLong self.old clause }
        requires left { IsLeft self.old clause left }
        ensures { (l : Literal) → Visits self.old self.new l clause result }
    {
        if self.trail.has(left.negated()) {
            return Visited::Conflict;
        }
        self.trail.imply(left, u64::from(clause) + 1);
        Visited::Kept
    }

    /// The pair that a clause watches once the literal has become false, if one of its literals
    /// besides the other isn't false.
    fn rewatched(&self, place: usize, lit: PackedLit, other: PackedLit) -> Option<WatchedPair>
        requires watching { IsWatching self.now }
        requires long { IsLong self.now place }
        requires two { AreWatchedAt self.now place lit other }
        requires falsified { is_false (literals self.now.trail.entries) lit ≡ true }
        ensures may { IfSome result (MayWatch self.now place) }
        ensures apart { IfSome result (λ p. IsOneOf p lit → ⊥) }
        ensures none { IfNone result (AreFalseBesides (literals self.now.trail.entries)
            (clause_at self.now.clauses place) other) }
    {
        if let Some(third) = self.pairs[place].third {
            if self.trail.has(third.negated()) {
                return None;
            }
            return Some(WatchedPair {
                first: third,
                second: other,
                third: Some(lit),
            });
        }
        let first = replacement(&self.trail, self.clauses.get(place), other)?;
        Some(WatchedPair {
            first,
            second: other,
            third: None,
        })
    }

    /// The one literal that is left of a clause of two or three, if the others are false.
    fn left(&self, watcher: &Watcher, lit: PackedLit) -> Option<PackedLit>
        requires watching { IsWatching self.now }
        requires watcher { IsWatcher self.now.clauses (literal_index lit) watcher.now }
        requires falsified { is_false (literals self.now.trail.entries) lit ≡ true }
        requires blocker { has_literal (literals self.now.trail.entries)
            watcher.now.blocker ≡ false }
        requires rest { has_literal (literals self.now.trail.entries) watcher.now.rest ≡ false }
        ensures { IfSome result (IsLeft self.now watcher.now.clause) }
    {
        if watcher.rest.is(watcher.blocker) {
            return None;
        }
        if self.trail.has(watcher.rest.negated()) {
            return Some(watcher.blocker);
        }
        if self.trail.has(watcher.blocker.negated()) {
            return Some(watcher.rest);
        }
        None
    }

    /// Looks at the clause of a watcher of a literal that has become false.
    fn visit(&mut self, watcher: Watcher, lit: PackedLit) -> Result<Visited, AllocError>
        requires watching { IsWatching self.old }
        requires watcher { IsWatcher self.old.clauses (literal_index lit) watcher }
        requires falsified { is_false (literals self.old.trail.entries) lit ≡ true }
        ensures { IfOk result (Visits self.old self.new lit watcher.clause) }
    {
        if self.trail.has(watcher.blocker) {
            return Ok(Visited::Kept);
        }
        if self.trail.has(watcher.rest) {
            return Ok(Visited::Kept);
        }
        if let Some(left) = self.left(&watcher, lit) {
            return Ok(self.conclude(watcher.clause, left));
        }
        let place = watcher.clause as usize;
        let Some(other) = self.pairs[place].other(lit) else {
            return Ok(Visited::Moved);
        };
        if self.trail.has(other) {
            return Ok(Visited::Blocked(other));
        }
        match self.rewatched(place, lit, other) {
            Some(pair) => {
                self.replace(watcher.clause, pair)?;
                Ok(Visited::Moved)
            }
            None => Ok(self.conclude(watcher.clause, other)),
        }
    }

    /// The watcher at that place of the literal's list.
    fn watcher(&self, lit: PackedLit, place: usize) -> Option<Watcher>
        requires watching { IsWatching self.now }
        requires below { lit.var < self.now.trail.limit }
        ensures some { IfSome result (IsAt (list_at self.now.lists.items lit) place) }
        ensures small { IfSome result (λ _. place + 1 < 2 ^ 64) }
        ensures none { IfNone result (length (list_at self.now.lists.items lit) ≤ place) }
    {
        self.lists[lit.index()].get(place)
    }

    /// Gives the watcher at that place of the literal's list another blocker.
    fn renew(&mut self, lit: PackedLit, place: usize, blocker: PackedLit)
        requires watching { IsWatching self.old }
        requires below { lit.var < self.old.trail.limit }
        requires may { MayBlock self.old lit place blocker }
        ensures { Renews self.old self.new lit place blocker }
    {
        self.lists[lit.index()].renew(place, blocker);
    }

    /// Takes out the watcher at that place of the literal's list, whose clause doesn't watch it.
    fn unwatch(&mut self, lit: PackedLit, place: usize)
        requires watching { IsWatching self.old }
        requires below { lit.var < self.old.trail.limit }
        requires within { place < length (list_at self.old.lists.items lit) }
        requires stale { IsStale self.old lit place }
        ensures { Unwatches self.old self.new lit place }
    {
        self.lists[lit.index()].swap_remove(place);
    }

    /// Looks at all clauses that watch a literal which has become false, until one is false.
    fn sweep(&mut self, lit: PackedLit) -> Result<Option<u64>, AllocError>
        requires watching { IsWatching self.old }
        requires below { lit.var < self.old.trail.limit }
        requires falsified { is_false (literals self.old.trail.entries) lit ≡ true }
        ensures { IfOk result (Sweeps self.old self.new lit) }
    {
        let mut place = 0;
        while let Some(watcher) = self.watcher(lit, place) {
            let id = u64::from(watcher.clause) + 1;
            let visited = self.visit(watcher, lit)?;
            match visited {
                Visited::Kept => place += 1,
                Visited::Blocked(blocker) => {
                    self.renew(lit, place, blocker);
                    place += 1;
                }
                Visited::Moved => self.unwatch(lit, place),
                Visited::Conflict => return Ok(Some(id)),
            }
        }
        Ok(None)
    }

    /// The negation of the next literal that is to be propagated.
    fn next(&self) -> Option<PackedLit>
        requires { IsWatching self.now }
        ensures some { IfSome result (IsNext self.now) }
        ensures none { IfNone result (IsPropagated self.now) }
    {
        let entry = self.trail.as_slice().get(self.head)?;
        Some(entry.literal().negated())
    }

    /// Propagates until a clause is false, and answers its id, or until no clause is false or unit.
    pub fn propagate(&mut self) -> Result<Option<u64>, AllocError>
        requires { IsWatching self.old }
        ensures { IfOk result (Propagates self.old self.new) }
    {
        while let Some(lit) = self.next() {
            if let Some(id) = self.sweep(lit)? {
                return Ok(Some(id));
            }
            self.head += 1;
        }
        Ok(None)
    }
}
