//! Which clauses are deleted, and why that is lawful: those that a literal of level 0 makes true,
//! unless they are its reason (satisfied clauses, as Eén and Sörensson delete them in MiniSat, 2003).
//! The reasons of level 0 stand, so propagation from nothing makes that literal true without them:
//! what stands covers them. They are never unit or false again, so they stay where they are watched,
//! and the log alone says that they are gone. They are looked for after a restart, where level 0 has
//! grown since the last time. No learned clause goes for its LBD: an honest log is fresh against
//! deleted clauses too.
ghost use Rattle.std.specs.Prelude.{◌≡◌, ◌≢◌, ◌<◌, ◌≤◌, ◌+◌, ◌^◌, ℕ, [], length, slice_index_or, IsSome, IfOk, OnOk, OnErr, false};
ghost use Rattle.std.specs.Bool.{OnTrue};
ghost use Rattle.std.specs.List.{All, AllPairs};
ghost use Rattle.std.specs.FinMap.{get};
ghost use Rattle.bd_cnf.specs.Standing.{IsBelow};
ghost use Rattle.bd_lrat.specs.Database.{numbered};
ghost use Rattle.bd_watch.specs.Trails.{IsDecisionAt};
ghost use Rattle.bd_watch.specs.Watch.{IsWatching, IsPropagated};
ghost use Rattle.bd_cdcl.specs.inner.Deletions.{IsSatisfied, MayDelete, AreMarked, AreUnmarked, IsUnmarked, KeepsMarks};

use bd_cnf::PackedLit;
use bd_lrat::{ClauseIds, Line, Log};
use bd_watch::Watch;
use std::alloc::{AllocError, Global};

/// What was deleted so far.
#[derive(Drop)]
pub(crate) struct Deletion {
    /// The ids of the clauses that were deleted.
    deleted: Vec<u64>,
    /// By id, as far as there were clauses at the last deletion, whether the clause was deleted.
    gone: Vec<bool>,
    /// How many literals level 0 had when the clauses were last looked at.
    fixed: usize,
    ghost marked: { AreMarked gone.items deleted.items },
}

/// How many literals of the trail are in front of all decisions.
fn level_zero(watch: &Watch) -> usize
    ensures { (place : ℕ) → IsDecisionAt watch.now.trail.entries place → result ≤ place }
{
    let trail = watch.trail();
    match trail.start_from(0) {
        Some(start) => start,
        None => trail.as_slice().len(),
    }
}

/// Whether a literal that stands before that place on the trail makes the clause true, and the
/// clause isn't the reason of that literal.
fn is_satisfied(watch: &Watch, clause: &[PackedLit], id: u64, zero: usize) -> bool
    requires watching { IsWatching watch.now }
    requires below { IsBelow watch.now.trail.limit clause.now }
    requires zero { (place : ℕ) → IsDecisionAt watch.now.trail.entries place → zero ≤ place }
    ensures { OnTrue result (IsSatisfied watch.now.trail.entries id clause.now) }
{
    let trail = watch.trail();
    for &packed in clause {
        if trail.has(packed) {
            let place = trail.place(packed);
            let entry = trail.as_slice()[place];
            if place < zero && entry.reason() != Some(id) {
                return true;
            }
        }
    }
    false
}

/// Marks those ids, which are `count` at most.
fn note(gone: &mut Vec<bool>, ids: &[u64], count: usize) -> Result<(), AllocError>
    requires low { All (λ id. id ≤ count) ids.now }
    requires small { count < 2 ^ 63 }
    ensures marked { OnOk result (AreMarked gone.new.items ids.now) }
    ensures kept { KeepsMarks gone.old.items gone.new.items }
{
    if gone.len() <= count {
        gone.resize(count + 1, false)?;
    }
    for &id in ids {
        gone[id as usize] = true;
    }
    Ok(())
}

impl Deletion {
    ghost use Rattle.bd_cdcl.specs.inner.Deleting.{Deletes};

    /// Nothing was deleted. Takes no memory.
    pub(crate) fn new(alloc: Global) -> Deletion
        ensures { result.deleted.items ≡ [] }
    {
        Deletion {
            deleted: Vec::new(alloc),
            gone: Vec::new(alloc),
            fixed: 0,
        }
    }

    /// Whether the clause of that id was deleted.
    fn is_gone(&self, id: u64) -> bool
        ensures { result ≡ slice_index_or self.now.gone.items id false }
    {
        match self.gone.get(id as usize) {
            Some(&gone) => gone,
            None => false,
        }
    }

    /// Whether the clause of that id may be deleted, and wasn't yet.
    fn may_delete(&self, watch: &Watch, id: u64, zero: usize) -> bool
        requires watching { IsWatching watch.now }
        requires stands { IsSome (get (numbered watch.now.clauses) id) }
        requires zero { (place : ℕ) → IsDecisionAt watch.now.trail.entries place → zero ≤ place }
        ensures may { OnTrue result (MayDelete watch.now.clauses watch.now.trail.entries id) }
        ensures unmarked { OnTrue result (IsUnmarked self.now.gone.items id) }
    {
        if self.is_gone(id) {
            return false;
        }
        is_satisfied(watch, watch.clause(id), id, zero)
    }

    /// The clauses that may be deleted and weren't yet, by rising id.
    fn found(&self, alloc: Global, watch: &Watch, zero: usize) -> Result<Vec<u64>, AllocError>
        requires watching { IsWatching watch.now }
        requires zero { (place : ℕ) → IsDecisionAt watch.now.trail.entries place → zero ≤ place }
        ensures may { IfOk result (λ ids.
            All (MayDelete watch.now.clauses watch.now.trail.entries) ids.items) }
        ensures unmarked { IfOk result (λ ids. AreUnmarked self.now.gone.items ids.items) }
        ensures differ { IfOk result (λ ids. AllPairs (λ one other. one ≢ other) ids.items) }
    {
        let mut ids = Vec::new(alloc);
        for place in 0..watch.len() {
            let id = place as u64 + 1;
            if self.may_delete(watch, id, zero) {
                ids.push(id)?;
            }
        }
        Ok(ids)
    }

    /// Deletes the clauses that level 0 makes true, where it has grown since the last time, by one
    /// line of the log, which has the id of the last clause.
    pub(crate) fn reduce(
        &mut self,
        alloc: Global,
        watch: &Watch,
        log: &mut Log,
    ) -> Result<(), AllocError>
        requires watching { IsWatching watch.now }
        requires propagated { IsPropagated watch.now }
        ensures ok { OnOk result (Deletes watch.now self.old self.new log.old log.new) }
        ensures err { OnErr result (log.new ≡ log.old) }
    {
        let zero = level_zero(watch);
        if zero <= self.fixed {
            return Ok(());
        }
        self.fixed = zero;
        let ids = self.found(alloc, watch, zero)?;
        if ids.is_empty() {
            return Ok(());
        }
        note(&mut self.gone, &ids, watch.len())?;
        self.deleted.extend_from_slice(&ids)?;
        let id = watch.len() as u64;
        let ids = ClauseIds::from_vec(ids);
        log.push(Line::Delete { id, ids })
    }
}
