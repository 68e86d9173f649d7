//! Conflict analysis to the first unique implication point (1UIP: Zhang, Madigan, Moskewicz and
//! Malik, 2001, after Marques-Silva and Sakallah, GRASP, 1996). From the end of the trail to its
//! front, each literal by which the false clause came to be false is resolved with its reason, or its
//! negation is kept. In the last level all are resolved but the first through which all paths to the
//! conflict go. Below it the negations are kept, but for literals of level 0, and for those that
//! others which are kept imply. What is kept is a clause that follows, by the reasons of what was
//! resolved.
ghost use Rattle.std.specs.Prelude.{◌≡◌, ◌<◌, ◌≤◌, ◌+◌, ◌++◌, ◌∷◌, [], List, length, map, reverse, IsSomeAnd, OnOk, IfOk};
ghost use Rattle.std.specs.Bool.{OnTrue, OnFalse};
ghost use Rattle.std.specs.FinMap.{get};
ghost use Rattle.bd_cnf.specs.Literal.{Literal};
ghost use Rattle.bd_lrat.specs.declared.line.Hint.TheVariants.{Unit};
ghost use Rattle.bd_lrat.specs.Database.{numbered};
ghost use Rattle.bd_watch.specs.Trails.{IsLastStart};
ghost use Rattle.bd_watch.specs.Watching.{IsConflict};
ghost use Rattle.bd_watch.specs.Watch.{IsWatching};
ghost use Rattle.bd_cdcl.specs.inner.Analysis.{AreAssigned, Marks, IsMarkedIn, AreUnmarked};
ghost use Rattle.bd_cdcl.specs.inner.Analyses.{IsClear, Analyzes, Keeps, Resolves, Analyzed};

use super::guide::Guide;
use bd_cnf::PackedLit;
use bd_lrat::Hints;
use bd_watch::Watch;
use std::alloc::{AllocError, Global};
use std::mem::replace;

/// A conflict as far as it was taken apart.
#[derive(Drop)]
pub(crate) struct Analysis {
    /// By place in the trail, whether the literal is still to be looked at.
    marks: Vec<bool>,
    /// The literals of the learned clause, that of the last level first.
    pub(crate) kept: Vec<PackedLit>,
    /// The ids of the reasons of what was resolved, that of the last literal of the trail first.
    pub(crate) ids: Vec<u64>,
}

/// Marks the places of a clause's literals.
fn mark(marks: &mut Vec<bool>, watch: &Watch, clause: &[PackedLit])
    requires watching { IsWatching watch.now }
    requires assigned { AreAssigned watch.now.trail.entries clause.now }
    requires room { watch.now.trail.limit ≤ length marks.old.items }
    ensures { Marks watch.now.trail.entries clause.now marks.old.items marks.new.items }
{
    let trail = watch.trail();
    for &packed in clause {
        let place = trail.place(packed);
        marks[place] = true;
    }
}

/// Whether some place is marked from the start up to the end.
fn any_marked(marks: &[bool], start: usize, end: usize) -> bool
    requires { end ≤ length marks.now }
    ensures some { OnTrue result (IsMarkedIn marks.now start end) }
    ensures none { OnFalse result (AreUnmarked marks.now start end) }
{
    let mut place = end;
    while place > start {
        place -= 1;
        if marks[place] {
            return true;
        }
    }
    false
}

impl Analysis {
    /// The analysis in which nothing is marked, with room for trails of the variables up to `vars`.
    pub(crate) fn new(alloc: Global, vars: u64) -> Result<Analysis, AllocError>
        ensures { IfOk result (IsClear (vars + 1)) }
    {
        let limit = vars.checked_add(1).ok_or(AllocError)? as usize;
        Ok(Analysis {
            marks: vec![in alloc; false; limit]?,
            kept: Vec::new(alloc),
            ids: Vec::new(alloc),
        })
    }

    /// Takes the mark off a place, and keeps its literal for the learned clause.
    fn keep(&mut self, place: usize, packed: PackedLit) -> Result<(), AllocError>
        requires { place < length self.old.marks.items }
        ensures { OnOk result (Keeps self.old self.new place packed) }
    {
        self.marks[place] = false;
        self.kept.push(packed)?;
        Ok(())
    }

    /// Resolves the literal at a place with its reason, the clause of that id: marks what this rests on, and notes the
    /// id.
    fn resolve(&mut self, watch: &Watch, place: usize, id: u64) -> Result<(), AllocError>
        requires watching { IsWatching watch.now }
        requires assigned { IsSomeAnd (get (numbered watch.now.clauses) id)
            (AreAssigned watch.now.trail.entries) }
        requires room { watch.now.trail.limit ≤ length self.old.marks.items }
        requires within { place < length watch.now.trail.entries }
        ensures { OnOk result (Resolves watch.now self.old self.new place id) }
    {
        mark(&mut self.marks, watch, watch.clause(id));
        self.marks[place] = false;
        self.ids.push(id)?;
        Ok(())
    }

    /// Whether a marked literal that has a reason is resolved, and not kept.
    fn is_resolved(
        &self,
        watch: &Watch,
        guide: &mut Guide,
        start: usize,
        zero: usize,
        place: usize,
    ) -> Result<bool, AllocError>
        requires watching { IsWatching watch.now }
        requires within { place ≤ length self.now.marks.items }
        ensures more { IfOk result (λ resolved. OnTrue resolved
            (start ≤ place → IsMarkedIn self.now.marks.items start place)) }
        ensures lone { IfOk result (λ resolved. OnFalse resolved
            (start ≤ place → AreUnmarked self.now.marks.items start place)) }
    {
        let marks = self.marks.as_slice();
        if place < start {
            return guide.reach.is_implied(marks, watch, place, zero);
        }
        Ok(any_marked(marks, start, place))
    }

    /// Looks at a place of the trail, after which nothing is marked.
    fn step(
        &mut self,
        watch: &Watch,
        guide: &mut Guide,
        start: usize,
        zero: usize,
        place: usize,
    ) -> Result<(), AllocError>
        requires watching { IsWatching watch.now }
        requires start { IsLastStart watch.now.trail.entries start }
        requires within { place < length watch.now.trail.entries }
        requires room { watch.now.trail.limit ≤ length self.old.marks.items }
        ensures { OnOk result ((conflict : List Literal) →
            Analyzes watch.now start conflict (place + 1) self.old →
            Analyzes watch.now start conflict place self.new) }
    {
        if !self.marks[place] {
            return Ok(());
        }
        let entry = watch.trail().as_slice()[place];
        let negated = entry.literal().negated();
        guide.queue.see(negated)?;
        let Some(id) = entry.reason() else {
            return self.keep(place, negated);
        };
        let resolves = self.is_resolved(watch, guide, start, zero, place)?;
        if !resolves {
            return self.keep(place, negated);
        }
        self.resolve(watch, place, id)
    }

    /// Gives the hints of what was resolved, and then of the conflict.
    pub(crate) fn hints(&mut self, alloc: Global, conflict: u64) -> Result<Hints, AllocError>
        ensures marks { self.new.marks ≡ self.old.marks }
        ensures kept { self.new.kept ≡ self.old.kept }
        ensures hints { IfOk result (λ hints. hints ≡
            map Unit (reverse self.old.ids.items ++ conflict ∷ [])) }
    {
        self.ids.reverse();
        self.ids.push(conflict)?;
        let ids = replace(&mut self.ids, Vec::new(alloc));
        Ok(Hints::from_ids(alloc, ids))
    }

    /// Takes a conflict above level 0 apart, whose level begins at that place.
    pub(crate) fn analyze(
        &mut self,
        watch: &Watch,
        guide: &mut Guide,
        start: usize,
        conflict: u64,
    ) -> Result<(), AllocError>
        requires watching { IsWatching watch.now }
        requires start { IsLastStart watch.now.trail.entries start }
        requires conflict { IsConflict (numbered watch.now.clauses)
            watch.now.trail.entries conflict }
        requires clear { IsClear watch.now.trail.limit self.old }
        ensures { OnOk result (Analyzed watch.now start conflict self.new) }
    {
        guide.reach.begin();
        self.kept.clear();
        self.ids.clear();
        mark(&mut self.marks, watch, watch.clause(conflict));
        let zero = watch.trail().start_from(0).unwrap_or(start);
        let mut place = watch.trail().as_slice().len();
        while place > 0 {
            place -= 1;
            self.step(watch, guide, start, zero, place)?;
        }
        Ok(())
    }
}
