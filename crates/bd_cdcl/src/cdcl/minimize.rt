//! Clause minimization: which literals of a learned clause the others imply, so that it may do
//! without them. Those are the ones from which each way back through reasons ends at a marked literal
//! or at one of level 0 (Sörensson and Biere, 2009). It only advises: a clause follows whether such a
//! literal is kept or resolved.
ghost use Rattle.std.specs.Prelude.{◌<◌, length};
ghost use Rattle.bd_watch.specs.Watch.{IsWatching};
ghost use Rattle.bd_cdcl.specs.inner.Analysis.{AreAssigned};

use bd_cnf::PackedLit;
use bd_watch::Watch;
use std::alloc::{AllocError, Global};

/// A search back through reasons.
#[derive(Drop)]
pub(crate) struct Reach {
    /// By place in the trail, the last search that came there.
    seen: Vec<u64>,
    /// The search at hand. The next one goes on with it where it ended well, so that what it came
    /// to is left out.
    search: u64,
    /// The places that are still to be looked at.
    open: Vec<usize>,
}

impl Reach {
    /// The search that came nowhere yet, with room for trails of the variables up to `vars`.
    pub(crate) fn new(alloc: Global, vars: u64) -> Result<Reach, AllocError> {
        let limit = vars.checked_add(1).ok_or(AllocError)? as usize;
        Ok(Reach {
            seen: vec![in alloc; 0; limit]?,
            search: 0,
            open: Vec::new(alloc),
        })
    }

    /// Forgets what was seen.
    pub(crate) fn begin(&mut self) {
        self.search = self.search.wrapping_add(1);
    }

    /// Whether the search comes to a place for the first time.
    fn comes_to(&mut self, place: usize) -> bool {
        let search = self.search;
        let Some(seen) = self.seen.get_mut(place) else {
            return false;
        };
        let first = *seen != search;
        *seen = search;
        first
    }

    /// Goes on to a place, unless it is marked or of level 0, or the search came there before.
    fn visit(&mut self, marks: &[bool], place: usize, zero: usize) -> Result<(), AllocError> {
        let ends = place < zero || marks.get(place) == Some(&true);
        if !ends && self.comes_to(place) {
            self.open.push(place)?;
        }
        Ok(())
    }

    /// Goes on to the literals of a reason.
    fn spread(
        &mut self,
        marks: &[bool],
        watch: &Watch,
        reason: &[PackedLit],
        zero: usize,
    ) -> Result<(), AllocError>
        requires { AreAssigned watch.now.trail.entries reason.now }
    {
        let trail = watch.trail();
        for &packed in reason {
            self.visit(marks, trail.place(packed), zero)?;
        }
        Ok(())
    }

    /// Goes on to what the literal at that place rests on. Answers whether it could: a decision rests
    /// on nothing.
    fn follow(
        &mut self,
        marks: &[bool],
        watch: &Watch,
        place: usize,
        zero: usize,
    ) -> Result<bool, AllocError>
        requires watching { IsWatching watch.now }
        requires within { place < length watch.now.trail.entries }
    {
        let entry = watch.trail().as_slice()[place];
        let Some(id) = entry.reason() else {
            return Ok(false);
        };
        self.spread(marks, watch, watch.clause(id), zero)?;
        Ok(true)
    }

    /// Whether the literals that are marked imply the one at that place.
    pub(crate) fn is_implied(
        &mut self,
        marks: &[bool],
        watch: &Watch,
        place: usize,
        zero: usize,
    ) -> Result<bool, AllocError>
        requires { IsWatching watch.now }
    {
        self.open.clear();
        self.open.push(place)?;
        self.comes_to(place);
        for _ in 0..watch.trail().as_slice().len() {
            let Some(at) = self.open.pop() else {
                return Ok(true);
            };
            if at < watch.trail().as_slice().len() && !self.follow(marks, watch, at, zero)? {
                self.begin();
                return Ok(false);
            }
        }
        Ok(self.open.is_empty())
    }
}
