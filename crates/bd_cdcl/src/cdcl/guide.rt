//! What guides a search, and what no proof rests on: the queue of variables and their saved phases,
//! the moments of restarts, and the advice which literals of a learned clause the others imply.
use super::minimize::Reach;
use super::phase::SavedPhases;
use super::restart::Restarts;
use super::vmtf::VariableQueue;
use bd_watch::{Assigned, AssignmentTrail};
use std::alloc::{AllocError, Global};

/// The heuristics of a search.
#[derive(Drop)]
pub(crate) struct Guide {
    pub(crate) queue: VariableQueue,
    phases: SavedPhases,
    pub(crate) reach: Reach,
    restarts: Restarts,
}

impl Guide {
    /// The guide of a search over the variables up to `vars`.
    pub(crate) fn new(alloc: Global, vars: u64) -> Result<Guide, AllocError> {
        Ok(Guide {
            queue: VariableQueue::new(alloc, vars)?,
            phases: SavedPhases::new(alloc, vars)?,
            reach: Reach::new(alloc, vars)?,
            restarts: Restarts::new(),
        })
    }

    /// A variable that may have no value, and a sign for it.
    pub(crate) fn propose(&mut self, trail: &AssignmentTrail) -> Option<(u64, bool)> {
        let var = self.queue.propose(trail)?;
        Some((var, self.phases.of(var)))
    }

    /// Takes note of literals that are taken off the trail.
    pub(crate) fn release(&mut self, entries: &[Assigned]) {
        self.queue.release(entries);
        self.phases.save(entries);
    }

    /// Counts a learned clause of that glue. Answers whether a restart is due. With each turn of focused
    /// mode the variables stand in their first order again.
    pub(crate) fn count(&mut self, glue: u64) -> bool {
        let due = self.restarts.count(glue);
        if self.restarts.begins_turn() {
            self.queue.start_over();
        }
        due
    }
}
