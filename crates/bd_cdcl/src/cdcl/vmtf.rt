//! Variable move to front (VMTF: Ryan, 2004; Biere and Fröhlich, 2015): of the variables without a
//! value the one is decided next that was seen in a conflict last. They stand in a queue, and those
//! that a conflict goes through move to its end. The queue only proposes: whether what it says is a
//! variable, and has no value, is tested by whoever asks.
use bd_cnf::PackedLit;
use bd_watch::{Assigned, AssignmentTrail};
use std::alloc::{AllocError, Global};

/// The neighbours of a variable in the queue; 0 is none.
#[derive(Clone, Copy)]
struct Neighbours {
    /// The one in front of it.
    before: usize,
    /// The one after it.
    after: usize,
}

/// A variable that was seen in the conflict at hand.
#[derive(Clone, Copy)]
struct Seen {
    var: usize,
    moved: u64,
}

/// All variables, in a queue by when they were seen last.
#[derive(Drop)]
pub(crate) struct VariableQueue {
    links: Vec<Neighbours>,
    /// By variable, when it was put at the end of the queue: apart from the links, since a backjump
    /// reads nothing else.
    moved: Vec<u64>,
    /// The variable at the end of the queue.
    last: usize,
    /// The variables after this one have values.
    next: usize,
    /// How often a variable was put at the end.
    moves: u64,
    /// The variables that were seen in the conflict at hand.
    seen: Vec<Seen>,
}

impl VariableQueue {
    /// All variables up to `vars`, the greatest at the end.
    pub(crate) fn new(alloc: Global, vars: u64) -> Result<VariableQueue, AllocError> {
        let count = vars.checked_add(1).ok_or(AllocError)? as usize;
        let alone = Neighbours {
            before: 0,
            after: 0,
        };
        let mut order = VariableQueue {
            links: vec![in alloc; alone; count]?,
            moved: vec![in alloc; 0; count]?,
            last: 0,
            next: 0,
            moves: 0,
            seen: Vec::new(alloc),
        };
        order.start_over();
        Ok(order)
    }

    /// Puts all variables into their first order.
    pub(crate) fn start_over(&mut self) {
        self.last = 0;
        for var in 1..self.links.len() {
            self.append(var);
        }
        self.next = self.last;
    }

    /// The neighbours of a variable in the queue; none past the last variable.
    fn neighbours(&self, var: usize) -> Option<Neighbours> {
        self.links.get(var).copied()
    }

    /// When a variable was put at the end.
    fn moved(&self, var: usize) -> u64 {
        self.moved.get(var).copied().unwrap_or(0)
    }

    /// Puts a variable that isn't in the queue at its end.
    fn append(&mut self, var: usize) {
        let last = self.last;
        if let Some(link) = self.links.get_mut(last) {
            link.after = var;
        }
        self.moves = self.moves.wrapping_add(1);
        if let Some(link) = self.links.get_mut(var) {
            link.before = last;
            link.after = 0;
        }
        if let Some(moved) = self.moved.get_mut(var) {
            *moved = self.moves;
        }
        self.last = var;
    }

    /// Takes a variable that isn't the last out of the queue.
    fn unlink(&mut self, link: Neighbours) {
        let Neighbours { before, after } = link;
        if let Some(neighbour) = self.links.get_mut(before) {
            neighbour.after = after;
        }
        if let Some(neighbour) = self.links.get_mut(after) {
            neighbour.before = before;
        }
    }

    /// Moves a variable with a value to the end of the queue.
    fn move_to_end(&mut self, var: usize) {
        if var == self.last {
            return;
        }
        let Some(link) = self.neighbours(var) else {
            return;
        };
        if self.next == var {
            self.next = if link.before > 0 {
                link.before
            } else {
                link.after
            };
        }
        self.unlink(link);
        self.append(var);
    }

    /// Takes note that a variable was seen in a conflict.
    pub(crate) fn see(&mut self, packed: PackedLit) -> Result<(), AllocError> {
        let var = packed.variable();
        if var < self.moved.len() {
            let moved = self.moved(var);
            self.seen.push(Seen { var, moved })?;
        }
        Ok(())
    }

    /// Moves the variables that were seen to the end of the queue, in the order in which they stand.
    pub(crate) fn requeue(&mut self) {
        self.seen.sort_unstable_by_key(|seen| seen.moved);
        for index in 0..self.seen.len() {
            if let Some(&Seen { var, .. }) = self.seen.get(index) {
                self.move_to_end(var);
            }
        }
        self.seen.clear();
    }

    /// Takes note of literals that are taken off the trail, whose variables have no value again.
    pub(crate) fn release(&mut self, entries: &[Assigned]) {
        let mut latest = self.moved(self.next);
        for entry in entries {
            let var = entry.literal().variable();
            let moved = self.moved(var);
            if moved > latest {
                self.next = var;
                latest = moved;
            }
        }
    }

    /// Up to where a restart takes the trail back: the decisions before that place would be made again
    /// at once (van der Tak, Ramos and Heule, 2011).
    pub(crate) fn restart_place(&mut self, trail: &AssignmentTrail) -> usize {
        let next = match self.propose(trail) {
            Some(var) => self.moved(var as usize),
            None => 0,
        };
        let entries = trail.as_slice();
        let mut place = 0;
        for _ in 0..entries.len() {
            let Some(start) = trail.start_from(place) else {
                break;
            };
            let var = entries
                .get(start)
                .map_or(0, |entry| entry.literal().variable());
            if self.moved(var) <= next {
                return start;
            }
            place = start.saturating_add(1);
        }
        entries.len()
    }

    /// A variable that may have no value.
    pub(crate) fn propose(&mut self, trail: &AssignmentTrail) -> Option<u64> {
        for _ in 0..self.links.len() {
            let link = self.neighbours(self.next)?;
            let var = self.next as u64;
            if var > 0 && var < trail.limit() && trail.is_free(var) {
                return Some(var);
            }
            if link.before == 0 {
                return None;
            }
            self.next = link.before;
        }
        None
    }
}
