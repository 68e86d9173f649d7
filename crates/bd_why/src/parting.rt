//! Where both sides of the diagram part.

use crate::trial::Goal;
use bd_diagram::{Comparison, Diagram, Difference};
use bd_model::{Design, Memory, Value};
use bd_slice::{Column, Subject};

/// A value of the pipeline, flushed after the cycle, and the same of the specification, after so many steps.
#[derive(Clone, Copy)]
pub struct Parting {
    pub pipe: Subject,
    pub spec: Subject,
}

impl Parting {
    /// What should be true of a run in which both sides part so: they agree, above all in this entry.
    pub fn goal(self) -> Goal {
        let (column, entry) = match self.spec {
            Subject::Latch(column, entry) | Subject::Cell(column, entry, _) => (column, entry),
            _ => (Column::Steps(0), 0),
        };
        Goal::Agreement {
            entry,
            steps: column.number(),
        }
    }
}

/// How many entries differ after a number of steps, and how many are the same before the first of these.
fn differing(comparison: &Comparison) -> (usize, usize) {
    let mut count = 0usize;
    let mut same = 0usize;
    for difference in comparison.differences.as_slice() {
        if !matches!(difference, Difference::Nothing) {
            count = count.saturating_add(1);
        } else if count == 0 {
            same = same.saturating_add(1);
        }
    }
    (count, same)
}

/// The number of steps after which fewest entries differ, among those that are allowed if any is. Of two it is the one
/// with more entries the same before the first that differs, or the greater.
pub fn nearest(diagram: &Diagram) -> u32 {
    nearest_but(diagram, None).0
}

/// The number of steps that comes nearest beside this one, and how many entries differ then.
fn nearest_but(diagram: &Diagram, but: Option<u32>) -> (u32, usize) {
    let comparisons = diagram.comparisons.as_slice();
    let some_allowed = comparisons.iter().any(|comparison| comparison.allowed);
    let mut steps = 0u32;
    let mut nearest = 0u32;
    let mut best = (usize::MAX, 0usize);
    for comparison in comparisons {
        let (count, same) = differing(comparison);
        let is_nearer = count < best.0 || (count == best.0 && same >= best.1);
        if is_nearer && (comparison.allowed || !some_allowed) && but != Some(steps) {
            best = (count, same);
            nearest = steps;
        }
        steps = steps.saturating_add(1);
    }
    (nearest, best.0)
}

/// What differs first after another number of steps that comes near: in as few entries as after the one that comes
/// nearest, or in any case.
pub fn second_parting(design: &Design, diagram: &Diagram, any: bool) -> Option<Parting> {
    let (first, least) = nearest_but(diagram, None);
    let (second, count) = nearest_but(diagram, Some(first));
    if count == usize::MAX || (count > least && !any) {
        return None;
    }
    parting_after(design, diagram, second)
}

/// Both sides of an entry of the specification, or of its word at an address.
pub fn both_sides(
    design: &Design,
    steps: u32,
    entry: u32,
    address: Option<u64>,
) -> Option<Parting> {
    let place = *design.visible.as_slice().get(entry as usize)?;
    let after = Column::After(design.flush);
    let steps = Column::Steps(steps);
    Some(match address {
        None => Parting {
            pipe: Subject::Latch(after, place),
            spec: Subject::Latch(steps, entry),
        },
        Some(address) => Parting {
            pipe: Subject::Cell(after, place, address),
            spec: Subject::Cell(steps, entry, address),
        },
    })
}

/// The first value that differs after the number of steps that comes nearest.
pub fn parting_of(design: &Design, diagram: &Diagram) -> Option<Parting> {
    parting_after(design, diagram, nearest(diagram))
}

/// The first value that differs after a number of steps.
fn parting_after(design: &Design, diagram: &Diagram, steps: u32) -> Option<Parting> {
    let comparison = diagram.comparisons.as_slice().get(steps as usize)?;
    let mut entry = 0u32;
    for difference in comparison.differences.as_slice() {
        match difference {
            Difference::Nothing => {}
            Difference::Latch => return both_sides(design, steps, entry, None),
            Difference::Memory(memory) => {
                let first = memory.addresses.as_slice().first().copied();
                let address = match first {
                    Some(address) => address,
                    None => elsewhere(diagram, comparison, entry),
                };
                return both_sides(design, steps, entry, Some(address));
            }
        }
        entry = entry.saturating_add(1);
    }
    None
}

/// An address that no row of an entry has, on either side.
fn elsewhere(diagram: &Diagram, comparison: &Comparison, entry: u32) -> u64 {
    let first = diagram.visible.as_slice().get(entry as usize);
    let second = comparison.visible.as_slice().get(entry as usize);
    for address in 0..u64::MAX {
        if !has_row(first, address) && !has_row(second, address) {
            return address;
        }
    }
    u64::MAX
}

/// Whether a value is a memory with a row at this address.
fn has_row(value: Option<&Value>, address: u64) -> bool {
    match value {
        Some(Value::Memory(memory)) => has_slot(memory, address),
        _ => false,
    }
}

/// Whether a memory has a row at this address.
fn has_slot(memory: &Memory, address: u64) -> bool {
    let mut slots = memory.rows.as_slice().iter();
    slots.any(|slot| slot.address == address)
}
