//! Which part of an item's expression decides its value.

use bd_model::Scalar;
use bd_slice::{Fact, Finding, Reason, Subject};
use std::alloc::{AllocError, Global};

/// The way down to the part that decides: into each branch that is taken, each part that decides alone, and each memory
/// that a write at another address leaves as it is.
pub fn decided_path(alloc: Global, reason: &Reason) -> Result<Vec<u64>, AllocError> {
    let mut path = Vec::new(alloc);
    for fact in &reason.facts {
        if fact.path.as_slice() == path.as_slice() {
            if let Some(part) = decided_part(&fact.finding) {
                path.push(part)?;
            }
        }
    }
    Ok(path)
}

/// The way down from a part to the one that its value comes from: as to the part that decides, and into a write that is
/// met.
pub fn value_path(alloc: Global, reason: &Reason, start: &[u64]) -> Result<Vec<u64>, AllocError> {
    let mut path = Vec::from_slice(alloc, start)?;
    for fact in &reason.facts {
        if fact.path.as_slice() == path.as_slice() {
            let part = match fact.finding {
                Finding::Met(_) => Some(2),
                _ => decided_part(&fact.finding),
            };
            if let Some(part) = part {
                path.push(part)?;
            }
        }
    }
    Ok(path)
}

/// The part that a finding points to.
fn decided_part(finding: &Finding) -> Option<u64> {
    match finding {
        Finding::Chosen(true) => Some(1),
        Finding::Chosen(false) => Some(2),
        Finding::Decided(part) => Some(u64::from(*part)),
        Finding::Passed(_, _) => Some(0),
        _ => None,
    }
}

/// The value that is taken over as it is, where the part that decides is a name.
pub fn taken_over(alloc: Global, reason: &Reason) -> Result<Option<Subject>, AllocError> {
    let path = decided_path(alloc, reason)?;
    for fact in &reason.facts {
        if let Some(subject) = rests_at(fact, path.as_slice()) {
            return Ok(Some(subject));
        }
    }
    Ok(None)
}

/// The value by a name at the end of a way down, if this fact is that the value there rests on it.
fn rests_at(fact: &Fact, path: &[u64]) -> Option<Subject> {
    match fact.finding {
        Finding::Rests(subject, _) if fact.path.as_slice() == path => Some(subject),
        _ => None,
    }
}

/// Whether a value stays what it was before: a latch its own value, a word of a memory that at its address.
pub fn is_held(subject: Subject, from: Subject) -> bool {
    match (subject, from) {
        (Subject::Latch(_, entry), Subject::Latch(_, other)) => entry == other,
        (
            Subject::Cell(_, _, _) | Subject::LetCell(_, _, _),
            Subject::Cell(_, _, _) | Subject::LetCell(_, _, _),
        ) => true,
        _ => false,
    }
}

/// The values that a reason rests on by name.
pub fn rests_of(alloc: Global, reason: &Reason) -> Result<Vec<(Subject, Scalar)>, AllocError> {
    let mut rests = Vec::new(alloc);
    for fact in &reason.facts {
        if let Finding::Rests(subject, value) = fact.finding {
            rests.push((subject, value))?;
        }
    }
    Ok(rests)
}
