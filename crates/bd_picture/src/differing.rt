//! The values of the specification in which both sides of the diagram differ.

use crate::picture::ShownCase;
use bd_diagram::{Comparison, Diagram, Difference, MemoryDifference};
use bd_model::{Design, Memory, Sort, Value};
use bd_slice::{Column, Location, Subject};
use std::alloc::{AllocError, Global};
use std::collections::BTreeSet;

/// Entries of the specification, each with an address, or with 0 where it is a latch.
pub type Spots = BTreeSet<(u32, u64)>;

/// The values that differ after some number of steps, and those after each.
#[derive(Drop)]
pub struct Differing {
    pub all: Spots,
    after: Vec<Spots>,
}

/// Whether a number of steps counts: the cycle may stand for so many, or for no number at all.
pub fn counts(diagram: &Diagram, comparison: &Comparison) -> bool {
    comparison.allowed
        || !diagram
            .comparisons
            .as_slice()
            .iter()
            .any(|other| other.allowed)
}

/// The value of an entry of this sort at an address.
pub fn spot_of(sort: Sort, entry: u32, address: u64) -> Location {
    match sort {
        Sort::Memory => Location::Cell(entry, address),
        Sort::Bool | Sort::Word => Location::Latch(entry),
    }
}

/// Puts the addresses of a memory's rows into a set.
pub fn note_rows(addresses: &mut BTreeSet<u64>, value: &Value) -> Result<(), AllocError> {
    if let Value::Memory(Memory { rows, .. }) = value {
        for slot in rows.as_slice() {
            addresses.insert(slot.address)?;
        }
    }
    Ok(())
}

/// The least address that isn't one of these.
pub fn free_address(addresses: &BTreeSet<u64>) -> u64 {
    for address in 0..u64::MAX {
        if !addresses.contains(&address) {
            return address;
        }
    }
    u64::MAX
}

/// The addresses of an entry of the specification that a row has, in any state that is compared.
pub fn compared_addresses(
    alloc: Global,
    view: &ShownCase<'_>,
    entry: u32,
) -> Result<BTreeSet<u64>, AllocError> {
    let mut addresses = BTreeSet::new(alloc);
    if let Some(value) = view.diagram.visible.as_slice().get(entry as usize) {
        note_rows(&mut addresses, value)?;
    }
    for comparison in view.diagram.comparisons.as_slice() {
        if let Some(value) = comparison.visible.as_slice().get(entry as usize) {
            note_rows(&mut addresses, value)?;
        }
    }
    Ok(addresses)
}

/// Puts the addresses at which a memory differs into a set. The least address that no row has stands for all of these.
fn note_memory(
    alloc: Global,
    spots: &mut Spots,
    view: &ShownCase<'_>,
    entry: u32,
    memory: &MemoryDifference,
) -> Result<(), AllocError> {
    for address in memory.addresses.as_slice() {
        spots.insert((entry, *address))?;
    }
    if memory.elsewhere {
        let addresses = compared_addresses(alloc, view, entry)?;
        spots.insert((entry, free_address(&addresses)))?;
    }
    Ok(())
}

/// The values that differ after a number of steps.
fn differing_after(
    alloc: Global,
    view: &ShownCase<'_>,
    comparison: &Comparison,
) -> Result<Spots, AllocError> {
    let mut spots = BTreeSet::new(alloc);
    if !counts(view.diagram, comparison) {
        return Ok(spots);
    }
    let mut entry = 0u32;
    for difference in comparison.differences.as_slice() {
        match difference {
            Difference::Nothing => {}
            Difference::Latch => {
                spots.insert((entry, 0))?;
            }
            Difference::Memory(memory) => note_memory(alloc, &mut spots, view, entry, memory)?,
        }
        entry = entry.saturating_add(1);
    }
    Ok(spots)
}

/// The values that differ.
pub fn differing_of(alloc: Global, view: &ShownCase<'_>) -> Result<Differing, AllocError> {
    let mut all = BTreeSet::new(alloc);
    let mut after = Vec::new(alloc);
    for comparison in view.diagram.comparisons.as_slice() {
        let spots = differing_after(alloc, view, comparison)?;
        for spot in spots.iter() {
            all.insert(*spot)?;
        }
        after.push(spots)?;
    }
    Ok(Differing { all, after })
}

/// The value in a column that a spot stands for.
fn subject(column: Column, spot: Location) -> Subject {
    match spot {
        Location::Latch(entry) => Subject::Latch(column, entry),
        Location::Cell(entry, address) => Subject::Cell(column, entry, address),
    }
}

/// The place in the pipeline and the sort of an entry of the specification.
fn seen(design: &Design, entry: u32) -> Option<(u32, Sort)> {
    let place = *design.visible.as_slice().get(entry as usize)?;
    let entry = design.spec.entries.as_slice().get(entry as usize)?;
    Some((place, entry.sort))
}

/// The values that differ, on both sides.
pub fn both_sides(
    alloc: Global,
    view: &ShownCase<'_>,
    differing: &Differing,
) -> Result<Vec<Subject>, AllocError> {
    let mut subjects = Vec::new(alloc);
    let mut steps = 0u32;
    for spots in &differing.after {
        for (entry, address) in spots.iter() {
            if let Some((place, sort)) = seen(view.design, *entry) {
                let stands = spot_of(sort, place, *address);
                let reached = spot_of(sort, *entry, *address);
                subjects.push(subject(Column::After(view.design.flush), stands))?;
                subjects.push(subject(Column::Steps(steps), reached))?;
            }
        }
        steps = steps.saturating_add(1);
    }
    Ok(subjects)
}
