//! Which values are shown: those that what differs, or the broken invariant, rests on.
ghost use Rattle.bd_model.specs.DesignView.{design_view};
ghost use Rattle.bd_model.specs.Lawful.{IsLawful};

use crate::differing::{Differing, both_sides};
use crate::grid::Signal;
use crate::picture::{Outcome, ShownCase};
use crate::words::is_zero;
use bd_model::{Condition, Design, Judged};
use bd_slice::{Column, Finding, Location, Reasons, Subject, history_of, reasons_of};
use indexmap::IndexSet;
use std::alloc::{AllocError, Global};
use std::collections::{BTreeMap, BTreeSet};

/// Addresses of words, by the number of the entry that has them.
#[derive(Drop)]
struct Addresses {
    of: Vec<BTreeSet<u64>>,
}

impl Addresses {
    /// The marks of so many entries, of which no address is marked.
    fn new(alloc: Global, count: usize) -> Result<Addresses, AllocError> {
        let mut of = Vec::new(alloc);
        for _number in 0..count {
            of.push(BTreeSet::new(alloc))?;
        }
        Ok(Addresses { of })
    }

    /// Marks an address of the entry of this number; a number past the last changes nothing.
    fn add(&mut self, number: u32, address: u64) -> Result<(), AllocError> {
        if let Some(addresses) = self.of.get_mut(number as usize) {
            addresses.insert(address)?;
        }
        Ok(())
    }

    /// The marked addresses of the entry of this number; none past the last.
    fn get(&self, number: u32) -> Option<&BTreeSet<u64>> {
        self.of.get(number as usize)
    }
}

/// The values of a run that some of its values rest on, and what the functions and predicates are applied to in them
/// where the value isn't 0 or false. Values are numbered from 0 in the order of their reasons, and applications after
/// them.
#[derive(Drop)]
pub struct Slice {
    pub reasons: Reasons,
    cells: Addresses,
    numbers: IndexSet<Subject>,
    pub applied: BTreeMap<(u32, Vec<u64>), usize>,
}

/// Which values of a run are shown: all, or those of a slice.
#[derive(Drop)]
pub enum ShownValues {
    All,
    Of(Slice),
}

impl Slice {
    /// The addresses at which words of an entry of the pipeline are in the slice.
    pub fn addresses(&self, entry: u32) -> Option<&BTreeSet<u64>> {
        self.cells.get(entry)
    }

    /// The number of a value that is in the slice.
    pub fn number(&self, subject: Subject) -> Option<usize> {
        self.numbers.get_index_of(&subject)
    }
}

/// The numbers of values, in the order of their reasons.
fn numbers_of(alloc: Global, reasons: &Reasons) -> Result<IndexSet<Subject>, AllocError> {
    let mut numbers = IndexSet::new(alloc);
    for reason in reasons.as_slice() {
        numbers.insert(reason.subject)?;
    }
    Ok(numbers)
}

/// The symbols with the arguments that they are applied to behind values, where the value isn't 0 or false, numbered
/// from `first` on.
fn applied_in(
    alloc: Global,
    reasons: &Reasons,
    first: usize,
) -> Result<BTreeMap<(u32, Vec<u64>), usize>, AllocError> {
    let mut applied = BTreeMap::new(alloc);
    for reason in reasons.as_slice() {
        for fact in &reason.facts {
            if let Finding::Applied(symbol, args, value) = &fact.finding {
                let row = (*symbol, Vec::from_slice(alloc, args.as_slice())?);
                let number = first.saturating_add(applied.len());
                if !is_zero(*value) && !applied.contains_key(&row) {
                    applied.insert(row, number)?;
                }
            }
        }
    }
    Ok(applied)
}

/// The addresses at which words of the pipeline's entries are among values.
fn cells_of(alloc: Global, design: &Design, reasons: &Reasons) -> Result<Addresses, AllocError> {
    let mut cells = Addresses::new(alloc, design.pipe.entries.len())?;
    for reason in reasons.as_slice() {
        if let Subject::Cell(
            Column::Before(_) | Column::After(_),
            entry,
            address,
        ) = reason.subject
        {
            cells.add(entry, address)?;
        }
    }
    Ok(cells)
}

/// The slice of these values.
fn sliced(alloc: Global, design: &Design, reasons: Reasons) -> Result<Slice, AllocError> {
    let cells = cells_of(alloc, design, &reasons)?;
    let numbers = numbers_of(alloc, &reasons)?;
    let applied = applied_in(alloc, &reasons, numbers.len())?;
    Ok(Slice {
        reasons,
        cells,
        numbers,
        applied,
    })
}

/// The value of the run that a line has in a column.
fn subject_of(place: Signal, column: Column) -> Option<Subject> {
    match place {
        Signal::Value(Location::Latch(entry)) => Some(Subject::Latch(column, entry)),
        Signal::Value(Location::Cell(entry, address)) => {
            Some(Subject::Cell(column, entry, address))
        }
        Signal::Input(number) => Some(Subject::Input(column.reached_by()?, number)),
    }
}

impl ShownValues {
    /// The number of the value that a line has in a column, where it is in a slice.
    pub fn number(&self, place: Signal, column: Column) -> Option<usize> {
        match self {
            ShownValues::All => None,
            ShownValues::Of(slice) => slice.number(subject_of(place, column)?),
        }
    }

    /// Whether the value that a line has in a column is shown.
    pub fn has(&self, place: Signal, column: Column) -> bool {
        match self {
            ShownValues::All => true,
            ShownValues::Of(slice) => match subject_of(place, column) {
                Some(subject) => slice.reasons.has(subject),
                None => false,
            },
        }
    }
}

/// What the values rest on, each with its reason.
fn reasons_behind(
    alloc: Global,
    view: &ShownCase<'_>,
    subjects: &[Subject],
) -> Result<Reasons, AllocError>
    requires lawful { IsLawful (design_view view.now.design.now) }
{
    let history = history_of(alloc, view.design, view.case)?;
    reasons_of(alloc, view.design, view.case, &history, subjects)
}

/// What the values rest on.
fn slice_of(
    alloc: Global,
    view: &ShownCase<'_>,
    subjects: &[Subject],
) -> Result<ShownValues, AllocError>
    requires lawful { IsLawful (design_view view.now.design.now) }
{
    let reasons = reasons_behind(alloc, view, subjects)?;
    Ok(ShownValues::Of(sliced(alloc, view.design, reasons)?))
}

/// What is shown of a case: where it breaks a condition, what the values that differ rest on, on both sides, or what
/// the invariant rests on. Else, and by a completion function, all.
pub fn marks_of(
    alloc: Global,
    view: &ShownCase<'_>,
    differing: &Differing,
) -> Result<ShownValues, AllocError>
    requires lawful { IsLawful (design_view view.now.design.now) }
{
    match view.outcome {
        Outcome::Flushed(Judged::Broken(Condition::Invariant)) => {
            slice_of(alloc, view, &[Subject::Invariant])
        }
        Outcome::Flushed(Judged::Broken(Condition::Commute)) => {
            let subjects = both_sides(alloc, view, differing)?;
            slice_of(alloc, view, subjects.as_slice())
        }
        _ => Ok(ShownValues::All),
    }
}
