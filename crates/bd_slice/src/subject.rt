//! Values of a run, and what they come from.
ghost use Rattle.std.specs.Prelude.{◌≡◌, IfNone, IfSome};
ghost use Rattle.bd_slice.specs.Run.{begins_at};
ghost use Rattle.bd_slice.specs.inner.Leads.{IsStart, LeadsTo};

use crate::place::Column;
use bd_model::{Scalar, Words};
use std::alloc::AllocError;

/// A cycle of the run. The case's own leads from the case's state to the first one after it, a flush cycle from the
/// column of this number before or after the case's cycle to the next, and a step of the specification likewise. The
/// invariant is valued in the state after the case's cycle, and leads nowhere.
#[derive(Clone, Copy, PartialEq, Eq, Hash)]
pub enum Cycle {
    Case,
    FlushBefore(u32),
    FlushAfter(u32),
    Step(u32),
    Invariant,
}

/// A value of the run: a latch, or a memory's word at an address, by column and entry; an input, a let, or the word at
/// an address of a let that is a memory, by cycle and number. In the columns of the specification entries and lets are
/// those of the specification. Last the invariant after the cycle.
#[derive(Clone, Copy, PartialEq, Eq, Hash)]
pub enum Subject {
    Latch(Column, u32),
    Cell(Column, u32, u64),
    Input(Cycle, u32),
    Let(Cycle, u32),
    LetCell(Cycle, u32, u64),
    Invariant,
}

impl Subject {
    /// The cycle in which a value is worked out: none where it is the case's, or taken over as what is visible.
    pub fn cycle(self) -> Option<Cycle> {
        match self {
            Subject::Latch(column, _) | Subject::Cell(column, _, _) => column.reached_by(),
            Subject::Input(cycle, _) | Subject::Let(cycle, _) | Subject::LetCell(cycle, _, _) => {
                Some(cycle)
            }
            Subject::Invariant => Some(Cycle::Invariant),
        }
    }
}

impl Column {
    /// The cycle that ends in a column.
    pub fn reached_by(self) -> Option<Cycle>
        ensures leads { IfSome result (λ which. LeadsTo which self) }
        ensures start { IfNone result (IsStart self) }
    {
        match self {
            Column::Before(0) | Column::Steps(0) => None,
            Column::After(0) => Some(Cycle::Case),
            Column::Before(cycles) => Some(Cycle::FlushBefore(cycles.saturating_sub(1))),
            Column::After(cycles) => Some(Cycle::FlushAfter(cycles.saturating_sub(1))),
            Column::Steps(steps) => Some(Cycle::Step(steps.saturating_sub(1))),
        }
    }
}

impl Cycle {
    /// The column in which a cycle begins.
    pub fn begins_at(self) -> Column
        ensures { result ≡ begins_at self }
    {
        match self {
            Cycle::Case => Column::Before(0),
            Cycle::FlushBefore(cycles) => Column::Before(cycles),
            Cycle::FlushAfter(cycles) => Column::After(cycles),
            Cycle::Step(steps) => Column::Steps(steps),
            Cycle::Invariant => Column::After(0),
        }
    }
}

/// What the value of a part of an expression comes from: a name that stands for a value of the run, the branch that an
/// `ite` takes, the one part that decides an `and`, an `or` or an `implies`, a `write` that a read at this address
/// meets or passes (to which other address), or an application.
#[derive(Drop)]
pub enum Finding {
    Rests(Subject, Scalar),
    Chosen(bool),
    Decided(u32),
    Met(u64),
    Passed(u64, u64),
    Applied(u32, Words, Scalar),
}

/// A finding, and the part of the item's expression that it is of: the numbers of the parts on the way down, from 0.
#[derive(Drop)]
pub struct Fact {
    pub path: Words,
    pub finding: Finding,
}
