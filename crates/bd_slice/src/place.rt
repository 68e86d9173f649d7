//! Places of a case, and values of its diagram.
use bd_model::{Sequence, Words};
use std::alloc::AllocError;

/// A place of a case: a latch, by its entry; the word of a memory at an address, by its entry and the address; an
/// input; or what a symbol stands for at arguments.
#[derive(PartialEq, Drop)]
pub enum CasePlace {
    Latch(usize),
    Cell(usize, u64),
    Input(usize),
    Row(u32, Words),
}

impl Clone for CasePlace {
    ghost use Rattle.std.specs.Prelude.{◌≡◌};

    ghost is_clone = { λ old new. new ≡ old };

    /// A copy of the place.
    fn clone(&self) -> Result<CasePlace, AllocError> {
        match self {
            CasePlace::Latch(entry) => Ok(CasePlace::Latch(*entry)),
            CasePlace::Cell(entry, address) => Ok(CasePlace::Cell(*entry, *address)),
            CasePlace::Input(input) => Ok(CasePlace::Input(*input)),
            CasePlace::Row(symbol, args) => Ok(CasePlace::Row(*symbol, args.clone()?)),
        }
    }
}

/// A list of places of a case.
pub type CasePlaces = Sequence<CasePlace>;

/// A state of the diagram: the pipeline after so many flush cycles from the case's state, the pipeline after so many
/// flush cycles from the state after the case's cycle, or what is visible after so many steps of the specification from
/// where the pipeline is flushed before the cycle.
#[derive(Clone, Copy, PartialEq, Eq, Hash)]
pub enum Column {
    Before(u32),
    After(u32),
    Steps(u32),
}

/// A value of a state: a latch, by its entry, or the word of a memory at an address.
#[derive(Clone, Copy, PartialEq, Eq)]
pub enum Location {
    Latch(u32),
    Cell(u32, u64),
}

/// A value that is asked for: one of a state of the diagram.
#[derive(Clone, Copy, PartialEq, Eq)]
pub struct Want {
    pub column: Column,
    pub spot: Location,
}
