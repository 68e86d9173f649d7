//! Interpretations, states and inputs, and what a case of them shows.
use crate::table::{Scalar, Table, Value};
use bd_list::Sequence;
use std::alloc::AllocError;

/// A table for each symbol, by its number.
pub type Interp = Sequence<Table>;

/// A value for each entry, in the order of declaration.
pub type State = Sequence<Value>;

/// A list of states.
pub type States = Sequence<State>;

/// A value for each input, in the order of declaration.
pub type Inputs = Sequence<Scalar>;

/// The values of the first lets.
pub type LetValues = Sequence<Value>;

/// An interpretation, a state and inputs.
#[derive(PartialEq, Drop)]
pub struct Case {
    pub interp: Interp,
    pub state: State,
    pub inputs: Inputs,
}

impl Clone for Case {
    ghost use Rattle.std.specs.Prelude.{◌≡◌};

    ghost is_clone = { λ c d. d ≡ c };

    /// A copy of the case, of its interpretation, its state and its inputs.
    fn clone(&self) -> Result<Case, AllocError> {
        Ok(Case {
            interp: self.interp.clone()?,
            state: self.state.clone()?,
            inputs: self.inputs.clone()?,
        })
    }
}

/// Inputs for each of several cycles.
pub type InputLists = Sequence<Inputs>;

/// A run of several cycles: an interpretation, the first state, and the inputs of each cycle.
#[derive(PartialEq, Drop)]
pub struct Trail {
    pub interp: Interp,
    pub state: State,
    pub inputs: InputLists,
}

impl Clone for Trail {
    ghost use Rattle.std.specs.Prelude.{◌≡◌};

    ghost is_clone = { λ t u. u ≡ t };

    /// A copy of the trail, of its interpretation, its first state and the inputs of each cycle.
    fn clone(&self) -> Result<Trail, AllocError> {
        Ok(Trail {
            interp: self.interp.clone()?,
            state: self.state.clone()?,
            inputs: self.inputs.clone()?,
        })
    }
}

/// What a cycle has to keep: the invariant, and the step that commutes with the specification's.
#[derive(Clone, Copy, Debug, PartialEq, Eq)]
pub enum Condition {
    Invariant,
    Commute,
}

/// What a case shows: both conditions hold, its state doesn't meet the invariant, or a condition is broken.
#[derive(Clone, Copy, Debug, PartialEq, Eq)]
pub enum Judged {
    Holds,
    Outside,
    Broken(Condition),
}

/// What a trail shows: each cycle commutes, its first state doesn't meet the invariant, or the cycle of this number,
/// from 1, is the first that doesn't commute.
#[derive(Clone, Copy, Debug, PartialEq, Eq)]
pub enum TrailJudged {
    Holds,
    Outside,
    Broken(u32),
}
