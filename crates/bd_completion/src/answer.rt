//! What a pipeline is found to be by an abstraction.
use bd_model::{Case, Condition};
use bd_verify::Work;

/// What a pipeline is found to be by an abstraction, or the abstraction beside flushing, with the work of the question.
#[derive(Drop)]
pub enum Complete {
    /// The pipeline is right by the abstraction.
    Right(Work),
    /// This case breaks the condition by the abstraction.
    Wrong(Condition, Case, Work),
    /// The abstraction agrees with flushing wherever the invariant is true.
    Agree(Work),
    /// The invariant is true in this case's state, and there the two differ.
    Differ(Case, Work),
    /// The budget was spent.
    Undecided(Work),
}
