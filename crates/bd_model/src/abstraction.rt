//! The type of abstractions.
use crate::design::Locals;
use crate::expr::Exprs;

/// What a state of the pipeline stands for: what is visible once the pipeline is flushed, or one expression for each
/// visible entry, in the specification's order, over the pipeline's entries and lets of its own.
#[derive(PartialEq, Drop)]
pub enum Abstraction {
    Flushing,
    Given { lets: Locals, parts: Exprs },
}
