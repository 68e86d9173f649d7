//! The truth latches of a pipeline.
use bd_model::{Case, Design, Scalar, Sort, Value};
use std::alloc::{AllocError, Global};

/// The places of the truth latches, in the order of the text.
pub(crate) fn truth_latches(alloc: Global, design: &Design) -> Result<Vec<usize>, AllocError> {
    let mut places = Vec::new(alloc);
    for (place, entry) in design.pipe.entries.as_slice().iter().enumerate() {
        if entry.sort == Sort::Bool {
            places.push(place)?;
        }
    }
    Ok(places)
}

/// Whether the truth latch at a place is true in a case.
pub(crate) fn is_true(case: &Case, place: usize) -> bool {
    match case.state.as_slice().get(place) {
        Some(Value::Scalar(Scalar::Bool(truth))) => *truth,
        _ => false,
    }
}

/// How many of the latches are true in a case.
pub(crate) fn count_true(case: &Case, latches: &[usize]) -> usize {
    latches
        .iter()
        .filter(|place| is_true(case, **place))
        .count()
}
