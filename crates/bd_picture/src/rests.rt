//! What each value of a slice rests on, for the page, which shows it where one points at the value.

use crate::marks::{ShownValues, Slice};
use bd_label::push_number;
use bd_slice::{Fact, Finding, Reason};
use std::alloc::{AllocError, Global};

/// The number of what a fact names, where it is numbered.
fn number_of(alloc: Global, slice: &Slice, fact: &Fact) -> Result<Option<usize>, AllocError> {
    match &fact.finding {
        Finding::Rests(subject, _) => Ok(slice.number(*subject)),
        Finding::Applied(symbol, args, _) => {
            let row = (*symbol, Vec::from_slice(alloc, args.as_slice())?);
            Ok(slice.applied.get(&row).copied())
        }
        _ => Ok(None),
    }
}

/// Puts the numbers of what a value rests on, as an array.
fn push_reason(
    alloc: Global,
    out: &mut Vec<u8>,
    slice: &Slice,
    reason: &Reason,
) -> Result<(), AllocError> {
    let mut mark = b'[';
    for fact in &reason.facts {
        if let Some(number) = number_of(alloc, slice, fact)? {
            out.push(mark)?;
            push_number(out, number as u64)?;
            mark = b',';
        }
    }
    if mark == b'[' {
        out.push(b'[')?;
    }
    out.push(b']')?;
    Ok(())
}

/// What each value of a slice rests on, in the order of their numbers: an array of arrays of numbers.
fn rests_in(alloc: Global, slice: &Slice) -> Result<Vec<u8>, AllocError> {
    let mut out = Vec::from_slice(alloc, b"[")?;
    for (number, reason) in slice.reasons.as_slice().iter().enumerate() {
        if number != 0 {
            out.push(b',')?;
        }
        push_reason(alloc, &mut out, slice, reason)?;
    }
    out.push(b']')?;
    Ok(out)
}

/// What each value that is shown rests on, where these are only some.
pub fn rests_of(alloc: Global, marks: &ShownValues) -> Result<Option<Vec<u8>>, AllocError> {
    match marks {
        ShownValues::All => Ok(None),
        ShownValues::Of(slice) => Ok(Some(rests_in(alloc, slice)?)),
    }
}
