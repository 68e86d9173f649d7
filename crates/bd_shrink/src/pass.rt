//! One pass over the places of a case, before the search for places with less begins anew at each that it finds.
//!
//! One place changes at a time. Were many to change at once, two values that have to be equal could become 0 together,
//! as the register that one instruction writes and the next one reads.
ghost use Rattle.std.specs.Prelude.{IfOk};
ghost use Rattle.bd_shrink.specs.inner.Asked.{IsKnown, ShowsBy};

use crate::fate::Fate;
use crate::search::{ShrinkGoal, lowered_at};
use std::alloc::AllocError;

/// Fates with less at one place after another, wherever what is left shows what the case does.
pub fn lowered_once(question: &ShrinkGoal, fates: Vec<Fate>) -> Result<Vec<Fate>, AllocError>
    requires known { IsKnown question.now }
    requires shown { ShowsBy question.now fates.items }
    ensures { IfOk result (λ left. ShowsBy question.now left.items) }
{
    let count = fates.len();
    let mut left = fates;
    for place in 0..count {
        left = less_at(question, left, place)?;
    }
    Ok(left)
}

/// The fates with less at one place, or unchanged where nothing less is shown.
fn less_at(question: &ShrinkGoal, fates: Vec<Fate>, place: usize) -> Result<Vec<Fate>, AllocError>
    requires known { IsKnown question.now }
    requires shown { ShowsBy question.now fates.items }
    ensures { IfOk result (λ left. ShowsBy question.now left.items) }
{
    if place >= fates.len() {
        return Ok(fates);
    }
    match lowered_at(question, &fates, place)? {
        Some(less) => Ok(less),
        None => Ok(fates),
    }
}
