//! Whether less of a case shows the same.
ghost use Rattle.std.specs.Prelude.{◌≡◌, ◌<◌, ◌↔◌, length, slice_get, slice_set, Some, IfOk, IfSome, IfNone, IsTrue, MatchOption};
ghost use Rattle.bd_model.specs.DesignView.{design_view};
ghost use Rattle.bd_shrink.specs.Remnant.{remnant};
ghost use Rattle.bd_shrink.specs.Shrunk.{Shows, Keeps, KeepsDifferences, IsSmall};
ghost use Rattle.bd_shrink.specs.inner.Asked.{IsKnown, ShowsBy, IsLowered, IsLeast};

use crate::apart::{Apart, apart_of, is_same};
use crate::fate::Fate;
use crate::remnant::remnant_of;
use bd_diagram::alike_where_compared;
use bd_model::{Case, Condition, Design, Judged, judged_once};
use bd_sim::judge;
use std::alloc::{AllocError, Global};

/// What is asked of less and less of a case: whether it breaks this condition of the design, with what is known to
/// differ in the case.
#[derive(Drop)]
pub struct ShrinkGoal<'a> {
    pub alloc: Global,
    pub design: &'a Design,
    pub case: &'a Case,
    pub which: Condition,
    pub apart: &'a Apart,
}

/// Whether a case fits, is judged to break the condition, and differs as the whole case does.
fn shows(question: &ShrinkGoal, case: &Case) -> Result<bool, AllocError>
    requires { IsKnown question.now }
    ensures { IfOk result (λ b. IsTrue b ↔ Shows (design_view question.now.design.now)
        question.now.case.now case.now question.now.which) }
{
    judged_once();
    if !question.design.fits(case) {
        return Ok(false);
    }
    let judged = judge(question.alloc, question.design, case)?;
    if !is_broken(judged, question.which) {
        return Ok(false);
    }
    keeps(question, case)
}

/// Whether a case differs as the whole one does, where the diagram is what they break.
fn keeps(question: &ShrinkGoal, case: &Case) -> Result<bool, AllocError>
    requires { IsKnown question.now }
    ensures { IfOk result (λ b. IsTrue b ↔ Keeps (design_view question.now.design.now)
        question.now.case.now case.now question.now.which) }
{
    match question.which {
        Condition::Invariant => Ok(true),
        Condition::Commute => keeps_differences(question, case),
    }
}

/// Whether the two sides of a case's diagram part where those of the whole case do, with the same values.
fn keeps_differences(question: &ShrinkGoal, case: &Case) -> Result<bool, AllocError>
    requires { IsKnown question.now }
    ensures { IfOk result (λ b. IsTrue b ↔ KeepsDifferences (design_view question.now.design.now)
        question.now.case.now case.now) }
{
    alike_where_compared();
    let apart = apart_of(question.alloc, question.design, case)?;
    Ok(is_same(question.apart, &apart))
}

/// Whether a judgement is that this condition is broken.
fn is_broken(judged: Judged, which: Condition) -> bool
    ensures { IsTrue result ↔ (judged ≡ Judged.Broken which) }
{
    match (judged, which) {
        (Judged::Broken(Condition::Invariant), Condition::Invariant) => true,
        (Judged::Broken(Condition::Commute), Condition::Commute) => true,
        _ => false,
    }
}

/// Whether what these fates leave of the case shows what the whole case does.
pub fn shows_by(question: &ShrinkGoal, fates: &[Fate]) -> Result<bool, AllocError>
    requires { IsKnown question.now }
    ensures { IfOk result (λ b. IsTrue b ↔ ShowsBy question.now fates.now) }
{
    let left = remnant_of(question.alloc, question.case, fates)?;
    shows(question, &left)
}

/// Fates that leave less at one place, if what they leave still shows what the whole case does.
pub fn lowered(question: &ShrinkGoal, fates: &Vec<Fate>) -> Result<Option<Vec<Fate>>, AllocError>
    requires { IsKnown question.now }
    ensures { IfOk result (λ found. MatchOption found
        (IsSmall (design_view question.now.design.now) question.now.case.now question.now.which
        fates.now.items)
        (λ less. IsLowered question.now fates.now.items less.items)) }
{
    for place in 0..fates.len() {
        match lowered_at(question, fates, place)? {
            Some(less) => return Ok(Some(less)),
            None => {}
        }
    }
    Ok(None)
}

/// Fates that leave less at this place, if what they leave still shows what the whole case does.
pub fn lowered_at(
    question: &ShrinkGoal,
    fates: &Vec<Fate>,
    place: usize,
) -> Result<Option<Vec<Fate>>, AllocError>
    requires known { IsKnown question.now }
    requires within { place < length fates.now.items }
    ensures { IfOk result (λ found. MatchOption found
        (IsLeast question.now fates.now.items place)
        (λ less. IsLowered question.now fates.now.items less.items)) }
{
    match fates[place] {
        Fate::Stays => match tried(question, fates, place, Fate::Gone)? {
            Some(less) => Ok(Some(less)),
            None => tried(question, fates, place, Fate::Zero),
        },
        Fate::Zero => tried(question, fates, place, Fate::Gone),
        Fate::Gone => Ok(None),
    }
}

/// The fates with this one at a place, if what they leave still shows it.
fn tried(
    question: &ShrinkGoal,
    fates: &Vec<Fate>,
    place: usize,
    fate: Fate,
) -> Result<Option<Vec<Fate>>, AllocError>
    requires known { IsKnown question.now }
    requires within { place < length fates.now.items }
    ensures { IfOk result (λ found. MatchOption found
        (¬ ShowsBy question.now (slice_set fates.now.items place fate))
        (λ less. (less.items ≡ slice_set fates.now.items place fate)
        × ShowsBy question.now less.items)) }
{
    let less = with_fate(fates, place, fate)?;
    if shows_by(question, less.as_slice())? {
        Ok(Some(less))
    } else {
        Ok(None)
    }
}

/// A copy of the fates, with this one at a place.
fn with_fate(fates: &Vec<Fate>, place: usize, fate: Fate) -> Result<Vec<Fate>, AllocError>
    requires { place < length fates.now.items }
    ensures { IfOk result (λ v. v.items ≡ slice_set fates.now.items place fate) }
{
    let mut less = fates.clone()?;
    less[place] = fate;
    Ok(less)
}
