//! How a case is made small.
//!
//! One place after another, a row goes or has the value 0, and another value becomes 0, where the case still shows what
//! the whole one does. The end is made sure of by a scan: as long as there is a place at which it still does with less,
//! that is taken.
//!
//! A value that matters to what differs stays as it is, for with 0 in its place what differs would have other values.
//! So such values stay as different from one another, and from 0, as they are in the whole case.
ghost use Rattle.std.specs.Prelude.{IfOk};
ghost use Rattle.bd_model.specs.DesignView.{design_view};
ghost use Rattle.bd_model.specs.Fits.{Fits};
ghost use Rattle.bd_model.specs.Lawful.{IsLawful};
ghost use Rattle.bd_model.specs.declared.case.Judged.TheVariants.{Broken};
ghost use Rattle.bd_model.specs.Conditions.{IsJudged};
ghost use Rattle.bd_shrink.specs.Shrunk.{IsSmall, IsShrunk};
ghost use Rattle.bd_shrink.specs.inner.Asked.{IsKnown, ShowsBy};

use crate::apart::apart_of;
use crate::fate::Fate;
use crate::pass::lowered_once;
use crate::remnant::remnant_of;
use crate::search::{ShrinkGoal, lowered};
use crate::whole::whole;
use bd_model::{Case, Condition, Design};
use std::alloc::{AllocError, Global};

/// What is left of a case that breaks a condition. It breaks the same one, and where that is `commute`, what differs
/// stays: after each number of steps the same entries and addresses differ, with the same values. Its rows are some of
/// the old ones in their order, each value is the old one or 0 or false, and with any one row or value less not all of
/// this is so.
pub fn shrink(
    alloc: Global,
    design: &Design,
    case: &Case,
    which: Condition,
) -> Result<Case, AllocError>
    requires lawful { IsLawful (design_view design.now) }
    requires fits { Fits (design_view design.now) case.now }
    requires broken { IsJudged (design_view design.now) case.now (Broken which) }
    ensures { IfOk result (λ s. IsShrunk (design_view design.now) case.now which s) }
{
    let apart = apart_of(alloc, design, case)?;
    let question = ShrinkGoal {
        alloc,
        design,
        case,
        which,
        apart: &apart,
    };
    let fates = lowered_once(&question, whole(alloc, case)?)?;
    let fates = settled(&question, fates)?;
    remnant_of(alloc, case, fates.as_slice())
}

/// Fates with less at one place after another, until nothing less is shown.
fn settled(question: &ShrinkGoal, fates: Vec<Fate>) -> Result<Vec<Fate>, AllocError>
    requires known { IsKnown question.now }
    requires shown { ShowsBy question.now fates.items }
    ensures shown { IfOk result (λ left. ShowsBy question.now left.items) }
    ensures small { IfOk result (λ left. IsSmall (design_view question.now.design.now)
        question.now.case.now question.now.which left.items) }
{
    let mut left = fates;
    while let Some(less) = lowered(question, &left)? {
        left = less;
    }
    Ok(left)
}
