//! Which latches can be false.
ghost use Rattle.std.specs.Prelude.{◌≤◌, IfOk, IfSome, length};
ghost use Rattle.bd_model.specs.Conditions.{IsJudged};
ghost use Rattle.bd_model.specs.DesignView.{design_view};
ghost use Rattle.bd_model.specs.Fits.{Fits};
ghost use Rattle.bd_model.specs.Lawful.{IsLawful};
ghost use Rattle.bd_model.specs.Limits.{longest_text};
ghost use Rattle.bd_model.specs.declared.case.Condition.TheVariants.{Commute};
ghost use Rattle.bd_model.specs.declared.case.Judged.TheVariants.{Broken};

use crate::latches::{count_true, is_true, truth_latches};
use crate::question::{DesignTexts, ask};
use bd_model::{Case, Condition, Design};
use bd_shrink::shrink;
use std::alloc::{AllocError, Global};

/// The most latches that are asked about one by one.
const MOST_LATCHES: usize = 8;

/// What is left of a case that breaks the diagram, in which as many truth latches as could be had are false, those that
/// stand first in the text before others.
pub(crate) fn simplest(
    alloc: Global,
    texts: DesignTexts<'_>,
    design: &Design,
    case: &Case,
    budget: u32,
) -> Result<Case, AllocError>
    requires lawful { IsLawful (design_view design.now) }
    requires fits { Fits (design_view design.now) case.now }
    requires broken { IsJudged (design_view design.now) case.now (Broken Commute) }
    requires pipe { length texts.pipe.now ≤ longest_text }
    requires spec { length texts.spec.now ≤ longest_text }
    ensures fits { IfOk result (Fits (design_view design.now)) }
    ensures broken { IfOk result (λ c. IsJudged (design_view design.now) c (Broken Commute)) }
{
    let latches = truth_latches(alloc, design)?;
    let left = small(alloc, design, case)?;
    match emptier(alloc, texts, design, &left, budget, latches.as_slice())? {
        Some(found) => with_fewer(alloc, design, left, &found, latches.as_slice()),
        None => Ok(left),
    }
}

/// What is left of a case that breaks the diagram.
fn small(alloc: Global, design: &Design, case: &Case) -> Result<Case, AllocError>
    requires lawful { IsLawful (design_view design.now) }
    requires fits { Fits (design_view design.now) case.now }
    requires broken { IsJudged (design_view design.now) case.now (Broken Commute) }
    ensures fits { IfOk result (Fits (design_view design.now)) }
    ensures broken { IfOk result (λ c. IsJudged (design_view design.now) c (Broken Commute)) }
{
    let left = shrink(alloc, design, case, Condition::Commute)?;
    Ok(left)
}

/// What is left of a case that was found, if fewer latches are true in it than in this one.
fn with_fewer(
    alloc: Global,
    design: &Design,
    left: Case,
    found: &Case,
    latches: &[usize],
) -> Result<Case, AllocError>
    requires lawful { IsLawful (design_view design.now) }
    requires left_fits { Fits (design_view design.now) left }
    requires left_broken { IsJudged (design_view design.now) left (Broken Commute) }
    requires fits { Fits (design_view design.now) found.now }
    requires broken { IsJudged (design_view design.now) found.now (Broken Commute) }
    ensures fits { IfOk result (Fits (design_view design.now)) }
    ensures broken { IfOk result (λ c. IsJudged (design_view design.now) c (Broken Commute)) }
{
    let simple = small(alloc, design, found)?;
    if count_true(&simple, latches) < count_true(&left, latches) {
        Ok(simple)
    } else {
        Ok(left)
    }
}

/// A case that breaks the diagram, if one is found in which all of the latches are false, or else fewer of them true.
fn emptier(
    alloc: Global,
    texts: DesignTexts<'_>,
    design: &Design,
    case: &Case,
    budget: u32,
    latches: &[usize],
) -> Result<Option<Case>, AllocError>
    requires lawful { IsLawful (design_view design.now) }
    requires pipe { length texts.pipe.now ≤ longest_text }
    requires spec { length texts.spec.now ≤ longest_text }
    ensures fits { IfOk result (λ found. IfSome found (Fits (design_view design.now))) }
    ensures broken { IfOk result (λ found. IfSome found (λ c.
        IsJudged (design_view design.now) c (Broken Commute))) }
{
    if count_true(case, latches) == 0 {
        return Ok(None);
    }
    match ask(alloc, texts, design, budget, latches)? {
        Some(found) => Ok(Some(found)),
        None => one_by_one(alloc, texts, design, case, budget, latches),
    }
}

/// The latches that are to be false, a case in which they are if one was found, and how many were asked about.
#[derive(Drop)]
struct Emptied {
    fixed: Vec<usize>,
    best: Option<Case>,
    asked: usize,
}

/// The same, latch by latch.
fn one_by_one(
    alloc: Global,
    texts: DesignTexts<'_>,
    design: &Design,
    case: &Case,
    budget: u32,
    latches: &[usize],
) -> Result<Option<Case>, AllocError>
    requires lawful { IsLawful (design_view design.now) }
    requires pipe { length texts.pipe.now ≤ longest_text }
    requires spec { length texts.spec.now ≤ longest_text }
    ensures fits { IfOk result (λ found. IfSome found (Fits (design_view design.now))) }
    ensures broken { IfOk result (λ found. IfSome found (λ c.
        IsJudged (design_view design.now) c (Broken Commute))) }
{
    let mut emptied = Emptied {
        fixed: Vec::new(alloc),
        best: None,
        asked: 0,
    };
    for place in latches {
        emptied = with_latch(alloc, texts, design, case, budget, emptied, *place)?;
    }
    Ok(emptied.best)
}

/// With one latch more: one that is false stays so, and of another it is asked whether it can be.
fn with_latch(
    alloc: Global,
    texts: DesignTexts<'_>,
    design: &Design,
    case: &Case,
    budget: u32,
    emptied: Emptied,
    place: usize,
) -> Result<Emptied, AllocError>
    requires lawful { IsLawful (design_view design.now) }
    requires pipe { length texts.pipe.now ≤ longest_text }
    requires spec { length texts.spec.now ≤ longest_text }
    requires fits { IfSome emptied.best (Fits (design_view design.now)) }
    requires broken { IfSome emptied.best (λ c.
        IsJudged (design_view design.now) c (Broken Commute)) }
    ensures fits { IfOk result (λ e. IfSome e.best (Fits (design_view design.now))) }
    ensures broken { IfOk result (λ e. IfSome e.best (λ c.
        IsJudged (design_view design.now) c (Broken Commute))) }
{
    let Emptied { fixed, best, asked } = emptied;
    let mut fixed = fixed;
    if !is_true_in(&best, case, place) {
        fixed.push(place)?;
        return Ok(Emptied { fixed, best, asked });
    }
    if asked >= MOST_LATCHES {
        return Ok(Emptied { fixed, best, asked });
    }
    let asked = asked.wrapping_add(1);
    fixed.push(place)?;
    match ask(alloc, texts, design, budget, fixed.as_slice())? {
        Some(found) => Ok(Emptied {
            fixed,
            best: Some(found),
            asked,
        }),
        None => {
            fixed.pop();
            Ok(Emptied { fixed, best, asked })
        }
    }
}

/// Whether a latch is true in the best case so far, else in this one.
fn is_true_in(best: &Option<Case>, case: &Case, place: usize) -> bool {
    match best {
        Some(best) => is_true(best, place),
        None => is_true(case, place),
    }
}
