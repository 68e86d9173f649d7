//! One question: whether a case breaks the diagram in which these latches are false.
ghost use Rattle.std.specs.Prelude.{◌≤◌, IfOk, IfSome, length};
ghost use Rattle.bd_model.specs.Conditions.{IsJudged};
ghost use Rattle.bd_model.specs.DesignView.{design_view};
ghost use Rattle.bd_model.specs.Fits.{Fits};
ghost use Rattle.bd_model.specs.Lawful.{IsLawful};
ghost use Rattle.bd_model.specs.Limits.{longest_text};
ghost use Rattle.bd_model.specs.declared.case.Condition.TheVariants.{Commute};
ghost use Rattle.bd_model.specs.declared.case.Judged.TheVariants.{Broken};

use crate::narrowing::narrowed;
use bd_bounded::{Bounded, bounded_by};
use bd_case::{CaseFault, case_text, read_case};
use bd_cdcl::Cdcl;
use bd_model::{Case, Condition, Design, Judged, Trail};
use bd_sim::judge;
use bd_typer::{DesignFault, design_of};
use bd_verify::Mode;
use std::alloc::{AllocError, Global};

/// The texts of a pipeline, of its specification, and of its invariant if it has one.
#[derive(Clone, Copy)]
pub struct DesignTexts<'a> {
    pub pipe: &'a [u8],
    pub spec: &'a [u8],
    pub inv: Option<&'a [u8]>,
}

/// The most clauses that a solver may add for one question: what is easy to find is wanted.
const MOST_CLAUSES: u32 = 1000;

/// The most bytes of a text.
const LONGEST_TEXT: usize = 1_048_576;

/// The trail of an answer, if it has one.
fn trail_of(answer: Bounded) -> Option<Trail> {
    match answer {
        Bounded::Broken(_, trail, _) => Some(trail),
        _ => None,
    }
}

/// A trail of one cycle that breaks the diagram, from a state in which these latches are false. The question is asked by
/// positive equality, which is fast, and gives values that differ from one another.
fn broken_trail(
    alloc: Global,
    texts: DesignTexts<'_>,
    design: &Design,
    budget: u32,
    latches: &[usize],
) -> Result<Option<Trail>, AllocError>
    requires pipe { length texts.pipe.now ≤ longest_text }
    requires spec { length texts.spec.now ≤ longest_text }
{
    let Some(inv) = narrowed(alloc, texts.inv, design, latches)? else {
        return Ok(None);
    };
    if inv.len() > LONGEST_TEXT {
        return Ok(None);
    }
    match design_of(alloc, texts.pipe, texts.spec, Some(inv.as_slice())) {
        Ok(narrow) => {
            let mut solver = Cdcl::new(alloc);
            let most = budget.min(MOST_CLAUSES);
            let answer = bounded_by(alloc, &mut solver, &narrow, 1, most, Mode::Diverse)?;
            Ok(trail_of(answer))
        }
        Err(DesignFault::Memory) => Err(AllocError),
        Err(DesignFault::Bad { .. }) => Ok(None),
    }
}

/// The case of the first cycle of a trail, if it is one of the design and breaks the diagram.
fn replayed(alloc: Global, design: &Design, trail: &Trail) -> Result<Option<Case>, AllocError>
    requires lawful { IsLawful (design_view design.now) }
    ensures fits { IfOk result (λ found. IfSome found (Fits (design_view design.now))) }
    ensures broken { IfOk result (λ found. IfSome found (λ c.
        IsJudged (design_view design.now) c (Broken Commute))) }
{
    let Some(inputs) = trail.inputs.as_slice().first() else {
        return Ok(None);
    };
    let case = Case {
        interp: trail.interp.clone()?,
        state: trail.state.clone()?,
        inputs: inputs.clone()?,
    };
    let text = case_text(alloc, design, &case)?;
    match read_case(alloc, design, text.as_slice()) {
        Ok(case) => kept(alloc, design, case),
        Err(CaseFault::Memory) => Err(AllocError),
        Err(CaseFault::Bad { .. }) => Ok(None),
    }
}

/// The case, if it breaks the diagram.
fn kept(alloc: Global, design: &Design, case: Case) -> Result<Option<Case>, AllocError>
    requires lawful { IsLawful (design_view design.now) }
    requires fits { Fits (design_view design.now) case }
    ensures fits { IfOk result (λ found. IfSome found (Fits (design_view design.now))) }
    ensures broken { IfOk result (λ found. IfSome found (λ c.
        IsJudged (design_view design.now) c (Broken Commute))) }
{
    match judge(alloc, design, &case)? {
        Judged::Broken(Condition::Commute) => Ok(Some(case)),
        _ => Ok(None),
    }
}

/// A case that breaks the diagram and in which these latches are false, if one is found.
pub(crate) fn ask(
    alloc: Global,
    texts: DesignTexts<'_>,
    design: &Design,
    budget: u32,
    latches: &[usize],
) -> Result<Option<Case>, AllocError>
    requires lawful { IsLawful (design_view design.now) }
    requires pipe { length texts.pipe.now ≤ longest_text }
    requires spec { length texts.spec.now ≤ longest_text }
    ensures fits { IfOk result (λ found. IfSome found (Fits (design_view design.now))) }
    ensures broken { IfOk result (λ found. IfSome found (λ c.
        IsJudged (design_view design.now) c (Broken Commute))) }
{
    match broken_trail(alloc, texts, design, budget, latches)? {
        Some(trail) => replayed(alloc, design, &trail),
        None => Ok(None),
    }
}
