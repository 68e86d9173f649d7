//! What is found of a design, and of designs with one thing changed.
ghost use Rattle.std.specs.Prelude.{◌≡◌, IfOk, map};
ghost use Rattle.bd_model.specs.DesignView.{design_view, local_view};
ghost use Rattle.bd_model.specs.ExprView.{expr_view};
ghost use Rattle.bd_model.specs.Lawful.{IsLawful};
ghost use Rattle.bd_about.specs.Changed.{without_steps};
ghost use Rattle.bd_about.specs.Findings.{AreFindings, IsFinding, finding_of, is_wrong};
ghost use Rattle.bd_about.specs.inner.Asked.{IsLessFlushed, IsMoreFlushed, IsMoreSteps, IsReset, IsWithoutInvariant, IsWithoutSteps, with_counts};

use crate::reset::reset_meets;
use bd_cdcl::Cdcl;
use bd_model::{Condition, Design, Exact, Expr, Locals, Sequence};
use bd_verify::{Mode, Verdict, verify};
use std::alloc::{AllocError, Global};

/// What a verdict found, without its case and its work.
#[derive(Clone, Copy, PartialEq, Eq)]
pub enum Finding {
    /// The pipeline is right.
    Right,
    /// A case breaks the condition.
    Wrong(Condition),
    /// No case meets the invariant.
    Void,
    /// The budget was spent.
    Undecided,
}

/// What is found of a design.
#[derive(Clone, Copy, PartialEq, Eq)]
pub struct Findings {
    /// As it is.
    pub own: Finding,
    /// With one flush cycle less, where it has any.
    pub less_flushed: Option<Finding>,
    /// Where it is wrong, with one flush cycle more, if it may have that many.
    pub more_flushed: Option<Finding>,
    /// Where it is wrong, with one step more, if it may have that many.
    pub more_steps: Option<Finding>,
    /// Without its invariant, where one is given.
    pub without_invariant: Option<Finding>,
    /// Whether the state of all false and 0 meets the invariant, where one is given, if functions give 0.
    pub reset: Option<bool>,
    /// Where each cycle has to stand for 0 steps, unless it has as many exact items as a list can have.
    pub without_steps: Option<Finding>,
}

/// How many clauses the solver may add for each question.
const BUDGET: u32 = 200_000;

/// The most items of a list.
const MOST_ITEMS: usize = 2_097_152;

/// The most flush cycles of a design.
const MOST_FLUSH: u32 = 64;

/// The most steps of a design.
const MOST_STEPS: u32 = 8;

/// What a verdict found.
pub fn finding_of(verdict: &Verdict) -> Finding
    ensures { result ≡ finding_of verdict.now }
{
    match verdict {
        Verdict::Correct(_, _) => Finding::Right,
        Verdict::Wrong(condition, _, _) => Finding::Wrong(*condition),
        Verdict::Void(_) => Finding::Void,
        Verdict::Undecided(_, _) => Finding::Undecided,
    }
}

/// What is found of a design, in diverse mode with the default budget.
pub fn found(alloc: Global, design: &Design, given: bool) -> Result<Finding, AllocError>
    requires { IsLawful (design_view design.now) }
    ensures { IfOk result (IsFinding (design_view design.now) given) }
{
    let mut solver = Cdcl::new(alloc);
    let verdict = verify(alloc, &mut solver, design, BUDGET, given, Mode::Diverse)?;
    Ok(finding_of(&verdict))
}

/// Whether a case was found that breaks a condition.
fn is_wrong(found: Finding) -> bool
    ensures { result ≡ is_wrong found }
{
    matches!(found, Finding::Wrong(_))
}

/// The design with so many flush cycles and steps.
fn with_counts(design: Design, flush: u32, steps: u32) -> Design
    ensures { design_view result ≡ with_counts (design_view design) flush steps }
{
    Design {
        flush,
        steps,
        ..design
    }
}

/// The design with another invariant, and its own.
fn with_invariant(design: Design, lets: Locals, inv: Expr) -> (Design, Locals, Expr)
    ensures design { design_view result.0 ≡ record (design_view design)
        { inv_locals = map local_view lets; inv = expr_view inv } }
    ensures lets { map local_view result.1 ≡ (design_view design).inv_locals }
    ensures inv { expr_view result.2 ≡ (design_view design).inv }
{
    let Design {
        pipe,
        spec,
        symbols,
        visible,
        flush,
        steps,
        inv_locals,
        inv: own,
        exact,
        distinct,
    } = design;
    let changed = Design {
        pipe,
        spec,
        symbols,
        visible,
        flush,
        steps,
        inv_locals: lets,
        inv,
        exact,
        distinct,
    };
    (changed, inv_locals, own)
}

/// The design in which each cycle has to stand for 0 steps.
fn without_steps(design: Design) -> Result<Design, AllocError>
    ensures { IfOk result (λ d. design_view d ≡ without_steps (design_view design)) }
{
    let mut design = design;
    design.exact.push(Exact {
        count: 0,
        when: Expr::Bool(true),
    })?;
    Ok(design)
}

/// What is found with so many flush cycles and steps, and the design again.
fn on_counts(
    alloc: Global,
    design: Design,
    flush: u32,
    steps: u32,
    given: bool,
) -> Result<(Finding, Design), AllocError>
    requires { IsLawful (with_counts (design_view design) flush steps) }
    ensures found { IfOk result (λ r.
        IsFinding (with_counts (design_view design) flush steps) given r.0) }
    ensures again { IfOk result (λ r. design_view r.1 ≡ design_view design) }
{
    let (own_flush, own_steps) = (design.flush, design.steps);
    let changed = with_counts(design, flush, steps);
    let answer = found(alloc, &changed, given)?;
    Ok((answer, with_counts(changed, own_flush, own_steps)))
}

/// What is found with one flush cycle less, and the design again.
fn on_less_flushed(
    alloc: Global,
    design: Design,
    given: bool,
) -> Result<(Option<Finding>, Design), AllocError>
    requires { IsLawful (design_view design) }
    ensures found { IfOk result (λ r. IsLessFlushed (design_view design) given r.0) }
    ensures again { IfOk result (λ r. design_view r.1 ≡ design_view design) }
{
    let (flush, steps) = (design.flush, design.steps);
    if flush == 0 {
        return Ok((None, design));
    }
    let (answer, design) = on_counts(alloc, design, flush - 1, steps, given)?;
    Ok((Some(answer), design))
}

/// What is found with one flush cycle more, where the design is wrong, and the design again.
fn on_more_flushed(
    alloc: Global,
    design: Design,
    own: Finding,
    given: bool,
) -> Result<(Option<Finding>, Design), AllocError>
    requires { IsLawful (design_view design) }
    ensures found { IfOk result (λ r. IsMoreFlushed (design_view design) given own r.0) }
    ensures again { IfOk result (λ r. design_view r.1 ≡ design_view design) }
{
    let (flush, steps) = (design.flush, design.steps);
    if !is_wrong(own) || flush >= MOST_FLUSH {
        return Ok((None, design));
    }
    let (answer, design) = on_counts(alloc, design, flush + 1, steps, given)?;
    Ok((Some(answer), design))
}

/// What is found with one step more, where the design is wrong, and the design again.
fn on_more_steps(
    alloc: Global,
    design: Design,
    own: Finding,
    given: bool,
) -> Result<(Option<Finding>, Design), AllocError>
    requires { IsLawful (design_view design) }
    ensures found { IfOk result (λ r. IsMoreSteps (design_view design) given own r.0) }
    ensures again { IfOk result (λ r. design_view r.1 ≡ design_view design) }
{
    let (flush, steps) = (design.flush, design.steps);
    if !is_wrong(own) || steps >= MOST_STEPS {
        return Ok((None, design));
    }
    let (answer, design) = on_counts(alloc, design, flush, steps + 1, given)?;
    Ok((Some(answer), design))
}

/// What is found without the invariant, and the design again.
fn on_no_invariant(
    alloc: Global,
    design: Design,
    given: bool,
) -> Result<(Option<Finding>, Design), AllocError>
    requires { IsLawful (design_view design) }
    ensures found { IfOk result (λ r. IsWithoutInvariant (design_view design) given r.0) }
    ensures again { IfOk result (λ r. design_view r.1 ≡ design_view design) }
{
    if !given {
        return Ok((None, design));
    }
    let (changed, lets, inv) = with_invariant(design, Sequence::new(alloc), Expr::Bool(true));
    let answer = found(alloc, &changed, false)?;
    let (design, _, _) = with_invariant(changed, lets, inv);
    Ok((Some(answer), design))
}

/// Whether the state of all false and 0 meets the invariant, where one is given.
fn on_reset(alloc: Global, design: &Design, given: bool) -> Result<Option<bool>, AllocError>
    requires { IsLawful (design_view design.now) }
    ensures { IfOk result (IsReset (design_view design.now) given) }
{
    if given {
        Ok(Some(reset_meets(alloc, design)?))
    } else {
        Ok(None)
    }
}

/// What is found where each cycle has to stand for 0 steps.
fn on_no_steps(alloc: Global, design: Design, given: bool) -> Result<Option<Finding>, AllocError>
    requires { IsLawful (design_view design) }
    ensures { IfOk result (IsWithoutSteps (design_view design) given) }
{
    if design.exact.len() >= MOST_ITEMS {
        return Ok(None);
    }
    let changed = without_steps(design)?;
    Ok(Some(found(alloc, &changed, given)?))
}

/// What is found of a lawful design, with an invariant or without one, of which this is found as it is.
pub fn findings_of(
    alloc: Global,
    design: Design,
    given: bool,
    own: Finding,
) -> Result<Findings, AllocError>
    requires lawful { IsLawful (design_view design) }
    requires own { IsFinding (design_view design) given own }
    ensures findings { IfOk result (AreFindings (design_view design) given) }
    ensures own { IfOk result (λ r. r.own ≡ own) }
{
    let (less_flushed, design) = on_less_flushed(alloc, design, given)?;
    let (more_flushed, design) = on_more_flushed(alloc, design, own, given)?;
    let (more_steps, design) = on_more_steps(alloc, design, own, given)?;
    let (without_invariant, design) = on_no_invariant(alloc, design, given)?;
    let reset = on_reset(alloc, &design, given)?;
    let without_steps = on_no_steps(alloc, design, given)?;
    Ok(Findings {
        own,
        less_flushed,
        more_flushed,
        more_steps,
        without_invariant,
        reset,
        without_steps,
    })
}
