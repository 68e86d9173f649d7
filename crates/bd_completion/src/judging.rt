//! What a case shows of a pipeline by an abstraction.
//!
//! Flushing is the simulator's own. A given abstraction is valued in the state before the cycle and in the state after
//! it, and the simulator joins what they stand for by steps of the specification.
ghost use Rattle.std.specs.Prelude.{◌≡◌, ◌↔◌, IfOk, IsTrue, map};
ghost use Rattle.std.specs.List.{AllByRecursion};
ghost use Rattle.bd_model.specs.Abstraction.{IsLawfulAbstraction, IsLawfulGiven, abstraction_of, values_by};
ghost use Rattle.bd_model.specs.Conditions.{CommutesBy, JudgedBy};
ghost use Rattle.bd_model.specs.Cycle.{step};
ghost use Rattle.bd_model.specs.DesignView.{LocalView, design_view, local_view};
ghost use Rattle.bd_model.specs.ExprView.{expr_views, list_of_views};
ghost use Rattle.bd_model.specs.Lawful.{IsLawful, IsWithinLimits};

use bd_list::Sequence;
use bd_model::{Abstraction, Case, Condition, Design, Exprs, Interp, Judged, Locals, State};
use bd_sim::{judge, meets_invariant, step, steps_join, values_after};
use std::alloc::{AllocError, Global};

/// What the case shows of the design by the abstraction, in place of flushing; where both conditions are false, the
/// invariant is named. Nothing is asked of the case: what isn't there or has another sort is false, 0 or the memory of
/// zeros.
pub fn judge_by(
    alloc: Global,
    design: &Design,
    abs: &Abstraction,
    case: &Case,
) -> Result<Judged, AllocError>
    requires lawful { IsLawful (design_view design.now) }
    requires abstraction { IsLawfulAbstraction (design_view design.now) abs.now }
    ensures { IfOk result (JudgedBy (design_view design.now)
        (abstraction_of (design_view design.now) abs.now) case.now) }
{
    match abs {
        Abstraction::Flushing => judge(alloc, design, case),
        Abstraction::Given { lets, parts } => judge_given(alloc, design, lets, parts, case),
    }
}

/// What the case shows by the values of given expressions after their lets.
fn judge_given(
    alloc: Global,
    design: &Design,
    lets: &Locals,
    parts: &Exprs,
    case: &Case,
) -> Result<Judged, AllocError>
    requires lawful { IsLawful (design_view design.now) }
    requires given { IsLawfulGiven (design_view design.now)
        (map local_view lets.now) (list_of_views (expr_views parts.now)) }
    ensures { IfOk result (JudgedBy (design_view design.now)
        (values_by (map local_view lets.now) (list_of_views (expr_views parts.now))) case.now) }
{
    if !meets_invariant(alloc, design, &case.interp, &case.state)? {
        return Ok(Judged::Outside);
    }
    let next = step(alloc, design, &case.interp, &case.state, &case.inputs)?;
    if !meets_invariant(alloc, design, &case.interp, &next)? {
        return Ok(Judged::Broken(Condition::Invariant));
    }
    if commutes(alloc, design, lets, parts, case, &next)? {
        Ok(Judged::Holds)
    } else {
        Ok(Judged::Broken(Condition::Commute))
    }
}

/// Whether some number of steps of the specification, at most the design's and allowed, leads from what the case's
/// state stands for to what `next` does, in which the cycle ends.
fn commutes(
    alloc: Global,
    design: &Design,
    lets: &Locals,
    parts: &Exprs,
    case: &Case,
    next: &State,
) -> Result<bool, AllocError>
    requires lawful { IsLawful (design_view design.now) }
    requires given { IsLawfulGiven (design_view design.now)
        (map local_view lets.now) (list_of_views (expr_views parts.now)) }
    requires next { next.now
        ≡ step (design_view design.now).pipe case.now.interp case.now.state case.now.inputs }
    ensures { IfOk result (λ b. IsTrue b ↔ CommutesBy (design_view design.now)
        (values_by (map local_view lets.now) (list_of_views (expr_views parts.now)))
        case.now.interp case.now.state case.now.inputs) }
{
    let before = values_given(alloc, lets, parts, &case.interp, &case.state)?;
    let after = values_given(alloc, lets, parts, &case.interp, next)?;
    let (interp, state, inputs) = (&case.interp, &case.state, &case.inputs);
    steps_join(alloc, design, interp, state, inputs, before, &after)
}

/// The values of given expressions after their lets, with no input: what a state stands for by an abstraction that is
/// given.
pub fn values_given(
    alloc: Global,
    lets: &Locals,
    parts: &Exprs,
    interp: &Interp,
    state: &State,
) -> Result<State, AllocError>
    requires let_limits { AllByRecursion (λ (l : LocalView). IsWithinLimits l.value)
        (map local_view lets.now) }
    requires limits { AllByRecursion IsWithinLimits (list_of_views (expr_views parts.now)) }
    ensures { IfOk result (λ visible. visible ≡ values_by
        (map local_view lets.now) (list_of_views (expr_views parts.now)) interp.now state.now) }
{
    let inputs = Sequence::new(alloc);
    values_after(alloc, lets, parts, interp, state, &inputs)
}
