//! The values of a run, state by state and cycle by cycle.
ghost use Rattle.std.specs.Prelude.{◌≡◌, ◌+◌, [], IfOk, IfSome, IfNone, map};
ghost use Rattle.std.specs.List.{AllByRecursion};
ghost use Rattle.bd_model.specs.DesignView.{LocalView, design_view, local_view};
ghost use Rattle.bd_model.specs.Lawful.{IsLawful, IsWithinLimits};
ghost use Rattle.bd_model.specs.Cycle.{flush_cycles, spec_steps, step};
ghost use Rattle.bd_model.specs.DesignView.{DesignView};
ghost use Rattle.bd_slice.specs.History.{AreMoments, HasCycle, IsHistory, moment_in};
ghost use Rattle.bd_slice.specs.inner.Moments.{flush_moment, step_moment, values_in};

use crate::place::Column;
use crate::subject::Cycle;
use bd_model::{Case, Design, Inputs, LetValues, Locals, Sequence, State, Value};
use bd_sim::{idle_inputs, let_values, look, spec_step, step, values_of_lets};
use std::alloc::{AllocError, Global};

/// A cycle's values: the state in which it begins, its inputs, and its lets.
#[derive(Drop)]
pub struct Moment {
    pub state: State,
    pub inputs: Inputs,
    pub lets: LetValues,
}

/// A list of moments.
pub type Moments = Sequence<Moment>;

/// All of a run: the case's cycle, the flush cycles before and after it, and the steps of the specification. The last
/// of each list has no cycle after it. Last the invariant after the cycle.
#[derive(Drop)]
pub struct History {
    pub first: Moment,
    pub before: Moments,
    pub after: Moments,
    pub steps: Moments,
    pub kept: Moment,
}

/// A cycle of the pipeline from this state.
fn moment_of(
    alloc: Global,
    design: &Design,
    case: &Case,
    state: State,
    inputs: Inputs,
) -> Result<Moment, AllocError>
    requires lawful { IsLawful (design_view design.now) }
    ensures { IfOk result (λ m. m
        ≡ values_in (design_view design.now).pipe.locals case.now.interp state inputs) }
{
    let lets = let_values(alloc, design, &case.interp, &state, &inputs)?;
    Ok(Moment {
        state,
        inputs,
        lets,
    })
}

/// The flush cycles from this state, and the state in which they end.
fn flushing(
    alloc: Global,
    design: &Design,
    case: &Case,
    state: State,
) -> Result<Moments, AllocError>
    requires lawful { IsLawful (design_view design.now) }
    ensures { IfOk result (AreMoments ((design_view design.now).flush + 1)
        (flush_moment (design_view design.now) case.now state)) }
{
    let mut moments = Sequence::new(alloc);
    let mut reached = state;
    for _cycle in 0..design.flush {
        let inputs = idle_inputs(alloc, design, &case.interp, &reached)?;
        let next = step(alloc, design, &case.interp, &reached, &inputs)?;
        moments.push(moment_of(alloc, design, case, reached, inputs)?)?;
        reached = next;
    }
    let inputs = idle_inputs(alloc, design, &case.interp, &reached)?;
    moments.push(moment_of(alloc, design, case, reached, inputs)?)?;
    Ok(moments)
}

/// A state, and the values of lets in it where there is no input.
fn plain_moment(
    alloc: Global,
    case: &Case,
    lets: &Locals,
    state: State,
) -> Result<Moment, AllocError>
    requires { AllByRecursion (λ (l : LocalView). IsWithinLimits l.value)
        (map local_view lets.now) }
    ensures { IfOk result (λ m. m ≡ values_in (map local_view lets.now) case.now.interp state []) }
{
    let inputs = Sequence::new(alloc);
    let lets = values_of_lets(alloc, lets, &case.interp, &state, &inputs)?;
    Ok(Moment {
        state,
        inputs,
        lets,
    })
}

/// The steps of the specification from this state.
fn stepping(
    alloc: Global,
    design: &Design,
    case: &Case,
    visible: State,
) -> Result<Moments, AllocError>
    requires lawful { IsLawful (design_view design.now) }
    ensures { IfOk result (AreMoments ((design_view design.now).steps + 1)
        (step_moment (design_view design.now) case.now visible)) }
{
    let lets = &design.spec.locals;
    let mut moments = Sequence::new(alloc);
    let mut reached = visible;
    for _step in 0..design.steps {
        let next = spec_step(alloc, design, &case.interp, &reached)?;
        moments.push(plain_moment(alloc, case, lets, reached)?)?;
        reached = next;
    }
    moments.push(plain_moment(alloc, case, lets, reached)?)?;
    Ok(moments)
}

/// The case's cycle.
fn first_moment(alloc: Global, design: &Design, case: &Case) -> Result<Moment, AllocError>
    requires lawful { IsLawful (design_view design.now) }
    ensures { IfOk result (λ m. m ≡ moment_in (design_view design.now) case.now Cycle.Case) }
{
    let state = case.state.clone()?;
    moment_of(alloc, design, case, state, case.inputs.clone()?)
}

/// The flush cycles before the case's cycle.
fn flushing_first(alloc: Global, design: &Design, case: &Case) -> Result<Moments, AllocError>
    requires lawful { IsLawful (design_view design.now) }
    ensures { IfOk result (AreMoments ((design_view design.now).flush + 1)
        (flush_moment (design_view design.now) case.now case.now.state)) }
{
    let state = case.state.clone()?;
    flushing(alloc, design, case, state)
}

/// The steps of the specification from what is visible after these flush cycles.
fn steps_after(
    alloc: Global,
    design: &Design,
    case: &Case,
    before: &Moments,
) -> Result<Moments, AllocError>
    requires lawful { IsLawful (design_view design.now) }
    requires before { AreMoments ((design_view design.now).flush + 1)
        (flush_moment (design_view design.now) case.now case.now.state) before.now }
    ensures { IfOk result (AreMoments ((design_view design.now).steps + 1)
        (λ n. moment_in (design_view design.now) case.now (Cycle.Step n))) }
{
    let visible = match before.as_slice().last() {
        Some(moment) => look(alloc, design, &moment.state)?,
        None => Sequence::new(alloc),
    };
    stepping(alloc, design, case, visible)
}

/// What follows the case's cycle: the flush cycles, and the invariant.
#[derive(Drop)]
struct Next {
    after: Moments,
    kept: Moment,
}

/// What follows the cycle that ends in this state.
fn next_of(alloc: Global, design: &Design, case: &Case, state: State) -> Result<Next, AllocError>
    requires lawful { IsLawful (design_view design.now) }
    ensures after { IfOk result (λ n. AreMoments ((design_view design.now).flush + 1)
        (flush_moment (design_view design.now) case.now state) n.after) }
    ensures kept { IfOk result (λ n. n.kept
        ≡ values_in (design_view design.now).inv_locals case.now.interp state []) }
{
    let kept = plain_moment(alloc, case, &design.inv_locals, state.clone()?)?;
    let after = flushing(alloc, design, case, state)?;
    Ok(Next { after, kept })
}

/// All of the run of a case.
pub fn history_of(alloc: Global, design: &Design, case: &Case) -> Result<History, AllocError>
    requires lawful { IsLawful (design_view design.now) }
    ensures { IfOk result (IsHistory (design_view design.now) case.now) }
{
    let state = step(alloc, design, &case.interp, &case.state, &case.inputs)?;
    let next = next_of(alloc, design, case, state)?;
    let before = flushing_first(alloc, design, case)?;
    let steps = steps_after(alloc, design, case, &before)?;
    let first = first_moment(alloc, design, case)?;
    Ok(History {
        first,
        before,
        after: next.after,
        steps,
        kept: next.kept,
    })
}

impl History {
    /// A cycle's values, where the run has it.
    pub fn cycle(&self, cycle: Cycle) -> Option<&Moment>
        ensures there { IfSome result (λ m. (d : DesignView) (c : Case) →
            IsHistory d c self.now → m.now ≡ moment_in d c cycle) }
        ensures past { IfNone result ((d : DesignView) (c : Case) →
            IsHistory d c self.now → HasCycle d cycle → ⊥) }
    {
        match cycle {
            Cycle::Case => Some(&self.first),
            Cycle::FlushBefore(n) => self.before.as_slice().get(n as usize),
            Cycle::FlushAfter(n) => self.after.as_slice().get(n as usize),
            Cycle::Step(n) => self.steps.as_slice().get(n as usize),
            Cycle::Invariant => Some(&self.kept),
        }
    }
}

impl Column {
    /// The column's number of flush cycles or steps.
    pub fn number(self) -> u32 {
        match self {
            Column::Before(n) | Column::After(n) | Column::Steps(n) => n,
        }
    }
}
