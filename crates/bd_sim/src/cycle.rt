//! Cycles of the two machines.
//!
//! A cycle values the lets once and then each next expression in the old state, so all entries change at once. A flush
//! cycle is a cycle whose inputs are valued first, in the state before it, and anew for each. The specification has no
//! inputs, so its step is a cycle with none.
ghost use Rattle.std.specs.Prelude.{◌≡◌, [], IfOk, map};
ghost use Rattle.std.specs.List.{AllByRecursion};
ghost use Rattle.bd_model.specs.DesignView.{LocalView, design_view, local_view, machine_view};
ghost use Rattle.bd_model.specs.ExprView.{expr_views, list_of_views};
ghost use Rattle.bd_model.specs.Cycle.{step, idle_inputs, flush, look, flushed};
ghost use Rattle.bd_model.specs.Lawful.{IsLawful, IsWithinLimits};
ghost use Rattle.bd_model.specs.Value.{env_of, let_values, value_of};

use crate::value::{Env, scalar, value, value_at, values};
use bd_model::{
    Design, Exprs, Inputs, Interp, LetValues, Locals, Machine, Scalar, Sequence, State, Table,
    Value,
};
use std::alloc::{AllocError, Global};

/// One cycle of the pipeline: each entry takes the value of its next expression in this state, with these
/// inputs, all at once.
pub fn step(
    alloc: Global,
    design: &Design,
    interp: &Interp,
    state: &State,
    inputs: &Inputs,
) -> Result<State, AllocError>
    requires lawful { IsLawful (design_view design.now) }
    ensures { IfOk result (λ s. s
        ≡ step (design_view design.now).pipe interp.now state.now inputs.now) }
{
    cycle(
        alloc,
        &design.pipe,
        interp.as_slice(),
        state.as_slice(),
        inputs.as_slice(),
    )
}

/// One step of the specification from these visible entries.
pub fn spec_step(
    alloc: Global,
    design: &Design,
    interp: &Interp,
    visible: &State,
) -> Result<State, AllocError>
    requires lawful { IsLawful (design_view design.now) }
    ensures { IfOk result (λ s. s ≡ step (design_view design.now).spec interp.now visible.now []) }
{
    cycle(
        alloc,
        &design.spec,
        interp.as_slice(),
        visible.as_slice(),
        &[],
    )
}

/// The pipeline after its flush cycles, in each of which every input has the value of its flush expression.
pub fn flush(
    alloc: Global,
    design: &Design,
    interp: &Interp,
    state: &State,
) -> Result<State, AllocError>
    requires lawful { IsLawful (design_view design.now) }
    ensures { IfOk result (λ s. s ≡ flush (design_view design.now) interp.now state.now) }
{
    let mut flushed = state.clone()?;
    for _cycle in 0..design.flush {
        let inputs = idle_inputs(alloc, design, interp, &flushed)?;
        flushed = step(alloc, design, interp, &flushed, &inputs)?;
    }
    Ok(flushed)
}

/// The inputs of a flush cycle from this state: the values of the flush expressions.
pub fn idle_inputs(
    alloc: Global,
    design: &Design,
    interp: &Interp,
    state: &State,
) -> Result<Inputs, AllocError>
    requires lawful { IsLawful (design_view design.now) }
    ensures { IfOk result (λ xs. xs
        ≡ idle_inputs (design_view design.now).pipe interp.now state.now) }
{
    let locals = design.pipe.locals.as_slice();
    let env = Env::new(alloc, locals, interp.as_slice(), state.as_slice(), &[])?;
    let mut inputs = Vec::new(alloc);
    for port in design.pipe.ports.as_slice() {
        inputs.push(scalar(&env, &port.idle)?)?;
    }
    Ok(Sequence::from_vec(inputs))
}

/// The values of the pipeline's lets in a cycle.
pub fn let_values(
    alloc: Global,
    design: &Design,
    interp: &Interp,
    state: &State,
    inputs: &Inputs,
) -> Result<LetValues, AllocError>
    requires lawful { IsLawful (design_view design.now) }
    ensures { IfOk result (λ vs. vs ≡ let_values
        interp.now state.now inputs.now (design_view design.now).pipe.locals) }
{
    values_of_lets(alloc, &design.pipe.locals, interp, state, inputs)
}

/// The values of lets, each from those of the earlier ones. What isn't there or has another sort is false, 0 or the
/// memory of zeros.
pub fn values_of_lets(
    alloc: Global,
    lets: &Locals,
    interp: &Interp,
    state: &State,
    inputs: &Inputs,
) -> Result<LetValues, AllocError>
    requires { AllByRecursion (λ (l : LocalView). IsWithinLimits l.value)
        (map local_view lets.now) }
    ensures { IfOk result (λ vs. vs ≡ let_values
        interp.now state.now inputs.now (map local_view lets.now)) }
{
    let (interp, state, inputs) = (interp.as_slice(), state.as_slice(), inputs.as_slice());
    let env = Env::new(alloc, lets.as_slice(), interp, state, inputs)?;
    Ok(Sequence::from_vec(env.let_values()?))
}

/// The values of expressions after lets, each of which is valued once, in order. What isn't there or has another sort
/// is false, 0 or the memory of zeros.
pub fn values_after(
    alloc: Global,
    lets: &Locals,
    exprs: &Exprs,
    interp: &Interp,
    state: &State,
    inputs: &Inputs,
) -> Result<State, AllocError>
    requires let_limits { AllByRecursion (λ (l : LocalView). IsWithinLimits l.value)
        (map local_view lets.now) }
    requires limits { AllByRecursion IsWithinLimits (list_of_views (expr_views exprs.now)) }
    ensures { IfOk result (λ vs. vs ≡ map
        (value_of (env_of (map local_view lets.now) interp.now state.now inputs.now))
        (list_of_views (expr_views exprs.now))) }
{
    let (interp, state, inputs) = (interp.as_slice(), state.as_slice(), inputs.as_slice());
    let env = Env::new(alloc, lets.as_slice(), interp, state, inputs)?;
    Ok(Sequence::from_vec(values(&env, exprs)?))
}

/// The visible entries, in the specification's order.
pub fn look(alloc: Global, design: &Design, state: &State) -> Result<State, AllocError>
    ensures { IfOk result (λ s. s ≡ look (design_view design.now) state.now) }
{
    let mut visible = Vec::new(alloc);
    for place in design.visible.as_slice() {
        visible.push(value_at(state.as_slice(), *place)?)?;
    }
    Ok(Sequence::from_vec(visible))
}

/// Where the specification would stand if the pipeline were flushed now.
pub fn flushed(
    alloc: Global,
    design: &Design,
    interp: &Interp,
    state: &State,
) -> Result<State, AllocError>
    requires lawful { IsLawful (design_view design.now) }
    ensures { IfOk result (λ s. s ≡ flushed (design_view design.now) interp.now state.now) }
{
    let end = flush(alloc, design, interp, state)?;
    look(alloc, design, &end)
}

/// One cycle of a machine.
fn cycle(
    alloc: Global,
    machine: &Machine,
    interp: &[Table],
    state: &[Value],
    inputs: &[Scalar],
) -> Result<State, AllocError>
    ensures { IfOk result (λ s. s
        ≡ step (machine_view machine.now) interp.now state.now inputs.now) }
{
    let env = Env::new(alloc, machine.locals.as_slice(), interp, state, inputs)?;
    Ok(Sequence::from_vec(values(&env, &machine.nexts)?))
}
