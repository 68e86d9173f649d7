//! What a case's run would come to if one of its values were another.
//!
//! The run goes on from the cycle in which the value is worked out, with the other value in its place.
ghost use Rattle.std.specs.Prelude.{map};
ghost use Rattle.std.specs.List.{AllByRecursion};
ghost use Rattle.bd_model.specs.DesignView.{LocalView, design_view, local_view};
ghost use Rattle.bd_model.specs.ExprView.{expr_views, list_of_views};
ghost use Rattle.bd_model.specs.Lawful.{IsLawful, IsWithinLimits};

use bd_diagram::Diagram;
use bd_model::{
    Case, Design, Exprs, Inputs, LetValues, Locals, Machine, Memory, Scalar, Sequence, Slot, State,
    Value,
};
use bd_sim::{eval, idle_inputs, look, meets_invariant, same, spec_step, step};
use bd_slice::{Cycle, History, Moment, Subject};
use std::alloc::{AllocError, Global};

/// A value of a run in place of the one that it has.
#[derive(Clone, Copy)]
pub struct Change {
    pub subject: Subject,
    pub value: Scalar,
}

/// What should be true of a run: that the invariant holds after the cycle, or that both sides agree, above all in an
/// entry of the specification after a number of steps.
#[derive(Clone, Copy)]
pub enum Goal {
    Invariant,
    Agreement { entry: u32, steps: u32 },
}

/// What a change does: nothing, one entry agrees that differed, or what should be true is.
#[derive(Clone, Copy, PartialEq, Eq)]
pub enum Effect {
    Nothing,
    Entry,
    All,
}

/// A case's run, and what should be true of it.
#[derive(Clone, Copy)]
pub struct Trial<'a> {
    pub alloc: Global,
    pub case: &'a Case,
    pub diagram: &'a Diagram,
    pub history: &'a History,
    pub goal: Goal,
}

/// What a change does to a run.
pub fn effect_of(trial: Trial<'_>, design: &Design, change: Change) -> Result<Effect, AllocError>
    requires lawful { IsLawful (design_view design.now) }
{
    let Some(cycle) = change.subject.cycle() else {
        return Ok(Effect::Nothing);
    };
    let Some(moment) = trial.history.cycle(cycle) else {
        return Ok(Effect::Nothing);
    };
    match cycle {
        Cycle::Case => {
            let state = pipe_cycle(trial, design, moment, change)?;
            after_cycle(trial, design, state)
        }
        Cycle::FlushAfter(number) => {
            let state = pipe_cycle(trial, design, moment, change)?;
            after_flush(trial, design, state, number.saturating_add(1))
        }
        Cycle::FlushBefore(number) => {
            let state = pipe_cycle(trial, design, moment, change)?;
            before_flush(trial, design, state, number.saturating_add(1))
        }
        Cycle::Step(number) => {
            let state = spec_cycle(trial, design, moment, change)?;
            after_step(trial, design, state, number.saturating_add(1))
        }
        Cycle::Invariant => in_invariant(trial, design, moment, change),
    }
}

/// What a state after the case's cycle comes to.
fn after_cycle(trial: Trial<'_>, design: &Design, state: State) -> Result<Effect, AllocError>
    requires lawful { IsLawful (design_view design.now) }
{
    match trial.goal {
        Goal::Invariant => {
            let is_met = meets_invariant(trial.alloc, design, &trial.case.interp, &state)?;
            Ok(if is_met { Effect::All } else { Effect::Nothing })
        }
        Goal::Agreement { .. } => after_flush(trial, design, state, 0),
    }
}

/// What a state after the cycle and so many flush cycles comes to.
fn after_flush(
    trial: Trial<'_>,
    design: &Design,
    state: State,
    done: u32,
) -> Result<Effect, AllocError>
    requires lawful { IsLawful (design_view design.now) }
{
    let visible = visible_from(trial, design, state, done)?;
    let mut effect = Effect::Nothing;
    let steps = trial.history.steps.as_slice().iter();
    for (moment, count) in steps.zip(0u32..u32::MAX) {
        effect = better(effect, compared(trial, count, &visible, &moment.state));
    }
    Ok(effect)
}

/// What a state after so many flush cycles before the cycle comes to.
fn before_flush(
    trial: Trial<'_>,
    design: &Design,
    state: State,
    done: u32,
) -> Result<Effect, AllocError>
    requires lawful { IsLawful (design_view design.now) }
{
    let visible = visible_from(trial, design, state, done)?;
    after_step(trial, design, visible, 0)
}

/// What a state of the specification after so many steps comes to.
fn after_step(
    trial: Trial<'_>,
    design: &Design,
    state: State,
    done: u32,
) -> Result<Effect, AllocError>
    requires lawful { IsLawful (design_view design.now) }
{
    let mut effect = compared(trial, done, &trial.diagram.visible, &state);
    let mut reached = state;
    for count in done..design.steps {
        reached = spec_step(trial.alloc, design, &trial.case.interp, &reached)?;
        let count = count.saturating_add(1);
        effect = better(
            effect,
            compared(trial, count, &trial.diagram.visible, &reached),
        );
    }
    Ok(effect)
}

/// What is visible once a state is flushed, of which so many cycles are done.
fn visible_from(
    trial: Trial<'_>,
    design: &Design,
    state: State,
    done: u32,
) -> Result<State, AllocError>
    requires lawful { IsLawful (design_view design.now) }
{
    let Trial { alloc, case, .. } = trial;
    let mut reached = state;
    for _cycle in done..design.flush {
        let inputs = idle_inputs(alloc, design, &case.interp, &reached)?;
        reached = step(alloc, design, &case.interp, &reached, &inputs)?;
    }
    look(alloc, design, &reached)
}

/// The greater of two effects.
fn better(first: Effect, second: Effect) -> Effect {
    match (first, second) {
        (Effect::All, _) | (_, Effect::All) => Effect::All,
        (Effect::Entry, _) | (_, Effect::Entry) => Effect::Entry,
        _ => Effect::Nothing,
    }
}

/// How what the flushed pipeline shows compares with the specification after so many steps.
fn compared(trial: Trial<'_>, count: u32, visible: &State, reached: &State) -> Effect {
    let Goal::Agreement { entry, steps } = trial.goal else {
        return Effect::Nothing;
    };
    let comparisons = trial.diagram.comparisons.as_slice();
    let is_allowed = match comparisons.get(count as usize) {
        Some(comparison) => comparison.allowed,
        None => false,
    };
    if is_allowed && same(visible.as_slice(), reached.as_slice()) {
        return Effect::All;
    }
    let ours = visible.as_slice().get(entry as usize);
    match (ours, reached.as_slice().get(entry as usize)) {
        (Some(ours), Some(theirs)) if count == steps && ours.same(theirs) => Effect::Entry,
        _ => Effect::Nothing,
    }
}

/// The state after a cycle of the pipeline with a change in it.
fn pipe_cycle(
    trial: Trial<'_>,
    design: &Design,
    moment: &Moment,
    change: Change,
) -> Result<State, AllocError>
    requires lawful { IsLawful (design_view design.now) }
{
    changed_cycle(trial, design, &design.pipe, moment, change)
}

/// The state after a step of the specification with a change in it.
fn spec_cycle(
    trial: Trial<'_>,
    design: &Design,
    moment: &Moment,
    change: Change,
) -> Result<State, AllocError>
    requires lawful { IsLawful (design_view design.now) }
{
    changed_cycle(trial, design, &design.spec, moment, change)
}

/// The state after a cycle with a change in it.
fn changed_cycle(
    trial: Trial<'_>,
    design: &Design,
    machine: &Machine,
    moment: &Moment,
    change: Change,
) -> Result<State, AllocError>
    requires let_limits { AllByRecursion (λ (l : LocalView). IsWithinLimits l.value)
        (map local_view machine.now.locals) }
    requires limits { AllByRecursion IsWithinLimits
        (list_of_views (expr_views machine.now.nexts)) }
{
    let inputs = changed_inputs(trial.alloc, moment, change)?;
    let lets = changed_lets(
        trial,
        design,
        &machine.locals,
        &moment.state,
        &inputs,
        change,
    )?;
    changed_nexts(
        trial,
        design,
        &machine.nexts,
        &moment.state,
        &inputs,
        &lets,
        change,
    )
}

/// The inputs of a cycle with a change in them.
fn changed_inputs(alloc: Global, moment: &Moment, change: Change) -> Result<Inputs, AllocError> {
    let Subject::Input(_, number) = change.subject else {
        return moment.inputs.clone();
    };
    let mut inputs = Sequence::new(alloc);
    for (input, place) in moment.inputs.as_slice().iter().zip(0u32..u32::MAX) {
        inputs.push(if place == number {
            change.value
        } else {
            *input
        })?;
    }
    Ok(inputs)
}

/// The values of lets with a change in one of them.
fn changed_lets(
    trial: Trial<'_>,
    design: &Design,
    locals: &Locals,
    state: &State,
    inputs: &Inputs,
    change: Change,
) -> Result<LetValues, AllocError>
    requires let_limits { AllByRecursion (λ (l : LocalView). IsWithinLimits l.value)
        (map local_view locals.now) }
{
    let Trial { alloc, case, .. } = trial;
    let mut lets = Sequence::new(alloc);
    let mut place = 0u32;
    for local in locals.as_slice() {
        let value = eval(
            alloc,
            design,
            &local.value,
            &case.interp,
            state,
            inputs,
            &lets,
        )?;
        lets.push(changed_let(alloc, place, value, change)?)?;
        place = place.saturating_add(1);
    }
    Ok(lets)
}

/// The next values of entries with a change in one of them.
fn changed_nexts(
    trial: Trial<'_>,
    design: &Design,
    nexts: &Exprs,
    state: &State,
    inputs: &Inputs,
    lets: &LetValues,
    change: Change,
) -> Result<State, AllocError>
    requires limits { AllByRecursion IsWithinLimits (list_of_views (expr_views nexts.now)) }
{
    let Trial { alloc, case, .. } = trial;
    let mut values = Sequence::new(alloc);
    let mut place = 0u32;
    for next in &nexts.items {
        let value = eval(alloc, design, next, &case.interp, state, inputs, lets)?;
        values.push(changed_next(alloc, place, value, change)?)?;
        place = place.saturating_add(1);
    }
    Ok(values)
}

/// The value of the let at a place, changed if it's the one that is.
fn changed_let(
    alloc: Global,
    place: u32,
    value: Value,
    change: Change,
) -> Result<Value, AllocError> {
    match change.subject {
        Subject::Let(_, number) if number == place => Ok(Value::Scalar(change.value)),
        Subject::LetCell(_, number, address) if number == place => {
            with_word(alloc, value, address, change.value)
        }
        _ => Ok(value),
    }
}

/// The value of the entry at a place, changed if it's the one that is.
fn changed_next(
    alloc: Global,
    place: u32,
    value: Value,
    change: Change,
) -> Result<Value, AllocError> {
    match change.subject {
        Subject::Latch(_, entry) if entry == place => Ok(Value::Scalar(change.value)),
        Subject::Cell(_, entry, address) if entry == place => {
            with_word(alloc, value, address, change.value)
        }
        _ => Ok(value),
    }
}

/// A memory with another word at an address.
fn with_word(alloc: Global, value: Value, address: u64, word: Scalar) -> Result<Value, AllocError> {
    let Value::Memory(Memory { default, rows }) = value else {
        return Ok(value);
    };
    let mut slots = Sequence::new(alloc);
    slots.push(Slot {
        address,
        value: word.word(),
    })?;
    for slot in rows.as_slice() {
        slots.push(*slot)?;
    }
    Ok(Value::Memory(Memory {
        default,
        rows: slots,
    }))
}

/// Whether the invariant is true with a change in its lets.
fn in_invariant(
    trial: Trial<'_>,
    design: &Design,
    moment: &Moment,
    change: Change,
) -> Result<Effect, AllocError>
    requires lawful { IsLawful (design_view design.now) }
{
    let Trial { alloc, case, .. } = trial;
    let (state, inputs) = (&moment.state, &moment.inputs);
    let lets = changed_lets(trial, design, &design.inv_locals, state, inputs, change)?;
    let value = eval(
        alloc,
        design,
        &design.inv,
        &case.interp,
        state,
        inputs,
        &lets,
    )?;
    Ok(match value {
        Value::Scalar(Scalar::Bool(true)) => Effect::All,
        _ => Effect::Nothing,
    })
}
