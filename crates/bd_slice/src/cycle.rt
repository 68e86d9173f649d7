//! Cycles of a machine over traced values.
ghost use Rattle.std.specs.Prelude.{◌≡◌, IfOk, List, false, map, slice_index_or};
ghost use Rattle.bd_model.specs.Cycle.{step, idle_inputs, flush_cycles, spec_steps};
ghost use Rattle.bd_model.specs.DesignView.{design_view, local_view, machine_view};
ghost use Rattle.bd_model.specs.ExprView.{expr_view, expr_views, list_of_views};
ghost use Rattle.bd_model.specs.Value.{env_of, truth, value_of};
ghost use Rattle.bd_model.specs.declared.table.Scalar.{Scalar};
ghost use Rattle.bd_model.specs.declared.table.Value.{Value};
ghost use Rattle.bd_slice.specs.inner.Followed.{Other, Holds, Grows, FollowsState, FollowsInputs};
ghost use Rattle.bd_slice.specs.inner.Lines.{FollowsLine};
ghost use Rattle.bd_slice.specs.inner.Env.{FollowsNames, InOthers};

use crate::expression::{Names, trace, trace_scalar};
use crate::graph::SupportGraph;
use crate::kept::{Kept, Traced, kept_at};
use crate::line::StatePath;
use bd_model::{Case, Design, Exprs, Local, Machine, Places, Sequence};
use std::alloc::{AllocError, Global};

impl<'a> Names<'a> {
    /// What names stand for after these lets, each of which is valued once.
    fn after(
        alloc: Global,
        graph: &mut SupportGraph,
        case: &'a Case,
        locals: &[Local],
        state: &'a [Kept],
        inputs: &'a [Traced],
    ) -> Result<Names<'a>, AllocError>
        ensures grows { IfOk result (λ n. Grows graph.old.nodes graph.new.nodes) }
        ensures case { IfOk result (λ n. n.case.now ≡ case.now) }
        ensures follows { IfOk result (λ n.
            (o : Other) (values : List Value) (given : List Scalar) →
            Holds case.now graph.new.nodes o → FollowsState o state.now values →
            FollowsInputs o inputs.now given → FollowsNames o n
            (env_of (map local_view locals.now) o.case.interp values given)) }
    {
        let mut names = Names {
            alloc,
            case,
            state,
            inputs,
            lets: Vec::new(alloc),
        };
        for local in locals {
            let next = trace(graph, &names, &local.value)?;
            names.lets.push(next)?;
        }
        Ok(names)
    }
}

/// The values of expressions, in order.
fn trace_each(
    graph: &mut SupportGraph,
    names: &Names,
    exprs: &Exprs,
) -> Result<Vec<Kept>, AllocError>
    ensures grows { IfOk result (λ ks. Grows graph.old.nodes graph.new.nodes) }
    ensures follows { IfOk result (λ ks. InOthers graph.new.nodes names.now (λ o env.
        FollowsState o ks.items (map (value_of env) (list_of_views (expr_views exprs.now))))) }
{
    let mut values = Vec::new(names.alloc);
    for expr in &exprs.items {
        values.push(trace(graph, names, expr)?)?;
    }
    Ok(values)
}

/// The state after one cycle of a machine.
pub fn cycle(
    alloc: Global,
    graph: &mut SupportGraph,
    case: &Case,
    machine: &Machine,
    state: &[Kept],
    inputs: &[Traced],
) -> Result<Vec<Kept>, AllocError>
    ensures grows { IfOk result (λ ks. Grows graph.old.nodes graph.new.nodes) }
    ensures follows { IfOk result (λ ks. (o : Other) (values : List Value) (given : List Scalar) →
        Holds case.now graph.new.nodes o → FollowsState o state.now values →
        FollowsInputs o inputs.now given →
        FollowsState o ks.items (step (machine_view machine.now) o.case.interp values given)) }
{
    let names = Names::after(alloc, graph, case, machine.locals.as_slice(), state, inputs)?;
    let next = trace_each(graph, &names, &machine.nexts)?;
    Ok(next)
}

/// The inputs of a flush cycle.
fn idle(
    alloc: Global,
    graph: &mut SupportGraph,
    case: &Case,
    machine: &Machine,
    state: &[Kept],
) -> Result<Vec<Traced>, AllocError>
    ensures grows { IfOk result (λ ts. Grows graph.old.nodes graph.new.nodes) }
    ensures follows { IfOk result (λ ts. (o : Other) (values : List Value) →
        Holds case.now graph.new.nodes o → FollowsState o state.now values →
        FollowsInputs o ts.items (idle_inputs (machine_view machine.now) o.case.interp values)) }
{
    let names = Names::after(alloc, graph, case, machine.locals.as_slice(), state, &[])?;
    let mut inputs = Vec::new(alloc);
    for port in machine.ports.as_slice() {
        inputs.push(trace_scalar(graph, &names, &port.idle)?)?;
    }
    Ok(inputs)
}

/// The states from this one through so many flush cycles.
pub fn flush(
    alloc: Global,
    graph: &mut SupportGraph,
    case: &Case,
    machine: &Machine,
    state: Vec<Kept>,
    cycles: u32,
) -> Result<StatePath, AllocError>
    ensures grows { IfOk result (λ l. Grows graph.old.nodes graph.new.nodes) }
    ensures follows { IfOk result (λ l. (o : Other) (values : List Value) →
        Holds case.now graph.new.nodes o → FollowsState o state.items values →
        FollowsLine o l cycles
        (λ n. flush_cycles n (machine_view machine.now) o.case.interp values)) }
{
    let mut passed = Sequence::new(alloc);
    let mut reached = state;
    for _cycle in 0..cycles {
        let inputs = idle(alloc, graph, case, machine, reached.as_slice())?;
        let next = cycle(
            alloc,
            graph,
            case,
            machine,
            reached.as_slice(),
            inputs.as_slice(),
        )?;
        passed.push(Sequence::from_vec(reached))?;
        reached = next;
    }
    Ok(StatePath {
        passed,
        end: reached,
    })
}

/// The visible entries, in the specification's order.
pub fn look(alloc: Global, visible: &Places, state: &[Kept]) -> Result<Vec<Kept>, AllocError>
    ensures { IfOk result (λ ks. (o : Other) (values : List Value) →
        FollowsState o state.now values →
        FollowsState o ks.items (map (λ i. slice_index_or values i (truth false)) visible.now)) }
{
    let mut seen = Vec::new(alloc);
    for place in visible.as_slice() {
        seen.push(kept_at(state, *place)?)?;
    }
    Ok(seen)
}

/// What is visible from here through so many steps of the specification.
pub fn spec_steps(
    alloc: Global,
    graph: &mut SupportGraph,
    case: &Case,
    design: &Design,
    visible: Vec<Kept>,
    steps: u32,
) -> Result<StatePath, AllocError>
    ensures grows { IfOk result (λ l. Grows graph.old.nodes graph.new.nodes) }
    ensures follows { IfOk result (λ l. (o : Other) (values : List Value) →
        Holds case.now graph.new.nodes o → FollowsState o visible.items values →
        FollowsLine o l steps (λ n. spec_steps n (design_view design.now) o.case.interp values)) }
{
    let mut passed = Sequence::new(alloc);
    let mut reached = visible;
    for _step in 0..steps {
        let next = cycle(alloc, graph, case, &design.spec, reached.as_slice(), &[])?;
        passed.push(Sequence::from_vec(reached))?;
        reached = next;
    }
    Ok(StatePath {
        passed,
        end: reached,
    })
}
