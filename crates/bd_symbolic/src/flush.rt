//! Flush cycles, over terms.
//!
//! The inputs of a flush cycle are the terms of the flush expressions in the state before it, built anew for each
//! cycle. A flush expression uses no input, so those of the cycle before it may stand for the inputs meanwhile: where
//! they are constants, as mostly, the lets come out as the same terms and are kept once.
ghost use Rattle.std.specs.Prelude.{◌≡◌, IfOk, map};
ghost use Rattle.std.specs.List.{AllByRecursion};
ghost use Rattle.bd_model.specs.DesignView.{design_view, port_view, PortView};
ghost use Rattle.bd_model.specs.Lawful.{IsLawful, IsWithinLimits};
ghost use Rattle.bd_symbolic.specs.DesignSymbols.{GrowsWithin, KeepsDesign};
ghost use Rattle.bd_symbolic.specs.Made.{AreFlushed, AreMadeOver, IsFlushCycle};
ghost use Rattle.bd_symbolic.specs.Symbolic.{AreTerms, context_in};
ghost use Rattle.bd_symbolic.specs.Terms.{terms_of};
ghost use Rattle.bd_symbolic.specs.States.{DenotesFlush, StateHasSorts};
ghost use Rattle.bd_symbolic.specs.inner.Cycles.{DenotesFlushCycle, DenotesIdle};
ghost use Rattle.bd_symbolic.specs.inner.Evaluates.{DenoteExprs, HasSomeSort};

use crate::cycle::next_entries;
use crate::eval::sym_eval;
use crate::lets::sym_lets;
use crate::state::{SymState, TermIds, copy_of};
use bd_list::Sequence;
use bd_model::{Design, Ports};
use bd_terms::Graph;
use std::alloc::{AllocError, Global};

/// The state after the flush cycles, and the inputs of this state. If memory runs out, the graph may keep
/// further nodes.
pub fn sym_flush(
    alloc: Global,
    graph: &mut Graph,
    design: &Design,
    state: &SymState,
) -> Result<SymState, AllocError>
    requires lawful { IsLawful (design_view design.now) }
    requires keeps { KeepsDesign (design_view design.now) graph.old }
    requires sorted { StateHasSorts (design_view design.now).pipe graph.old state.now }
    ensures sorted { IfOk result (StateHasSorts (design_view design.now).pipe graph.new) }
    ensures inputs { IfOk result (λ flushed. flushed.inputs ≡ state.now.inputs) }
    ensures denotes { IfOk result
        (DenotesFlush (design_view design.now) graph.old graph.new state.now) }
    ensures made { IfOk result (λ flushed. AreFlushed graph.new (design_view design.now)
        design.now.flush state.now flushed.entries) }
    ensures grows { GrowsWithin (design_view design.now) graph.old graph.new }
{
    let inputs = copy_of(&state.inputs)?;
    let mut flushed = SymState {
        entries: copy_of(&state.entries)?,
        inputs: copy_of(&state.inputs)?,
    };
    for _cycle in 0..design.flush {
        flushed = flush_cycle(alloc, graph, design, flushed)?;
    }
    Ok(SymState {
        entries: flushed.entries,
        inputs,
    })
}

/// The state after one flush cycle, and the inputs of that cycle.
fn flush_cycle(
    alloc: Global,
    graph: &mut Graph,
    design: &Design,
    state: SymState,
) -> Result<SymState, AllocError>
    requires lawful { IsLawful (design_view design.now) }
    requires keeps { KeepsDesign (design_view design.now) graph.old }
    requires sorted { StateHasSorts (design_view design.now).pipe graph.old state }
    ensures sorted { IfOk result (StateHasSorts (design_view design.now).pipe graph.new) }
    ensures denotes { IfOk result
        (DenotesFlushCycle (design_view design.now) graph.old graph.new state) }
    ensures made { IfOk result (IsFlushCycle graph.new (design_view design.now) state) }
    ensures grows { GrowsWithin (design_view design.now) graph.old graph.new }
{
    let inputs = idle_inputs(alloc, graph, design, &state)?;
    let idle = SymState {
        entries: state.entries,
        inputs,
    };
    let entries = next_entries(alloc, graph, design, &design.pipe, &idle)?;
    Ok(SymState {
        entries,
        inputs: idle.inputs,
    })
}

/// The terms of the flush expressions in a state, after the pipeline's lets.
fn idle_inputs(
    alloc: Global,
    graph: &mut Graph,
    design: &Design,
    state: &SymState,
) -> Result<TermIds, AllocError>
    requires lawful { IsLawful (design_view design.now) }
    requires keeps { KeepsDesign (design_view design.now) graph.old }
    requires sorted { StateHasSorts (design_view design.now).pipe graph.old state.now }
    ensures idle { IfOk result
        (DenotesIdle (design_view design.now) graph.old graph.new state.now) }
    ensures made { IfOk result (AreMadeOver graph.new (design_view design.now) state.now
        (design_view design.now).pipe.locals
        (map (λ (p : PortView). p.idle) (design_view design.now).pipe.ports)) }
    ensures grows { GrowsWithin (design_view design.now) graph.old graph.new }
{
    let lets = sym_lets(alloc, graph, design, &design.pipe.locals, state)?;
    let inputs = idle_terms(alloc, graph, design, &design.pipe.ports, state, &lets)?;
    // Each term of the graph denotes what its sort says.
    let _terms = graph.len();
    Ok(inputs)
}

/// A term for each input's flush expression, in order, over a state and the terms of the lets.
fn idle_terms(
    alloc: Global,
    graph: &mut Graph,
    design: &Design,
    ports: &Ports,
    state: &SymState,
    lets: &TermIds,
) -> Result<TermIds, AllocError>
    requires terms { AreTerms graph.old (terms_of (design_view design.now) state.now lets.now) }
    requires sorted { AllByRecursion (HasSomeSort (context_in graph.old
        (terms_of (design_view design.now) state.now lets.now)))
        (map (λ (p : PortView). p.idle) (map port_view ports.now)) }
    requires limits { AllByRecursion (λ (p : PortView). IsWithinLimits p.idle)
        (map port_view ports.now) }
    ensures terms { IfOk result (DenoteExprs graph.old graph.new
        (terms_of (design_view design.now) state.now lets.now)
        (map (λ (p : PortView). p.idle) (map port_view ports.now))) }
    ensures grows { GrowsWithin (design_view design.now) graph.old graph.new }
{
    let mut inputs = Sequence::new(alloc);
    for port in ports.as_slice() {
        let id = sym_eval(alloc, graph, design, &port.idle, state, lets)?;
        inputs.push(id)?;
    }
    Ok(inputs)
}
