//! Cycles of the two machines, over terms.
//!
//! A cycle builds the terms of the lets once and then that of each next expression, all over the old state.
ghost use Rattle.std.specs.Prelude.{◌≡◌, [], IfOk};
ghost use Rattle.std.specs.List.{AllByRecursion};
ghost use Rattle.bd_model.specs.DesignView.{design_view, machine_view};
ghost use Rattle.bd_model.specs.ExprView.{expr_views, list_of_views};
ghost use Rattle.bd_model.specs.Lawful.{IsLawful, IsLawfulMachine, IsWithinLimits, entry_sorts};
ghost use Rattle.bd_symbolic.specs.DesignSymbols.{GrowsWithin, KeepsDesign};
ghost use Rattle.bd_symbolic.specs.Made.{AreMadeOver};
ghost use Rattle.bd_symbolic.specs.Symbolic.{AreTerms, HaveSorts, context_in};
ghost use Rattle.bd_symbolic.specs.Terms.{terms_of};
ghost use Rattle.bd_symbolic.specs.States.{DenotesStep, DenotesSpecStep, StateHasSorts};
ghost use Rattle.bd_symbolic.specs.inner.Cycles.{DenotesCycle};
ghost use Rattle.bd_symbolic.specs.inner.Evaluates.{DenoteExprs, HasSomeSort};

use crate::eval::sym_eval;
use crate::lets::sym_lets;
use crate::state::{SymState, TermIds, copy_of};
use bd_list::Sequence;
use bd_model::{Design, Exprs, Machine};
use bd_terms::Graph;
use std::alloc::{AllocError, Global};

/// The state after one cycle of the pipeline: the terms of the next expressions in this state, and its inputs. If
/// memory runs out, the graph may keep further nodes.
pub fn sym_step(
    alloc: Global,
    graph: &mut Graph,
    design: &Design,
    state: &SymState,
) -> Result<SymState, AllocError>
    requires lawful { IsLawful (design_view design.now) }
    requires keeps { KeepsDesign (design_view design.now) graph.old }
    requires sorted { StateHasSorts (design_view design.now).pipe graph.old state.now }
    ensures sorted { IfOk result (StateHasSorts (design_view design.now).pipe graph.new) }
    ensures inputs { IfOk result (λ next. next.inputs ≡ state.now.inputs) }
    ensures denotes { IfOk result
        (DenotesStep (design_view design.now) graph.old graph.new state.now) }
    ensures made { IfOk result (λ next. AreMadeOver graph.new (design_view design.now) state.now
        (design_view design.now).pipe.locals (design_view design.now).pipe.nexts next.entries) }
    ensures grows { GrowsWithin (design_view design.now) graph.old graph.new }
{
    let entries = next_entries(alloc, graph, design, &design.pipe, state)?;
    let inputs = copy_of(&state.inputs)?;
    Ok(SymState { entries, inputs })
}

/// The visible entries after one step of the specification, which has no inputs. If memory runs out, the graph
/// may keep further nodes.
pub fn sym_spec_step(
    alloc: Global,
    graph: &mut Graph,
    design: &Design,
    visible: &SymState,
) -> Result<SymState, AllocError>
    requires lawful { IsLawful (design_view design.now) }
    requires keeps { KeepsDesign (design_view design.now) graph.old }
    requires sorted { HaveSorts graph.old visible.now.entries
        (entry_sorts (design_view design.now).spec) }
    requires inputs { visible.now.inputs ≡ [] }
    ensures sorted { IfOk result (λ next.
        HaveSorts graph.new next.entries (entry_sorts (design_view design.now).spec)) }
    ensures inputs { IfOk result (λ next. next.inputs ≡ []) }
    ensures denotes { IfOk result
        (DenotesSpecStep (design_view design.now) graph.old graph.new visible.now) }
    ensures made { IfOk result (λ next. AreMadeOver graph.new (design_view design.now) visible.now
        (design_view design.now).spec.locals (design_view design.now).spec.nexts next.entries) }
    ensures grows { GrowsWithin (design_view design.now) graph.old graph.new }
{
    let entries = next_entries(alloc, graph, design, &design.spec, visible)?;
    let inputs = Sequence::new(alloc);
    Ok(SymState { entries, inputs })
}

/// The terms of a machine's next expressions in a state, after its lets.
pub(crate) fn next_entries(
    alloc: Global,
    graph: &mut Graph,
    design: &Design,
    machine: &Machine,
    state: &SymState,
) -> Result<TermIds, AllocError>
    requires lawful { IsLawfulMachine (design_view design.now) (machine_view machine.now) }
    requires keeps { KeepsDesign (design_view design.now) graph.old }
    requires sorted { StateHasSorts (machine_view machine.now) graph.old state.now }
    ensures sorted { IfOk result (λ ids.
        HaveSorts graph.new ids (entry_sorts (machine_view machine.now))) }
    ensures denotes { IfOk result (DenotesCycle (design_view design.now)
        (machine_view machine.now) graph.old graph.new state.now) }
    ensures made { IfOk result (AreMadeOver graph.new (design_view design.now) state.now
        (machine_view machine.now).locals (machine_view machine.now).nexts) }
    ensures grows { GrowsWithin (design_view design.now) graph.old graph.new }
{
    let lets = sym_lets(alloc, graph, design, &machine.locals, state)?;
    next_terms(alloc, graph, design, &machine.nexts, state, &lets)
}

/// A term for each next expression, in order, over a state and the terms of the lets.
fn next_terms(
    alloc: Global,
    graph: &mut Graph,
    design: &Design,
    nexts: &Exprs,
    state: &SymState,
    lets: &TermIds,
) -> Result<TermIds, AllocError>
    requires terms { AreTerms graph.old (terms_of (design_view design.now) state.now lets.now) }
    requires sorted { AllByRecursion (HasSomeSort (context_in graph.old
        (terms_of (design_view design.now) state.now lets.now)))
        (list_of_views (expr_views nexts.now)) }
    requires limits { AllByRecursion IsWithinLimits (list_of_views (expr_views nexts.now)) }
    ensures terms { IfOk result (DenoteExprs graph.old graph.new
        (terms_of (design_view design.now) state.now lets.now)
        (list_of_views (expr_views nexts.now))) }
    ensures grows { GrowsWithin (design_view design.now) graph.old graph.new }
{
    let mut entries = Sequence::new(alloc);
    for next in &nexts.items {
        let id = sym_eval(alloc, graph, design, next, state, lets)?;
        entries.push(id)?;
    }
    Ok(entries)
}
