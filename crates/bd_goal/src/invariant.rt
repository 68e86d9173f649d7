//! The invariant as a term.
ghost use Rattle.std.specs.Prelude.{◌≡◌, List, [], IfOk};
ghost use Rattle.bd_model.specs.Conditions.{MeetsInvariant};
ghost use Rattle.bd_model.specs.DesignView.{design_view};
ghost use Rattle.bd_model.specs.Lawful.{IsLawful};
ghost use Rattle.bd_model.specs.declared.design.Sort.TheVariants as sort;
ghost use Rattle.bd_model.specs.declared.table.Scalar.{Scalar};
ghost use Rattle.bd_model.specs.declared.table.Table.{Table};
ghost use Rattle.bd_model.specs.declared.table.Value.{Value};
ghost use Rattle.bd_terms.specs.Denotation.{World};
ghost use Rattle.bd_terms.specs.Graph.{HasSort};
ghost use Rattle.bd_symbolic.specs.DesignSymbols.{GrowsWithin, KeepsDesign};
ghost use Rattle.bd_symbolic.specs.States.{DenotesState, StateHasSorts};
ghost use Rattle.bd_goal.specs.Claims.{Claims};
ghost use Rattle.bd_goal.specs.Formula.{IsOutside};
ghost use Rattle.bd_goal.specs.Made.{IsDenial, IsInvariant};
ghost use Rattle.bd_goal.specs.Symbols.{ReachesKnown};
ghost use Rattle.bd_goal.specs.inner.Shown.{Says};

use bd_list::Sequence;
use bd_model::Design;
use bd_symbolic::{SymState, sym_eval, sym_lets, sym_state};
use bd_terms::{Graph, Id};
use std::alloc::{AllocError, Global};

/// The term that the invariant is false in the first state. If memory runs out, the graph may keep further
/// nodes.
pub fn meets(alloc: Global, graph: &mut Graph, design: &Design) -> Result<Id, AllocError>
    requires lawful { IsLawful (design_view design.now) }
    requires empty { graph.old ≡ [] }
    ensures sorted { IfOk result (λ root. HasSort graph.new root sort.Bool) }
    ensures denotes { IfOk result (λ root.
        Claims (design_view design.now) (IsOutside (design_view design.now)) graph.new root) }
    ensures made { IfOk result (IsDenial graph.new (design_view design.now)) }
    ensures symbols { IfOk result (ReachesKnown (design_view design.now) 0 graph.new) }
    ensures grows { GrowsWithin (design_view design.now) graph.old graph.new }
{
    let state = sym_state(alloc, graph, design)?;
    let inside = invariant(alloc, graph, design, &state)?;
    graph.mk_not(inside)
}

/// The term of the invariant in a state.
pub(crate) fn invariant(
    alloc: Global,
    graph: &mut Graph,
    design: &Design,
    state: &SymState,
) -> Result<Id, AllocError>
    requires lawful { IsLawful (design_view design.now) }
    requires keeps { KeepsDesign (design_view design.now) graph.old }
    requires sorted { StateHasSorts (design_view design.now).pipe graph.old state.now }
    ensures sorted { IfOk result (λ id. HasSort graph.new id sort.Bool) }
    ensures says { IfOk result (λ id. (w : World) (interp : List Table) (values : List Value)
        (inputs : List Scalar)
        → DenotesState (design_view design.now) w graph.old state.now interp values inputs
        → Says w graph.new id (MeetsInvariant (design_view design.now) interp values)) }
    ensures made { IfOk result (IsInvariant graph.new (design_view design.now) state.now) }
    ensures grows { GrowsWithin (design_view design.now) graph.old graph.new }
{
    let alone = without_inputs(alloc, state)?;
    let lets = sym_lets(alloc, graph, design, &design.inv_locals, &alone)?;
    sym_eval(alloc, graph, design, &design.inv, &alone, &lets)
}

/// A state with the same entries and no inputs, in which what uses no input is built.
pub(crate) fn without_inputs(alloc: Global, state: &SymState) -> Result<SymState, AllocError>
    ensures entries { IfOk result (λ alone. alone.entries ≡ state.now.entries) }
    ensures inputs { IfOk result (λ alone. alone.inputs ≡ []) }
{
    Ok(SymState {
        entries: state.entries.clone()?,
        inputs: Sequence::new(alloc),
    })
}
