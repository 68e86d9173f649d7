//! What a state of the pipeline stands for, as terms.
ghost use Rattle.std.specs.Prelude.{IfOk, map};
ghost use Rattle.bd_model.specs.DesignView.{design_view, local_view};
ghost use Rattle.bd_model.specs.ExprView.{expr_views, list_of_views};
ghost use Rattle.bd_model.specs.Lawful.{IsLawful};
ghost use Rattle.bd_symbolic.specs.DesignSymbols.{GrowsWithin, KeepsDesign};
ghost use Rattle.bd_symbolic.specs.States.{StateHasSorts};
ghost use Rattle.bd_model.specs.Abstraction.{IsLawfulAbstraction, IsLawfulGiven, abstraction_of, values_by};
ghost use Rattle.bd_symbolic.specs.Made.{AreMadeOver};
ghost use Rattle.bd_goal.specs.Made.{AreVisible, alone};
ghost use Rattle.bd_goal.specs.inner.Shown.{StandsFor};

use crate::invariant::without_inputs;
use bd_list::Sequence;
use bd_model::{Abstraction, Design, Exprs, Locals};
use bd_symbolic::{SymState, project, sym_eval, sym_flush, sym_lets};
use bd_terms::Graph;
use std::alloc::{AllocError, Global};

/// The visible entries that a state stands for by an abstraction: flushing, or given expressions.
pub(crate) fn abstracted(
    alloc: Global,
    graph: &mut Graph,
    design: &Design,
    abs: &Abstraction,
    state: &SymState,
) -> Result<SymState, AllocError>
    requires lawful { IsLawful (design_view design.now) }
    requires abstraction { IsLawfulAbstraction (design_view design.now) abs.now }
    requires keeps { KeepsDesign (design_view design.now) graph.old }
    requires sorted { StateHasSorts (design_view design.now).pipe graph.old state.now }
    ensures shown { IfOk result (λ visible. StandsFor (design_view design.now) graph.old graph.new
        state.now (abstraction_of (design_view design.now) abs.now) visible) }
    ensures made { IfOk result (λ visible.
        AreVisible graph.new (design_view design.now) abs.now state.now visible.entries) }
    ensures grows { GrowsWithin (design_view design.now) graph.old graph.new }
{
    match abs {
        Abstraction::Flushing => {
            let flushed = sym_flush(alloc, graph, design, state)?;
            project(alloc, design, &flushed)
        }
        Abstraction::Given { lets, parts } => given(alloc, graph, design, lets, parts, state),
    }
}

/// The terms of an abstraction's given expressions in a state, after their lets.
fn given(
    alloc: Global,
    graph: &mut Graph,
    design: &Design,
    lets: &Locals,
    parts: &Exprs,
    state: &SymState,
) -> Result<SymState, AllocError>
    requires lawful { IsLawful (design_view design.now) }
    requires given { IsLawfulGiven (design_view design.now)
        (map local_view lets.now) (list_of_views (expr_views parts.now)) }
    requires keeps { KeepsDesign (design_view design.now) graph.old }
    requires sorted { StateHasSorts (design_view design.now).pipe graph.old state.now }
    ensures shown { IfOk result (λ visible. StandsFor (design_view design.now) graph.old graph.new
        state.now (values_by (map local_view lets.now) (list_of_views (expr_views parts.now)))
        visible) }
    ensures made { IfOk result (λ visible. AreMadeOver graph.new (design_view design.now)
        (alone state.now) (map local_view lets.now) (list_of_views (expr_views parts.now))
        visible.entries) }
    ensures grows { GrowsWithin (design_view design.now) graph.old graph.new }
{
    let alone = without_inputs(alloc, state)?;
    let lets = sym_lets(alloc, graph, design, lets, &alone)?;
    let mut entries = Vec::new(alloc);
    for part in &parts.items {
        entries.push(sym_eval(alloc, graph, design, part, &alone, &lets)?)?;
    }
    Ok(SymState {
        entries: Sequence::from_vec(entries),
        inputs: Sequence::new(alloc),
    })
}
