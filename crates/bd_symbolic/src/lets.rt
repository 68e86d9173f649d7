//! Terms of lets.
ghost use Rattle.std.specs.Prelude.{IfOk, [], map};
ghost use Rattle.std.specs.List.{AllByRecursion};
ghost use Rattle.bd_model.specs.DesignView.{LocalView, design_view, local_view};
ghost use Rattle.bd_model.specs.Lawful.{IsWithinLimits, LetsHaveSorts};
ghost use Rattle.bd_symbolic.specs.DesignSymbols.{GrowsWithin};
ghost use Rattle.bd_symbolic.specs.Symbolic.{AreTerms, context_in};
ghost use Rattle.bd_symbolic.specs.Terms.{terms_of};
ghost use Rattle.bd_symbolic.specs.States.{DenoteLets};

use crate::eval::sym_eval;
use crate::state::{SymState, TermIds};
use bd_list::Sequence;
use bd_model::{Design, Locals};
use bd_terms::Graph;
use std::alloc::{AllocError, Global};

/// The terms of lets in a state, in order, each built once over those of the earlier lets. If memory runs out,
/// the graph may keep further nodes.
pub fn sym_lets(
    alloc: Global,
    graph: &mut Graph,
    design: &Design,
    locals: &Locals,
    state: &SymState,
) -> Result<TermIds, AllocError>
    requires terms { AreTerms graph.old (terms_of (design_view design.now) state.now []) }
    requires sorted { LetsHaveSorts
        (context_in graph.old (terms_of (design_view design.now) state.now []))
        (map local_view locals.now) }
    requires limits { AllByRecursion (λ (l : LocalView). IsWithinLimits l.value)
        (map local_view locals.now) }
    ensures lets { IfOk result (DenoteLets (design_view design.now) graph.old graph.new
        state.now (map local_view locals.now)) }
    ensures grows { GrowsWithin (design_view design.now) graph.old graph.new }
{
    let mut lets = Sequence::new(alloc);
    for local in locals.as_slice() {
        let id = sym_eval(alloc, graph, design, &local.value, state, &lets)?;
        lets.push(id)?;
    }
    Ok(lets)
}
