//! The formula of a bounded run.
//!
//! The cycles are built one after another over the terms of the first state, and share them. What a state is flushed to
//! after a cycle is what the next cycle starts from, so each state is flushed once.
ghost use Rattle.std.specs.Prelude.{◌≡◌, ◌≤◌, ◌<◌, ◌+◌, ◌*◌, [], IfOk};
ghost use Rattle.bd_model.specs.DesignView.{design_view};
ghost use Rattle.bd_model.specs.Lawful.{IsLawful};
ghost use Rattle.bd_model.specs.declared.design.Sort.TheVariants as sort;
ghost use Rattle.bd_terms.specs.Graph.{HasSort};
ghost use Rattle.bd_symbolic.specs.DesignSymbols.{GrowsWithin, KeepsDesign};
ghost use Rattle.bd_symbolic.specs.Widened.{widened};
ghost use Rattle.bd_goal.specs.Bounded.{ClaimsRuns};
ghost use Rattle.bd_goal.specs.Formula.{address_count};
ghost use Rattle.bd_goal.specs.Made.{IsBoundedRoot, IsCycleOfRun, IsStart};
ghost use Rattle.bd_goal.specs.Symbols.{GrowsKnown, KeepsAddresses, ReachesKnown};
ghost use Rattle.bd_goal.specs.inner.Run.{IsRun, StartsRun};
ghost use Rattle.bd_model.specs.Limits.{most_cycles};

use crate::abstracted::abstracted;
use crate::commute::commutes;
use crate::equal::memory_count;
use crate::invariant::invariant;
use crate::question::Goal;
use bd_model::{Abstraction, Design};
use bd_symbolic::{SymState, implies, sym_entries, sym_inputs, sym_step};
use bd_terms::{Graph, Id};
use std::alloc::{AllocError, Global};

/// The formula of so many cycles one after another, of which there may be none: where the invariant is true in the
/// first state, each cycle stands for some allowed number of steps, by flushing. Input i of q inputs in cycle t, from
/// 0, is `Input(t * q + i)`. If memory runs out, the graph may keep further nodes.
pub fn bounded_goal(
    alloc: Global,
    graph: &mut Graph,
    design: &Design,
    cycles: u32,
) -> Result<Goal, AllocError>
    requires lawful { IsLawful (design_view design.now) }
    requires few { cycles ≤ most_cycles }
    requires empty { graph.old ≡ [] }
    ensures sorted { IfOk result (λ goal. HasSort graph.new goal.root sort.Bool) }
    ensures denotes { IfOk result (λ goal.
        ClaimsRuns (design_view design.now) cycles graph.new goal.root) }
    ensures made { IfOk result (λ goal.
        IsBoundedRoot graph.new (design_view design.now) cycles goal.root) }
    ensures addresses { IfOk result (λ goal.
        goal.addresses ≡ cycles * address_count (design_view design.now)) }
    ensures symbols { IfOk result (λ goal.
        ReachesKnown (widened (design_view design.now) cycles) goal.addresses
        graph.new goal.root) }
    ensures grows { GrowsKnown (widened (design_view design.now) cycles)
        (cycles * address_count (design_view design.now)) graph.old graph.new }
{
    let addresses = cycles * (memory_count(design) * (design.steps + 1));
    if cycles == 0 {
        let root = graph.mk_true()?;
        return Ok(Goal { root, addresses });
    }
    let root = right_run(alloc, graph, design, cycles)?;
    Ok(Goal { root, addresses })
}

// The cycles of a run so far: the state after them, what it is flushed to, and that each of them commutes.
#[derive(Drop)]
pub(crate) struct Run {
    pub(crate) state: SymState,
    pub(crate) flushed: SymState,
    pub(crate) commutes: Id,
}

/// The term that from a state in which the invariant is true each of one cycle or more commutes.
fn right_run(
    alloc: Global,
    graph: &mut Graph,
    design: &Design,
    cycles: u32,
) -> Result<Id, AllocError>
    requires lawful { IsLawful (design_view design.now) }
    requires some { 1 ≤ cycles }
    requires few { cycles ≤ most_cycles }
    requires keeps { KeepsDesign (widened (design_view design.now) cycles) graph.old }
    requires words { KeepsAddresses graph.old }
    ensures sorted { IfOk result (λ id. HasSort graph.new id sort.Bool) }
    ensures denotes { IfOk result (ClaimsRuns (design_view design.now) cycles graph.new) }
    ensures made { IfOk result (IsBoundedRoot graph.new (design_view design.now) cycles) }
    ensures grows { GrowsKnown (widened (design_view design.now) cycles)
        (cycles * address_count (design_view design.now)) graph.old graph.new }
{
    let (inside, mut run) = no_cycle(alloc, graph, design)?;
    for cycle in 0..cycles {
        run = one_cycle_more(alloc, graph, design, run, cycle)?;
    }
    implies(graph, inside, run.commutes)
}

/// A run of no cycle yet, from the state before the first, and the term that the invariant is true in it.
fn no_cycle(alloc: Global, graph: &mut Graph, design: &Design) -> Result<(Id, Run), AllocError>
    requires lawful { IsLawful (design_view design.now) }
    requires keeps { KeepsDesign (design_view design.now) graph.old }
    ensures starts { IfOk result (λ r. StartsRun (design_view design.now) graph.new r.0 r.1) }
    ensures made { IfOk result (λ r. IsStart graph.new (design_view design.now)
        r.1.state.entries r.1.flushed r.0 r.1.commutes) }
    ensures grows { GrowsWithin (design_view design.now) graph.old graph.new }
{
    let entries = sym_entries(alloc, graph, design)?;
    let inputs = sym_inputs(alloc, graph, design, 0)?;
    let state = SymState { entries, inputs };
    let inside = invariant(alloc, graph, design, &state)?;
    let flushed = abstracted(alloc, graph, design, &Abstraction::Flushing, &state)?;
    let commutes = graph.mk_true()?;
    let run = Run {
        state,
        flushed,
        commutes,
    };
    Ok((inside, run))
}

/// The run with one cycle more, that of this number from 0, whose inputs are symbols of their own.
fn one_cycle_more(
    alloc: Global,
    graph: &mut Graph,
    design: &Design,
    run: Run,
    cycle: u32,
) -> Result<Run, AllocError>
    requires lawful { IsLawful (design_view design.now) }
    requires few { cycle < most_cycles }
    requires keeps { KeepsDesign (widened (design_view design.now) (cycle + 1)) graph.old }
    requires words { KeepsAddresses graph.old }
    requires run { IsRun (design_view design.now) graph.old cycle run }
    ensures run { IfOk result (IsRun (design_view design.now) graph.new (cycle + 1)) }
    ensures made { IfOk result (λ next. IsCycleOfRun graph.new (design_view design.now) cycle
        run.state.entries run.flushed run.commutes next.state next.flushed next.commutes) }
    ensures grows { GrowsKnown (widened (design_view design.now) (cycle + 1))
        ((cycle + 1) * address_count (design_view design.now)) graph.old graph.new }
{
    let Run {
        state,
        flushed,
        commutes: earlier,
    } = run;
    let first = cycle * (memory_count(design) * (design.steps + 1));
    let inputs = sym_inputs(alloc, graph, design, cycle)?;
    let state = SymState {
        entries: state.entries,
        inputs,
    };
    let next = sym_step(alloc, graph, design, &state)?;
    let after = abstracted(alloc, graph, design, &Abstraction::Flushing, &next)?;
    let one = commutes(alloc, graph, design, &state, flushed, &after, first)?;
    let commutes = graph.mk_and(earlier, one)?;
    Ok(Run {
        state: next,
        flushed: after,
        commutes,
    })
}
