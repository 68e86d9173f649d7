//! The correspondence formula, and that an abstraction agrees with flushing.
ghost use Rattle.std.specs.Prelude.{◌≡◌, ◌||◌, not, [], IfOk};
ghost use Rattle.bd_model.specs.Cycle.{flushed};
ghost use Rattle.bd_model.specs.DesignView.{design_view};
ghost use Rattle.bd_model.specs.Lawful.{IsLawful};
ghost use Rattle.bd_model.specs.declared.design.Sort.TheVariants as sort;
ghost use Rattle.bd_terms.specs.Graph.{AddsUses, Extends, HasSort};
ghost use Rattle.bd_terms.specs.Denotation.{Denotes, Truth, truth};
ghost use Rattle.bd_model.specs.Abstraction.{IsLawfulAbstraction, abstraction_of};
ghost use Rattle.bd_goal.specs.Claims.{Claims};
ghost use Rattle.bd_goal.specs.Formula.{AgreesAt, Corresponds, address_count, memory_count};
ghost use Rattle.bd_model.specs.declared.abstraction.Abstraction.TheVariants as abstraction;
ghost use Rattle.bd_goal.specs.Made.{IsAgreement, IsCorrespondence};
ghost use Rattle.bd_goal.specs.Symbols.{GrowsKnown, ReachesKnown};

use crate::abstracted::abstracted;
use crate::commute::commutes;
use crate::equal::{equal, memory_count};
use crate::invariant::invariant;
use crate::question::Goal;
use bd_model::{Abstraction, Design};
use bd_symbolic::{implies, sym_state, sym_step};
use bd_terms::{Graph, Id};
use std::alloc::{AllocError, Global};

/// The correspondence formula, where a state stands for what is visible once the pipeline is flushed. Refused for want
/// of memory, the graph may keep further nodes.
pub fn goal(alloc: Global, graph: &mut Graph, design: &Design) -> Result<Goal, AllocError>
    requires lawful { IsLawful (design_view design.now) }
    requires empty { graph.old ≡ [] }
    ensures sorted { IfOk result (λ goal. HasSort graph.new goal.root sort.Bool) }
    ensures denotes { IfOk result (λ goal. Claims (design_view design.now)
        (Corresponds (design_view design.now) (flushed (design_view design.now)))
        graph.new goal.root) }
    ensures made { IfOk result (λ goal. IsCorrespondence graph.new (design_view design.now)
        abstraction.Flushing goal.root) }
    ensures addresses { IfOk result (λ goal.
        goal.addresses ≡ address_count (design_view design.now)) }
    ensures symbols { IfOk result (λ goal.
        ReachesKnown (design_view design.now) goal.addresses graph.new goal.root) }
    ensures grows { GrowsKnown (design_view design.now)
        (address_count (design_view design.now)) graph.old graph.new }
{
    goal_by(alloc, graph, design, &Abstraction::Flushing)
}

/// The correspondence formula by an abstraction: the invariant in the state implies that it is true after the cycle,
/// and that the cycle stands for some allowed number of steps. If memory runs out, the graph may keep further
/// nodes.
pub fn goal_by(
    alloc: Global,
    graph: &mut Graph,
    design: &Design,
    abs: &Abstraction,
) -> Result<Goal, AllocError>
    requires lawful { IsLawful (design_view design.now) }
    requires abstraction { IsLawfulAbstraction (design_view design.now) abs.now }
    requires empty { graph.old ≡ [] }
    ensures sorted { IfOk result (λ goal. HasSort graph.new goal.root sort.Bool) }
    ensures denotes { IfOk result (λ goal. Claims (design_view design.now)
        (Corresponds (design_view design.now) (abstraction_of (design_view design.now) abs.now))
        graph.new goal.root) }
    ensures made { IfOk result (λ goal.
        IsCorrespondence graph.new (design_view design.now) abs.now goal.root) }
    ensures addresses { IfOk result (λ goal.
        goal.addresses ≡ address_count (design_view design.now)) }
    ensures symbols { IfOk result (λ goal.
        ReachesKnown (design_view design.now) goal.addresses graph.new goal.root) }
    ensures grows { GrowsKnown (design_view design.now)
        (address_count (design_view design.now)) graph.old graph.new }
{
    let state = sym_state(alloc, graph, design)?;
    let next = sym_step(alloc, graph, design, &state)?;
    let inside = invariant(alloc, graph, design, &state)?;
    let kept = invariant(alloc, graph, design, &next)?;
    let after = abstracted(alloc, graph, design, abs, &next)?;
    let before = abstracted(alloc, graph, design, abs, &state)?;
    let commutes = commutes(alloc, graph, design, &state, before, &after, 0)?;
    let holds = graph.mk_and(kept, commutes)?;
    let root = implies(graph, inside, holds)?;
    Ok(Goal {
        root,
        addresses: memory_count(design) * (design.steps + 1),
    })
}

/// The formula that an abstraction agrees with flushing in the first state, where the invariant is true there: latches
/// are equal, and each memory reads equal at the address of its number. If memory runs out, the graph may keep
/// further nodes.
pub fn agree_goal(
    alloc: Global,
    graph: &mut Graph,
    design: &Design,
    abs: &Abstraction,
) -> Result<Goal, AllocError>
    requires lawful { IsLawful (design_view design.now) }
    requires abstraction { IsLawfulAbstraction (design_view design.now) abs.now }
    requires empty { graph.old ≡ [] }
    ensures sorted { IfOk result (λ goal. HasSort graph.new goal.root sort.Bool) }
    ensures denotes { IfOk result (λ goal. Claims (design_view design.now)
        (AgreesAt (design_view design.now) (abstraction_of (design_view design.now) abs.now))
        graph.new goal.root) }
    ensures made { IfOk result (λ goal.
        IsAgreement graph.new (design_view design.now) abs.now goal.root) }
    ensures addresses { IfOk result (λ goal.
        goal.addresses ≡ memory_count (design_view design.now)) }
    ensures symbols { IfOk result (λ goal.
        ReachesKnown (design_view design.now) goal.addresses graph.new goal.root) }
    ensures grows { GrowsKnown (design_view design.now)
        (memory_count (design_view design.now)) graph.old graph.new }
{
    let state = sym_state(alloc, graph, design)?;
    let inside = invariant(alloc, graph, design, &state)?;
    let given = abstracted(alloc, graph, design, abs, &state)?;
    let flushed = abstracted(alloc, graph, design, &Abstraction::Flushing, &state)?;
    let same = equal(graph, design, &given.entries, &flushed.entries, 0, 1)?;
    let root = implies(graph, inside, same)?;
    Ok(Goal {
        root,
        addresses: memory_count(design),
    })
}
