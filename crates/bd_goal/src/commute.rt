//! For which numbers of steps of the specification a cycle stands.
ghost use Rattle.std.specs.Prelude.{◌≤◌, ◌+◌, ◌||◌, not, List, [], IfOk, map};
ghost use Rattle.bd_model.specs.Conditions.{IsAllowed};
ghost use Rattle.bd_model.specs.DesignView.{ExactView, design_view};
ghost use Rattle.bd_model.specs.Lawful.{IsLawful, entry_sorts};
ghost use Rattle.bd_model.specs.declared.design.Sort.TheVariants as sort;
ghost use Rattle.bd_model.specs.declared.table.Scalar.{Scalar};
ghost use Rattle.bd_model.specs.declared.table.Table.{Table};
ghost use Rattle.bd_model.specs.declared.table.Value.{Value};
ghost use Rattle.bd_terms.specs.Graph.{AddsUses, Extends, HasSort};
ghost use Rattle.bd_terms.specs.Denotation.{Denotes, Truth, World, truth};
ghost use Rattle.bd_symbolic.specs.Symbolic.{DenoteValues, HaveSorts};
ghost use Rattle.bd_symbolic.specs.DesignSymbols.{GrowsWithin, KeepsDesign};
ghost use Rattle.bd_symbolic.specs.States.{DenotesState, StateHasSorts};
ghost use Rattle.bd_goal.specs.Formula.{address_count, address_number};
ghost use Rattle.bd_symbolic.specs.Made.{AreMadeOver};
ghost use Rattle.bd_goal.specs.Made.{IsAllowance, IsCommuting, IsStanding, IsUnless};
ghost use Rattle.bd_goal.specs.Symbols.{GrowsKnown, KeepsAddresses};
ghost use Rattle.bd_goal.specs.inner.Shown.{AreConditions, DenoteConditions, EqualIn, IsVisible, most_first_address, Says, StandsUpTo};

use crate::equal::equal;
use bd_list::Sequence;
use bd_model::Design;
use bd_symbolic::{SymState, TermIds, sym_eval, sym_lets, sym_spec_step};
use bd_terms::{Graph, Id};
use std::alloc::{AllocError, Global};

/// The term that the cycle from a state stands for some allowed number of steps, at most the design's, from one visible
/// state to another, where memories are read at addresses from the first one on.
pub(crate) fn commutes(
    alloc: Global,
    graph: &mut Graph,
    design: &Design,
    state: &SymState,
    before: SymState,
    after: &SymState,
    first: u32,
) -> Result<Id, AllocError>
    requires lawful { IsLawful (design_view design.now) }
    requires keeps { KeepsDesign (design_view design.now) graph.old }
    requires words { KeepsAddresses graph.old }
    requires state { StateHasSorts (design_view design.now).pipe graph.old state.now }
    requires before { IsVisible (design_view design.now) graph.old before }
    requires after { IsVisible (design_view design.now) graph.old after.now }
    requires start { first ≤ most_first_address }
    ensures sorted { IfOk result (λ id. HasSort graph.new id sort.Bool) }
    ensures says { IfOk result (λ id. (w : World) (interp : List Table) (values : List Value)
        (inputs : List Scalar) (a b : List Value)
        → DenotesState (design_view design.now) w graph.old state.now interp values inputs
        → DenoteValues w graph.old before.entries a
        → DenoteValues w graph.old after.now.entries b
        → Says w graph.new id (StandsUpTo (design_view design.now) w interp values inputs first
        a b design.now.steps)) }
    ensures made { IfOk result (IsCommuting graph.new (design_view design.now) state.now
        before after.now.entries first) }
    ensures grows { GrowsKnown (design_view design.now)
        (first + address_count (design_view design.now)) graph.old graph.new }
{
    let whens = conditions(alloc, graph, design, state)?;
    let mut joined = before;
    let mut any = stands(
        graph,
        design,
        &whens,
        &after.entries,
        &joined.entries,
        first,
        0,
    )?;
    for done in 0..design.steps {
        joined = sym_spec_step(alloc, graph, design, &joined)?;
        let one = stands(
            graph,
            design,
            &whens,
            &after.entries,
            &joined.entries,
            first,
            done + 1,
        )?;
        any = graph.mk_or(any, one)?;
    }
    Ok(any)
}

/// The term that the cycle stands for j steps: so many are allowed, and the two visible states are equal.
fn stands(
    graph: &mut Graph,
    design: &Design,
    whens: &TermIds,
    after: &TermIds,
    joined: &TermIds,
    first: u32,
    j: u32,
) -> Result<Id, AllocError>
    requires lawful { IsLawful (design_view design.now) }
    requires words { KeepsAddresses graph.old }
    requires whens { AreConditions (design_view design.now) graph.old whens.now }
    requires after { HaveSorts graph.old after.now (entry_sorts (design_view design.now).spec) }
    requires joined { HaveSorts graph.old joined.now (entry_sorts (design_view design.now).spec) }
    requires start { first ≤ most_first_address }
    requires few { j ≤ design.now.steps }
    ensures sorted { IfOk result (λ id. HasSort graph.new id sort.Bool) }
    ensures says { IfOk result (λ id. (w : World) (interp : List Table) (values : List Value)
        (inputs : List Scalar) (b c : List Value)
        → DenoteConditions (design_view design.now) w graph.old whens.now interp values inputs
        → DenoteValues w graph.old after.now b
        → DenoteValues w graph.old joined.now c
        → Says w graph.new id (IsAllowed (design_view design.now) interp values inputs j
        × EqualIn w (λ m. first + address_number (design_view design.now) m j) b c)) }
    ensures made { IfOk result (IsStanding graph.new (design_view design.now) whens.now
        after.now joined.now first j) }
    ensures grows { GrowsKnown (design_view design.now)
        (first + address_count (design_view design.now)) graph.old graph.new }
{
    let allowed = allowed(graph, design, whens, j)?;
    let same = equal(graph, design, after, joined, first + j, design.steps + 1)?;
    graph.mk_and(allowed, same)
}

/// The condition of each exact item before the cycle, in order.
fn conditions(
    alloc: Global,
    graph: &mut Graph,
    design: &Design,
    state: &SymState,
) -> Result<TermIds, AllocError>
    requires lawful { IsLawful (design_view design.now) }
    requires keeps { KeepsDesign (design_view design.now) graph.old }
    requires sorted { StateHasSorts (design_view design.now).pipe graph.old state.now }
    ensures whens { IfOk result (AreConditions (design_view design.now) graph.new) }
    ensures denotes { IfOk result (λ whens. (w : World) (interp : List Table)
        (values : List Value) (inputs : List Scalar)
        → DenotesState (design_view design.now) w graph.old state.now interp values inputs
        → DenoteConditions (design_view design.now) w graph.new whens interp values inputs) }
    ensures made { IfOk result (AreMadeOver graph.new (design_view design.now) state.now
        (design_view design.now).pipe.locals
        (map (λ (x : ExactView). x.when) (design_view design.now).exact)) }
    ensures grows { GrowsWithin (design_view design.now) graph.old graph.new }
{
    let lets = sym_lets(alloc, graph, design, &design.pipe.locals, state)?;
    let mut whens = Vec::new(alloc);
    for exact in design.exact.as_slice() {
        whens.push(sym_eval(alloc, graph, design, &exact.when, state, &lets)?)?;
    }
    Ok(Sequence::from_vec(whens))
}

/// The term that j steps are allowed: no exact item of another count has its condition true.
fn allowed(graph: &mut Graph, design: &Design, whens: &TermIds, j: u32) -> Result<Id, AllocError>
    requires { AreConditions (design_view design.now) graph.old whens.now }
    ensures sorted { IfOk result (λ id. HasSort graph.new id sort.Bool) }
    ensures says { IfOk result (λ id. (w : World) (interp : List Table) (values : List Value)
        (inputs : List Scalar)
        → DenoteConditions (design_view design.now) w graph.old whens.now interp values inputs
        → Says w graph.new id (IsAllowed (design_view design.now) interp values inputs j)) }
    ensures made { IfOk result (IsAllowance graph.new (design_view design.now) whens.now j) }
    ensures extends { Extends graph.old graph.new }
    ensures uses { AddsUses graph.old graph.new [] }
{
    let mut all = graph.mk_true()?;
    for (i, exact) in design.exact.as_slice().iter().enumerate() {
        let one = unless(graph, exact.count == j, whens.as_slice()[i])?;
        all = graph.mk_and(all, one)?;
    }
    Ok(all)
}

/// The true term if a count is free, and else the negation of a condition.
fn unless(graph: &mut Graph, is_free: bool, when: Id) -> Result<Id, AllocError>
    requires { HasSort graph.old when sort.Bool }
    ensures sorted { IfOk result (λ id. HasSort graph.new id sort.Bool) }
    ensures denotes { IfOk result (λ id. Denotes graph.new id
        (λ w. Truth (is_free || not (truth w graph.old when)))) }
    ensures made { IfOk result (IsUnless graph.new is_free when) }
    ensures extends { Extends graph.old graph.new }
    ensures uses { AddsUses graph.old graph.new [] }
{
    if is_free {
        graph.mk_true()
    } else {
        graph.mk_not(when)
    }
}
