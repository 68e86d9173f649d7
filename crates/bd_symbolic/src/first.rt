//! The state before the first cycle, with a symbol for each entry and each input, and the inputs of later cycles.
ghost use Rattle.std.specs.Prelude.{◌≢◌, ◌<◌, ◌+◌, ◌*◌, ◌∷◌, [], IfOk, length};
ghost use Rattle.bd_model.specs.DesignView.{design_view};
ghost use Rattle.bd_model.specs.Lawful.{IsLawful, entry_sorts};
ghost use Rattle.bd_model.specs.declared.design.Sort.TheVariants as kind;
ghost use Rattle.bd_terms.specs.Graph.{AddsUses, Extends};
ghost use Rattle.bd_terms.specs.declared.node.Sym.TheVariants as symbol;
ghost use Rattle.bd_symbolic.specs.DesignSymbols.{GrowsWithin, KeepsDesign, sort_use};
ghost use Rattle.bd_symbolic.specs.States.{DenotesCases, DenotesEntries, DenotesInputs, StateHasSorts, port_sorts};
ghost use Rattle.bd_symbolic.specs.Made.{AreFirstEntries, AreFirstInputs, IsFirstState};
ghost use Rattle.bd_symbolic.specs.Symbolic.{HaveSorts};
ghost use Rattle.bd_symbolic.specs.Widened.{widened};
ghost use Rattle.bd_symbolic.specs.inner.First.{FirstTerms, IsFirstTerm, KeepsUse};
ghost use Rattle.bd_model.specs.Limits.{most_cycles};

use crate::state::{SymState, TermIds};
use bd_list::Sequence;
use bd_model::{Design, Sort};
use bd_terms::{Graph, Id, Sym};
use std::alloc::{AllocError, Global};

/// The state before the first cycle: a symbol of the design for each latch and each input, and the first contents of
/// each memory. If memory runs out, the graph may keep further nodes.
pub fn sym_state(alloc: Global, graph: &mut Graph, design: &Design) -> Result<SymState, AllocError>
    requires lawful { IsLawful (design_view design.now) }
    requires keeps { KeepsDesign (design_view design.now) graph.old }
    ensures sorted { IfOk result (StateHasSorts (design_view design.now).pipe graph.new) }
    ensures denotes { IfOk result (DenotesCases (design_view design.now) graph.new) }
    ensures made { IfOk result (IsFirstState (design_view design.now) graph.new) }
    ensures grows { GrowsWithin (design_view design.now) graph.old graph.new }
{
    let entries = first_entries(alloc, graph, design)?;
    let inputs = first_inputs(alloc, graph, design, 0)?;
    Ok(SymState { entries, inputs })
}

/// A symbol of the design for each latch, and the first contents of each memory. If memory runs out, the graph
/// may keep further nodes.
pub fn sym_entries(alloc: Global, graph: &mut Graph, design: &Design) -> Result<TermIds, AllocError>
    requires lawful { IsLawful (design_view design.now) }
    requires keeps { KeepsDesign (design_view design.now) graph.old }
    ensures sorted { IfOk result (λ ids.
        HaveSorts graph.new ids (entry_sorts (design_view design.now).pipe)) }
    ensures denotes { IfOk result (DenotesEntries (design_view design.now) graph.new) }
    ensures made { IfOk result (AreFirstEntries (design_view design.now) graph.new) }
    ensures grows { GrowsWithin (design_view design.now) graph.old graph.new }
{
    first_entries(alloc, graph, design)
}

/// A symbol for each input in a cycle, from 0, of a run of many. If memory runs out, the graph may keep further
/// nodes.
pub fn sym_inputs(
    alloc: Global,
    graph: &mut Graph,
    design: &Design,
    cycle: u32,
) -> Result<TermIds, AllocError>
    requires lawful { IsLawful (design_view design.now) }
    requires few { cycle < most_cycles }
    requires keeps { KeepsDesign (widened (design_view design.now) (cycle + 1)) graph.old }
    ensures sorted { IfOk result (λ ids.
        HaveSorts graph.new ids (port_sorts (design_view design.now).pipe)) }
    ensures denotes { IfOk result (DenotesInputs (design_view design.now) cycle graph.new) }
    ensures made { IfOk result (AreFirstInputs (design_view design.now) cycle graph.new) }
    ensures grows { GrowsWithin (widened (design_view design.now) (cycle + 1))
        graph.old graph.new }
{
    first_inputs(alloc, graph, design, cycle)
}

/// A term for each entry of the pipeline before the first cycle, in order.
fn first_entries(alloc: Global, graph: &mut Graph, design: &Design) -> Result<TermIds, AllocError>
    requires lawful { IsLawful (design_view design.now) }
    requires keeps { KeepsDesign (design_view design.now) graph.old }
    ensures terms { IfOk result (λ ids.
        FirstTerms symbol.Entry graph.new 0 ids (entry_sorts (design_view design.now).pipe)) }
    ensures grows { GrowsWithin (design_view design.now) graph.old graph.new }
{
    let mut entries = Sequence::new(alloc);
    for entry in design.pipe.entries.as_slice() {
        let place = entries.len() as u32;
        entries.push(first_entry(graph, place, entry.sort)?)?;
    }
    Ok(entries)
}

/// A term for each input in a cycle. Cycles count from 0, and have symbols of inputs of their own.
fn first_inputs(
    alloc: Global,
    graph: &mut Graph,
    design: &Design,
    cycle: u32,
) -> Result<TermIds, AllocError>
    requires lawful { IsLawful (design_view design.now) }
    requires few { cycle < most_cycles }
    requires keeps { KeepsDesign (widened (design_view design.now) (cycle + 1)) graph.old }
    ensures terms { IfOk result (λ ids.
        FirstTerms symbol.Input graph.new (cycle * length (design_view design.now).pipe.ports)
        ids (port_sorts (design_view design.now).pipe)) }
    ensures grows { GrowsWithin (widened (design_view design.now) (cycle + 1))
        graph.old graph.new }
{
    let first = cycle * design.pipe.ports.len() as u32;
    let mut inputs = Sequence::new(alloc);
    for port in design.pipe.ports.as_slice() {
        let place = first + inputs.len() as u32;
        inputs.push(first_latch(graph, Sym::Input(place), port.sort)?)?;
    }
    Ok(inputs)
}

/// The term of the entry at a place before the first cycle: a symbol for a latch, the first contents for a memory.
fn first_entry(graph: &mut Graph, place: u32, sort: Sort) -> Result<Id, AllocError>
    requires keeps { KeepsUse graph.old (sort_use (symbol.Entry place) sort) }
    ensures term { IfOk result (IsFirstTerm graph.new (symbol.Entry place) sort) }
    ensures extends { Extends graph.old graph.new }
    ensures uses { AddsUses graph.old graph.new (sort_use (symbol.Entry place) sort ∷ []) }
{
    match sort {
        Sort::Memory => graph.mk_init(place),
        _ => first_latch(graph, Sym::Entry(place), sort),
    }
}

/// The term of a symbol of arity 0: a truth value or a word.
fn first_latch(graph: &mut Graph, sym: Sym, sort: Sort) -> Result<Id, AllocError>
    requires latch { sort ≢ kind.Memory }
    requires keeps { KeepsUse graph.old (sort_use sym sort) }
    ensures term { IfOk result (IsFirstTerm graph.new sym sort) }
    ensures extends { Extends graph.old graph.new }
    ensures uses { AddsUses graph.old graph.new (sort_use sym sort ∷ []) }
{
    if sort == Sort::Bool {
        graph.mk_pred(sym, &[])
    } else {
        graph.mk_app(sym, &[])
    }
}
