//! A state of the diagram of a case, each value with what it rests on.
ghost use Rattle.std.specs.Prelude.{◌≡◌, IfOk};
ghost use Rattle.bd_model.specs.DesignView.{design_view, DesignView};
ghost use Rattle.bd_model.specs.Fits.{Fits};
ghost use Rattle.bd_slice.specs.inner.Followed.{Other, Holds, Grows, FollowsKept, FollowsState, FollowsInputs};
ghost use Rattle.bd_slice.specs.inner.Runs.{IsRun, FollowsEntry};

use crate::cycle::{cycle, flush, look, spec_steps};
use crate::graph::SupportGraph;
use crate::kept::{Base, Kept, Traced, TracedMemory};
use crate::place::{CasePlace, Column};
use bd_model::{Case, Design, Sequence, Value};
use std::alloc::{AllocError, Global};

/// The state of a case's diagram, with what its values rest on.
pub fn run_of(
    alloc: Global,
    graph: &mut SupportGraph,
    design: &Design,
    case: &Case,
    column: Column,
) -> Result<Vec<Kept>, AllocError>
    ensures grows { IfOk result (λ ks. Grows graph.old.nodes graph.new.nodes) }
    ensures run { IfOk result (λ ks.
        IsRun (design_view design.now) case.now column graph.new.nodes ks.items) }
{
    match column {
        Column::Before(cycles) => run_before(alloc, graph, design, case, cycles),
        Column::After(cycles) => run_after(alloc, graph, design, case, cycles),
        Column::Steps(steps) => run_steps(alloc, graph, design, case, steps),
    }
}

/// The values of all entries before the cycle, once the pipeline is flushed for so many cycles.
fn run_before(
    alloc: Global,
    graph: &mut SupportGraph,
    design: &Design,
    case: &Case,
    cycles: u32,
) -> Result<Vec<Kept>, AllocError>
    ensures grows { IfOk result (λ ks. Grows graph.old.nodes graph.new.nodes) }
    ensures run { IfOk result (λ ks.
        IsRun (design_view design.now) case.now (Column.Before cycles) graph.new.nodes ks.items) }
{
    let first = graph.state_of(alloc, case)?;
    let line = flush(alloc, graph, case, &design.pipe, first, cycles)?;
    Ok(line.end)
}

/// The values of all entries after the cycle, once the pipeline is flushed for so many cycles more.
fn run_after(
    alloc: Global,
    graph: &mut SupportGraph,
    design: &Design,
    case: &Case,
    cycles: u32,
) -> Result<Vec<Kept>, AllocError>
    ensures grows { IfOk result (λ ks. Grows graph.old.nodes graph.new.nodes) }
    ensures run { IfOk result (λ ks.
        IsRun (design_view design.now) case.now (Column.After cycles) graph.new.nodes ks.items) }
{
    let next = graph.after_cycle(alloc, design, case)?;
    let line = flush(alloc, graph, case, &design.pipe, next, cycles)?;
    Ok(line.end)
}

/// The visible values after so many steps of the specification from where the flushed pipeline stands.
fn run_steps(
    alloc: Global,
    graph: &mut SupportGraph,
    design: &Design,
    case: &Case,
    steps: u32,
) -> Result<Vec<Kept>, AllocError>
    ensures grows { IfOk result (λ ks. Grows graph.old.nodes graph.new.nodes) }
    ensures run { IfOk result (λ ks.
        IsRun (design_view design.now) case.now (Column.Steps steps) graph.new.nodes ks.items) }
{
    let first = graph.state_of(alloc, case)?;
    let flushed = flush(alloc, graph, case, &design.pipe, first, design.flush)?;
    let visible = look(alloc, &design.visible, flushed.end.as_slice())?;
    let line = spec_steps(alloc, graph, case, design, visible, steps)?;
    Ok(line.end)
}

impl SupportGraph {
    /// The state after the case's cycle.
    pub fn after_cycle(
        &mut self,
        alloc: Global,
        design: &Design,
        case: &Case,
    ) -> Result<Vec<Kept>, AllocError>
        ensures grows { IfOk result (λ ks. Grows self.old.nodes self.new.nodes) }
        ensures run { IfOk result (λ ks.
            IsRun (design_view design.now) case.now (Column.After 0) self.new.nodes ks.items) }
    {
        let first = self.state_of(alloc, case)?;
        let inputs = self.inputs_of(alloc, case)?;
        let next = cycle(
            alloc,
            self,
            case,
            &design.pipe,
            first.as_slice(),
            inputs.as_slice(),
        )?;
        Ok(next)
    }

    /// The case's state: each latch is a place, and each memory is one of the case's.
    pub fn state_of(&mut self, alloc: Global, case: &Case) -> Result<Vec<Kept>, AllocError>
        ensures grows { IfOk result (λ ks. Grows self.old.nodes self.new.nodes) }
        ensures follows { IfOk result (λ ks. (d : DesignView) (o : Other) →
            Holds case.now self.new.nodes o → Fits d case.now → Fits d o.case →
            FollowsState o ks.items o.case.state) }
    {
        let mut state = Vec::new(alloc);
        for (entry, value) in case.state.as_slice().iter().enumerate() {
            state.push(self.entry_of(alloc, value, entry)?)?;
        }
        Ok(state)
    }

    /// An entry of the case's state.
    fn entry_of(&mut self, alloc: Global, value: &Value, entry: usize) -> Result<Kept, AllocError>
        ensures grows { IfOk result (λ k. Grows self.old.nodes self.new.nodes) }
        ensures follows { IfOk result (λ k. (c : Case) (o : Other) →
            Holds c self.new.nodes o → FollowsEntry c o value.now entry k) }
    {
        match value {
            Value::Scalar(scalar) => Ok(Kept::Scalar(Traced {
                value: *scalar,
                node: self.place(CasePlace::Latch(entry))?,
            })),
            Value::Memory(_) => Ok(Kept::Memory(TracedMemory {
                base: Base::Entry(entry),
                links: Sequence::new(alloc),
                shape: 0,
            })),
        }
    }

    /// The case's inputs, each of which is a place.
    fn inputs_of(&mut self, alloc: Global, case: &Case) -> Result<Vec<Traced>, AllocError>
        ensures grows { IfOk result (λ ts. Grows self.old.nodes self.new.nodes) }
        ensures follows { IfOk result (λ ts. (d : DesignView) (o : Other) →
            Holds case.now self.new.nodes o → Fits d case.now → Fits d o.case →
            FollowsInputs o ts.items o.case.inputs) }
    {
        let mut inputs = Vec::new(alloc);
        for (i, input) in case.inputs.as_slice().iter().enumerate() {
            let node = self.place(CasePlace::Input(i))?;
            inputs.push(Traced {
                value: *input,
                node,
            })?;
        }
        Ok(inputs)
    }
}
