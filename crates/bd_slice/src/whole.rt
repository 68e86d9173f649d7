//! All states of the diagram of a case, and the values that are asked for.
ghost use Rattle.std.specs.Prelude.{◌≡◌, IfOk, IfSome};
ghost use Rattle.bd_model.specs.DesignView.{design_view};
ghost use Rattle.bd_model.specs.Fits.{Fits};
ghost use Rattle.bd_slice.specs.Columns.{column_state};
ghost use Rattle.bd_slice.specs.inner.Followed.{Other, Holds, Grows, FollowsState};
ghost use Rattle.bd_slice.specs.inner.Runs.{FollowsWhole, IsBefore, IsAfter, IsSteps, IsWhole, Pins};

use crate::column::run_of;
use crate::cycle::{flush, look, spec_steps};
use crate::graph::SupportGraph;
use crate::kept::{Kept, Traced};
use crate::line::StatePath;
use crate::place::{Column, Want};
use crate::slice::spot_of;
use bd_model::{Case, Design};
use std::alloc::{AllocError, Global};

/// The states of the diagram: both flushings of the pipeline, and the steps of the specification.
#[derive(Drop)]
pub struct Whole {
    pub before: StatePath,
    pub after: StatePath,
    pub steps: StatePath,
}

/// The flushing from the case's state.
fn before_of(
    alloc: Global,
    graph: &mut SupportGraph,
    design: &Design,
    case: &Case,
) -> Result<StatePath, AllocError>
    ensures grows { IfOk result (λ l. Grows graph.old.nodes graph.new.nodes) }
    ensures line { IfOk result (IsBefore (design_view design.now) case.now graph.new.nodes) }
{
    let first = graph.state_of(alloc, case)?;
    let line = flush(alloc, graph, case, &design.pipe, first, design.flush)?;
    Ok(line)
}

/// The steps from what is visible once the case's state is flushed.
fn steps_of(
    alloc: Global,
    graph: &mut SupportGraph,
    design: &Design,
    case: &Case,
    before: &StatePath,
) -> Result<StatePath, AllocError>
    requires { IsBefore (design_view design.now) case.now graph.old.nodes before.now }
    ensures grows { IfOk result (λ l. Grows graph.old.nodes graph.new.nodes) }
    ensures line { IfOk result (IsSteps (design_view design.now) case.now graph.new.nodes) }
{
    let visible = look(alloc, &design.visible, before.end.as_slice())?;
    let line = spec_steps(alloc, graph, case, design, visible, design.steps)?;
    Ok(line)
}

/// The flushing from the state after the case's cycle.
fn after_of(
    alloc: Global,
    graph: &mut SupportGraph,
    design: &Design,
    case: &Case,
) -> Result<StatePath, AllocError>
    ensures grows { IfOk result (λ l. Grows graph.old.nodes graph.new.nodes) }
    ensures line { IfOk result (IsAfter (design_view design.now) case.now graph.new.nodes) }
{
    let next = graph.after_cycle(alloc, design, case)?;
    let line = flush(alloc, graph, case, &design.pipe, next, design.flush)?;
    Ok(line)
}

/// All states of the diagram of a case.
pub fn whole_of(
    alloc: Global,
    graph: &mut SupportGraph,
    design: &Design,
    case: &Case,
) -> Result<Whole, AllocError>
    ensures grows { IfOk result (λ w. Grows graph.old.nodes graph.new.nodes) }
    ensures whole { IfOk result (IsWhole (design_view design.now) case.now graph.new.nodes) }
{
    let before = before_of(alloc, graph, design, case)?;
    let steps = steps_of(alloc, graph, design, case, &before)?;
    let after = after_of(alloc, graph, design, case)?;
    Ok(Whole {
        before,
        after,
        steps,
    })
}

impl Whole {
    /// The state of a column, where the diagram has it.
    fn state(&self, design: &Design, column: Column) -> Option<&[Kept]>
        ensures { IfSome result (λ state. (o : Other) →
            FollowsWhole (design_view design.now) o self.now →
            FollowsState o state.now (column_state (design_view design.now) o.case column)) }
    {
        match column {
            Column::Before(cycles) => self.before.at(cycles, design.flush),
            Column::After(cycles) => self.after.at(cycles, design.flush),
            Column::Steps(steps) => self.steps.at(steps, design.steps),
        }
    }

    /// A value that is asked for. One past the diagram's columns is run for by itself.
    pub fn wanted(
        &self,
        alloc: Global,
        graph: &mut SupportGraph,
        design: &Design,
        case: &Case,
        want: &Want,
    ) -> Result<Traced, AllocError>
        requires { IsWhole (design_view design.now) case.now graph.old.nodes self.now }
        ensures grows { IfOk result (λ t. Grows graph.old.nodes graph.new.nodes) }
        ensures pins { IfOk result
            (Pins (design_view design.now) case.now graph.new.nodes want.now) }
    {
        match self.state(design, want.column) {
            Some(state) => Ok(spot_of(alloc, graph, case, state, want.spot)?),
            None => {
                let state = run_of(alloc, graph, design, case, want.column)?;
                Ok(spot_of(alloc, graph, case, state.as_slice(), want.spot)?)
            }
        }
    }
}
