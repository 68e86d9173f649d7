//! The diagram of a case.
//!
//! Each side is flushed once. Its last state shows where the specification would stand: before the cycle, from where
//! the specification is led on step by step, and after it, where one of these steps has to arrive.
ghost use Rattle.std.specs.Prelude.{◌≡◌, ◌<◌, [], length, slice_index_or, IfOk};
ghost use Rattle.bd_model.specs.DesignView.{design_view};
ghost use Rattle.bd_model.specs.Cycle.{look};
ghost use Rattle.bd_diagram.specs.Diagrams.{IsDiagram};
ghost use Rattle.bd_model.specs.Lawful.{IsLawful};

use crate::comparison::{Comparisons, comparisons_of};
use crate::flushing::{Flushing, flushing_from};
use bd_model::{Case, Design, LetValues, State};
use bd_sim::{let_values, look, step};
use std::alloc::{AllocError, Global};

/// Both ways round the diagram: the pipeline flushed before the cycle and after it, the values of the pipeline's lets
/// in the cycle, what is visible once the pipeline is flushed after the cycle, and each number of steps of the
/// specification compared with that.
#[derive(PartialEq, Drop)]
pub struct Diagram {
    pub before: Flushing,
    pub after: Flushing,
    pub lets: LetValues,
    pub visible: State,
    pub comparisons: Comparisons,
}

/// The diagram of a case: all that stands behind its judgement.
pub fn diagram_of(alloc: Global, design: &Design, case: &Case) -> Result<Diagram, AllocError>
    requires lawful { IsLawful (design_view design.now) }
    ensures { IfOk result (λ g. IsDiagram (design_view design.now) case.now g) }
{
    let interp = &case.interp;
    let next = step(alloc, design, interp, &case.state, &case.inputs)?;
    let before = flushing_from(alloc, design, interp, &case.state)?;
    let after = flushing_from(alloc, design, interp, &next)?;
    let lets = let_values(alloc, design, interp, &case.state, &case.inputs)?;
    let first = visible_end(alloc, design, &before)?;
    let visible = visible_end(alloc, design, &after)?;
    let comparisons = comparisons_of(alloc, design, case, &first, &visible)?;
    Ok(Diagram {
        before,
        after,
        lets,
        visible,
        comparisons,
    })
}

/// What is visible in the last of the states.
pub fn visible_end(alloc: Global, design: &Design, flushing: &Flushing) -> Result<State, AllocError>
    requires { design.now.flush < length flushing.now.states }
    ensures { IfOk result (λ s. s ≡ look (design_view design.now)
        (slice_index_or flushing.now.states design.now.flush [])) }
{
    look(alloc, design, flushing.states.get(design.flush))
}
