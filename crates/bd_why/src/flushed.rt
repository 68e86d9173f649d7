//! Whether one flush cycle more makes both sides agree.
ghost use Rattle.bd_model.specs.DesignView.{design_view};
ghost use Rattle.bd_model.specs.Lawful.{IsLawful};

use bd_diagram::{Diagram, Flushing};
use bd_model::{Case, Design, State};
use bd_sim::{idle_inputs, look, step, steps_join};
use std::alloc::{AllocError, Global};

/// Whether both sides agree once the pipeline is flushed for one cycle more, before the cycle and after it.
pub fn is_short(
    alloc: Global,
    design: &Design,
    case: &Case,
    diagram: &Diagram,
) -> Result<bool, AllocError>
    requires lawful { IsLawful (design_view design.now) }
{
    let before = visible_later(alloc, design, case, &diagram.before)?;
    let after = visible_later(alloc, design, case, &diagram.after)?;
    match (before, after) {
        (Some(before), Some(after)) => {
            let Case {
                interp,
                state,
                inputs,
            } = case;
            steps_join(alloc, design, interp, state, inputs, before, &after)
        }
        _ => Ok(false),
    }
}

/// What is visible one flush cycle later.
fn visible_later(
    alloc: Global,
    design: &Design,
    case: &Case,
    flushing: &Flushing,
) -> Result<Option<State>, AllocError>
    requires lawful { IsLawful (design_view design.now) }
{
    let Some(end) = flushing.states.as_slice().last() else {
        return Ok(None);
    };
    let inputs = idle_inputs(alloc, design, &case.interp, end)?;
    let next = step(alloc, design, &case.interp, end, &inputs)?;
    Ok(Some(look(alloc, design, &next)?))
}
