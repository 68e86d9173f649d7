//! What a trail shows: the first of its cycles that doesn't commute. Each state is flushed once, since what stands
//! after a cycle stands before the next.
ghost use Rattle.std.specs.Prelude.{◌≤◌, IfOk, length};
ghost use Rattle.bd_model.specs.DesignView.{design_view};
ghost use Rattle.bd_model.specs.Lawful.{IsLawful};
ghost use Rattle.bd_model.specs.TrailJudged.{IsTrailJudged};
ghost use Rattle.bd_model.specs.Limits.{most_cycles};

use crate::cycle::{flushed, step};
use crate::judgement::{meets_invariant, steps_join};
use bd_model::{Design, Trail, TrailJudged};
use std::alloc::{AllocError, Global};

/// What the trail shows of the design, whose invariant counts in the first state alone. A cycle's number counts from 1.
pub fn judge_trail(alloc: Global, design: &Design, trail: &Trail) -> Result<TrailJudged, AllocError>
    requires lawful { IsLawful (design_view design.now) }
    requires short { length trail.now.inputs ≤ most_cycles }
    ensures { IfOk result (λ j. IsTrailJudged (design_view design.now) trail.now j) }
{
    if !meets_invariant(alloc, design, &trail.interp, &trail.state)? {
        return Ok(TrailJudged::Outside);
    }
    let mut cycle = 0u32;
    let mut state = trail.state.clone()?;
    let mut before = flushed(alloc, design, &trail.interp, &state)?;
    for inputs in trail.inputs.as_slice() {
        cycle += 1;
        let next = step(alloc, design, &trail.interp, &state, inputs)?;
        let after = flushed(alloc, design, &trail.interp, &next)?;
        if !steps_join(alloc, design, &trail.interp, &state, inputs, before, &after)? {
            return Ok(TrailJudged::Broken(cycle));
        }
        state = next;
        before = after;
    }
    Ok(TrailJudged::Holds)
}
