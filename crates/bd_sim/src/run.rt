//! A run, state by state.
ghost use Rattle.std.specs.Prelude.{◌≡◌, IfOk};
ghost use Rattle.bd_model.specs.DesignView.{design_view};
ghost use Rattle.bd_model.specs.Lawful.{IsLawful};
ghost use Rattle.bd_sim.specs.Trace.{trace_of, TraceIsRun};

use crate::cycle::step;
use bd_model::{Case, Design, Sequence, States};
use std::alloc::{AllocError, Global};

/// The case's state, and the states after each of these cycles, all with the case's inputs.
pub fn trace(alloc: Global, design: &Design, case: &Case, cycles: u32) -> Result<States, AllocError>
    requires lawful { IsLawful (design_view design.now) }
    ensures { IfOk result (λ states. states ≡ trace_of cycles
        (design_view design.now).pipe case.now.interp case.now.state case.now.inputs) }
{
    let mut states = Vec::new(alloc);
    let mut state = case.state.clone()?;
    for _cycle in 0..cycles {
        let next = step(alloc, design, &case.interp, &state, &case.inputs)?;
        states.push(state)?;
        state = next;
    }
    states.push(state)?;
    Ok(Sequence::from_vec(states))
}

/// The states of a trace are those of a run whose inputs are the same in each cycle.
pub fn trace_is_run()
    ensures { TraceIsRun }
{}
