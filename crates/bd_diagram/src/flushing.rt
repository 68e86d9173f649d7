//! The states on the way down, from a state through its flush cycles.
ghost use Rattle.std.specs.Prelude.{IfOk};
ghost use Rattle.bd_model.specs.DesignView.{design_view};
ghost use Rattle.bd_diagram.specs.Flushes.{IsFlushing};
ghost use Rattle.bd_model.specs.Lawful.{IsLawful};

use bd_model::{Design, InputLists, Interp, Sequence, State, States};
use bd_sim::{idle_inputs, step};
use std::alloc::{AllocError, Global};

/// A state and the states after each of its flush cycles, and the inputs of each of these cycles.
#[derive(PartialEq, Drop)]
pub struct Flushing {
    pub states: States,
    pub inputs: InputLists,
}

/// The flush cycles from this state.
pub fn flushing_from(
    alloc: Global,
    design: &Design,
    interp: &Interp,
    state: &State,
) -> Result<Flushing, AllocError>
    requires lawful { IsLawful (design_view design.now) }
    ensures { IfOk result (λ f. IsFlushing (design_view design.now) interp.now state.now f) }
{
    let mut states = Vec::new(alloc);
    let mut inputs = Vec::new(alloc);
    let mut reached = state.clone()?;
    for _cycle in 0..design.flush {
        let idle = idle_inputs(alloc, design, interp, &reached)?;
        let next = step(alloc, design, interp, &reached, &idle)?;
        states.push(reached)?;
        inputs.push(idle)?;
        reached = next;
    }
    states.push(reached)?;
    Ok(Flushing {
        states: Sequence::from_vec(states),
        inputs: Sequence::from_vec(inputs),
    })
}
