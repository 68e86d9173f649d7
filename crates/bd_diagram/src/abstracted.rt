//! Diagrams by an abstraction, which gives what a state of the pipeline stands for (Hosabettu, Srivas and Gopalakrishnan
//! 1998): in place of flushing, or beside it.
ghost use Rattle.std.specs.Prelude.{◌≡◌, ◌∷◌, [], IfOk};
ghost use Rattle.bd_model.specs.Conditions.{Abstraction};
ghost use Rattle.bd_model.specs.DesignView.{design_view};
ghost use Rattle.bd_diagram.specs.Diagrams.{IsContrast, IsDiagramBy, next_state};
ghost use Rattle.bd_model.specs.Lawful.{IsLawful};

use crate::comparison::{comparisons_of, other_of};
use crate::diagram::{Diagram, visible_end};
use crate::flushing::{Flushing, flushing_from};
use bd_model::{Case, Design, Sequence, State};
use bd_sim::{let_values, step};
use std::alloc::{AllocError, Global};

/// A state alone, without flush cycles.
fn alone(alloc: Global, state: State) -> Result<Flushing, AllocError>
    ensures { IfOk result (λ f. f.states ≡ state ∷ []) }
{
    let mut states = Vec::new(alloc);
    states.push(state)?;
    Ok(Flushing {
        states: Sequence::from_vec(states),
        inputs: Sequence::new(alloc),
    })
}

/// No state.
fn nowhere(alloc: Global) -> Flushing
    ensures { result.states ≡ [] }
{
    Flushing {
        states: Sequence::new(alloc),
        inputs: Sequence::new(alloc),
    }
}

/// The diagram of a case whose states stand for `first` before the cycle and for `stands` after it.
pub fn diagram_between(
    alloc: Global,
    design: &Design,
    case: &Case,
    first: &State,
    stands: State,
) -> Result<Diagram, AllocError>
    requires lawful { IsLawful (design_view design.now) }
    ensures { IfOk result (λ g. (abs : Abstraction)
        → first.now ≡ abs case.now.interp case.now.state
        → stands ≡ abs case.now.interp (next_state (design_view design.now) case.now)
        → IsDiagramBy (design_view design.now) abs case.now g) }
{
    let interp = &case.interp;
    let next = step(alloc, design, interp, &case.state, &case.inputs)?;
    let lets = let_values(alloc, design, interp, &case.state, &case.inputs)?;
    let comparisons = comparisons_of(alloc, design, case, first, &stands)?;
    Ok(Diagram {
        before: alone(alloc, case.state.clone()?)?,
        after: alone(alloc, next)?,
        lets,
        visible: stands,
        comparisons,
    })
}

/// What flushing makes of a case's state, beside what else it stands for.
pub fn contrast_with(
    alloc: Global,
    design: &Design,
    case: &Case,
    other: State,
) -> Result<Diagram, AllocError>
    requires lawful { IsLawful (design_view design.now) }
    ensures { IfOk result (λ g. (abs : Abstraction)
        → other ≡ abs case.now.interp case.now.state
        → IsContrast (design_view design.now) abs case.now g) }
{
    let before = flushing_from(alloc, design, &case.interp, &case.state)?;
    let visible = visible_end(alloc, design, &before)?;
    let mut comparisons = Vec::new(alloc);
    comparisons.push(other_of(alloc, &visible, other)?)?;
    Ok(Diagram {
        before,
        after: nowhere(alloc),
        lets: Sequence::new(alloc),
        visible,
        comparisons: Sequence::from_vec(comparisons),
    })
}
