//! The slice of several values at once: one run, and the places that any of them rests on.
ghost use Rattle.std.specs.Prelude.{◌≡◌, IfOk};
ghost use Rattle.std.specs.List.{All};
ghost use Rattle.bd_model.specs.DesignView.{design_view};
ghost use Rattle.bd_model.specs.Fits.{Fits};
ghost use Rattle.bd_model.specs.Lawful.{IsLawful};
ghost use Rattle.bd_slice.specs.Columns.{Decides};
ghost use Rattle.bd_slice.specs.inner.Followed.{Grows};
ghost use Rattle.bd_slice.specs.inner.Runs.{IsWhole, Pinned};

use crate::graph::SupportGraph;
use crate::moment::history_of;
use crate::place::{CasePlaces, Want};
use crate::reason::{Reasons, reasons_of};
use crate::slice::{marks_of, places_of};
use crate::whole::{Whole, whole_of};
use bd_model::{Case, Design};
use std::alloc::{AllocError, Global};

/// Places of a case that decide each of several values, and why these are what they are.
#[derive(Drop)]
pub struct Slices {
    pub places: CasePlaces,
    pub reasons: Reasons,
}

/// The slice of several values of the diagram. Its reasons follow the same rules, but nothing is proved of them.
pub fn slices_of(
    alloc: Global,
    design: &Design,
    case: &Case,
    wants: &[Want],
) -> Result<Slices, AllocError>
    requires lawful { IsLawful (design_view design.now) }
    requires fits { Fits (design_view design.now) case.now }
    ensures { IfOk result (λ s. All (λ w.
        Decides (design_view design.now) case.now w.column w.spot s.places) wants.now) }
{
    Ok(Slices {
        places: places_of_all(alloc, design, case, wants)?,
        reasons: reasons_for(alloc, design, case, wants)?,
    })
}

/// Why the values are what they are.
fn reasons_for(
    alloc: Global,
    design: &Design,
    case: &Case,
    wants: &[Want],
) -> Result<Reasons, AllocError>
    requires lawful { IsLawful (design_view design.now) }
{
    let mut subjects = Vec::new(alloc);
    for want in wants {
        subjects.push(want.subject())?;
    }
    let history = history_of(alloc, design, case)?;
    reasons_of(alloc, design, case, &history, subjects.as_slice())
}

/// Places that decide each of the values.
fn places_of_all(
    alloc: Global,
    design: &Design,
    case: &Case,
    wants: &[Want],
) -> Result<CasePlaces, AllocError>
    requires { Fits (design_view design.now) case.now }
    ensures { IfOk result (λ ps. All (λ w.
        Decides (design_view design.now) case.now w.column w.spot ps) wants.now) }
{
    let mut graph = SupportGraph::new(alloc)?;
    let whole = whole_of(alloc, &mut graph, design, case)?;
    let node = joined(alloc, &mut graph, design, case, &whole, wants)?;
    let nodes = graph.nodes.as_slice();
    let marks = marks_of(alloc, nodes, node)?;
    let places = places_of(alloc, nodes, marks.as_slice())?;
    Ok(places)
}

/// The node of all that these values rest on.
fn joined(
    alloc: Global,
    graph: &mut SupportGraph,
    design: &Design,
    case: &Case,
    whole: &Whole,
    wants: &[Want],
) -> Result<usize, AllocError>
    requires { IsWhole (design_view design.now) case.now graph.old.nodes whole.now }
    ensures { IfOk result (λ n. All
        (Pinned (design_view design.now) case.now graph.new.nodes n) wants.now) }
{
    let mut node = 0;
    for want in wants {
        let traced = whole.wanted(alloc, graph, design, case, want)?;
        node = graph.both(node, traced.node)?;
    }
    Ok(node)
}
