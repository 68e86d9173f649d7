//! What the specification sees of a state of terms.
ghost use Rattle.std.specs.Prelude.{◌≡◌, IfOk, List, [], length, map, slice_index_or};
ghost use Rattle.bd_model.specs.Cycle.{look};
ghost use Rattle.bd_model.specs.DesignView.{design_view};
ghost use Rattle.bd_model.specs.Lawful.{IsLawful, entry_sorts};
ghost use Rattle.bd_model.specs.declared.table.Value.{Value};
ghost use Rattle.bd_terms.specs.Denotation.{World};
ghost use Rattle.bd_terms.specs.declared.node.Node.{Node};
ghost use Rattle.bd_symbolic.specs.Symbolic.{DenoteValues, HaveSorts};

use crate::state::{SymState, TermIds};
use bd_list::Sequence;
use bd_model::Design;
use bd_terms::Id;
use std::alloc::{AllocError, Global};

/// The terms of the visible entries, in the specification's order, and no inputs. It builds no term.
pub fn project(alloc: Global, design: &Design, state: &SymState) -> Result<SymState, AllocError>
    requires lawful { IsLawful (design_view design.now) }
    requires entries { length state.now.entries ≡ length design.now.pipe.entries }
    ensures inputs { IfOk result (λ visible. visible.inputs ≡ []) }
    ensures sorted { IfOk result (λ visible.
        (nodes : List Node)
        → HaveSorts nodes state.now.entries (entry_sorts (design_view design.now).pipe)
        → HaveSorts nodes visible.entries (entry_sorts (design_view design.now).spec)) }
    ensures denotes { IfOk result (λ visible.
        (w : World) (nodes : List Node) (values : List Value)
        → DenoteValues w nodes state.now.entries values
        → DenoteValues w nodes visible.entries (look (design_view design.now) values)) }
    ensures made { IfOk result (λ visible. visible.entries
        ≡ map (λ i. slice_index_or state.now.entries i 0) design.now.visible) }
{
    let mut entries = Vec::new(alloc);
    for place in design.visible.as_slice() {
        entries.push(term_at(&state.entries, *place))?;
    }
    Ok(SymState {
        entries: Sequence::from_vec(entries),
        inputs: Sequence::new(alloc),
    })
}

/// The term at a place of a list, from 0; the first term of a graph where there is no such place.
fn term_at(ids: &TermIds, place: u32) -> Id
    ensures { result ≡ slice_index_or ids.now place 0 }
{
    match ids.as_slice().get(place as usize) {
        Some(id) => *id,
        None => Id::default(),
    }
}
