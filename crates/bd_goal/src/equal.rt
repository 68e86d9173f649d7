//! Whether two visible states are equal, where each memory is read at a fresh address of its own.
ghost use Rattle.std.specs.Prelude.{◌≡◌, ◌<◌, ◌≤◌, ◌+◌, ◌*◌, ℕ, List, IfOk, if◌then◌else◌};
ghost use Rattle.bd_model.specs.DesignView.{design_view};
ghost use Rattle.bd_model.specs.Lawful.{IsLawful, entry_sorts};
ghost use Rattle.bd_model.specs.declared.design.Sort.TheVariants as sort;
ghost use Rattle.bd_model.specs.declared.table.Value.{Value};
ghost use Rattle.bd_terms.specs.Graph.{HasSort, KeepsSymbol};
ghost use Rattle.bd_terms.specs.declared.node.Sym.TheVariants as symbol;
ghost use Rattle.bd_terms.specs.Denotation.{World};
ghost use Rattle.bd_symbolic.specs.Symbolic.{DenoteValues, HaveSorts};
ghost use Rattle.bd_goal.specs.Formula.{is_memory, memory_count};
ghost use Rattle.bd_goal.specs.Made.{AreEqual};
ghost use Rattle.bd_goal.specs.Symbols.{GrowsKnown, KeepsAddresses};
ghost use Rattle.bd_goal.specs.inner.Shown.{EqualIn, EqualTerms, most_compared_address, Says};
ghost use Rattle.bd_model.specs.Limits.{most_items};

use bd_model::{Design, Sort};
use bd_symbolic::TermIds;
use bd_terms::{Graph, Id, Sym};
use std::alloc::AllocError;

/// How many of the visible entries are memories.
pub(crate) fn memory_count(design: &Design) -> u32
    requires { IsLawful (design_view design.now) }
    ensures count { result ≡ memory_count (design_view design.now) }
    ensures few { result ≤ most_items }
{
    let mut count = 0;
    for entry in design.spec.entries.as_slice() {
        count += advance(entry.sort, 1);
    }
    count
}

/// The term that two visible states are equal, where the memory of number m is read at the address of number `m *
/// stride + first`, and no number is too large.
pub(crate) fn equal(
    graph: &mut Graph,
    design: &Design,
    ours: &TermIds,
    theirs: &TermIds,
    first: u32,
    stride: u32,
) -> Result<Id, AllocError>
    requires lawful { IsLawful (design_view design.now) }
    requires addresses { KeepsAddresses graph.old }
    requires ours { HaveSorts graph.old ours.now (entry_sorts (design_view design.now).spec) }
    requires theirs { HaveSorts graph.old theirs.now (entry_sorts (design_view design.now).spec) }
    requires start { first ≤ most_compared_address }
    requires few { stride ≤ 9 }
    ensures sorted { IfOk result (λ id. HasSort graph.new id sort.Bool) }
    ensures says { IfOk result (λ id. (w : World) (a b : List Value)
        → DenoteValues w graph.old ours.now a
        → DenoteValues w graph.old theirs.now b
        → Says w graph.new id (EqualIn w (λ m. m * stride + first) a b)) }
    ensures made { IfOk result
        (AreEqual graph.new (design_view design.now) ours.now theirs.now first stride) }
    ensures grows { (n : ℕ) → ((m : ℕ) → m < memory_count (design_view design.now)
        → m * stride + first < n) → GrowsKnown (design_view design.now) n graph.old graph.new }
{
    let our = ours.as_slice();
    let their = theirs.as_slice();
    let mut all = graph.mk_true()?;
    let mut address = first;
    for (i, entry) in design.spec.entries.as_slice().iter().enumerate() {
        let one = equal_terms(graph, entry.sort, our[i], their[i], address)?;
        all = graph.mk_and(all, one)?;
        address += advance(entry.sort, stride);
    }
    Ok(all)
}

/// How far the number of the next memory's address is: the stride after a memory, else 0.
fn advance(kind: Sort, stride: u32) -> u32
    ensures { result ≡ (if is_memory kind then stride else 0) }
{
    match kind {
        Sort::Memory => stride,
        Sort::Bool | Sort::Word => 0,
    }
}

/// The term that two terms of a sort are equal, memories as far as they are read at the address of this number.
fn equal_terms(
    graph: &mut Graph,
    kind: Sort,
    our: Id,
    their: Id,
    address: u32,
) -> Result<Id, AllocError>
    requires our { HasSort graph.old our kind }
    requires their { HasSort graph.old their kind }
    requires address { KeepsSymbol graph.old (symbol.Address address) 0 sort.Word }
    ensures { EqualTerms graph.old graph.new kind our their address result }
{
    match kind {
        Sort::Word => graph.mk_eq(our, their),
        Sort::Bool => {
            let denied = graph.mk_not(their)?;
            graph.mk_ite(our, their, denied)
        }
        Sort::Memory => {
            let place = graph.mk_app(Sym::Address(address), &[])?;
            let ours = graph.mk_read(our, place)?;
            let theirs = graph.mk_read(their, place)?;
            graph.mk_eq(ours, theirs)
        }
    }
}
