//! What a case or a trail of a design has entries for, and where each name stands among them.

ghost use Rattle.std.specs.Prelude.{◌≡◌, ℕ, ◌∷◌, [], ◌++◌, ◌||◌, ◌<◌, length, map, IfOk, IfSome, OnOk, nat_eq};
ghost use Rattle.std.specs.List.{list_any};
ghost use Rattle.indexmap.specs.IndexSet.{contains};
ghost use Rattle.bd_model.specs.DesignView.{design_view, port_view};
ghost use Rattle.bd_model.specs.Lawful.{all_names};
ghost use Rattle.bd_case.specs.Kinds.{entry_kind, input_kind, is_apart, kinds, symbol_kinds};
ghost use Rattle.bd_case.specs.Reading.{place_of};
ghost use Rattle.bd_case.specs.inner.Frame.{Finds, IsFrame};

use crate::kind::{EntryKind, Layout, Version};
use bd_model::{Design, Distinct, Entry, Places, Port, Symbol};
use indexmap::{IndexMap, IndexSet};
use std::alloc::{AllocError, Global};

/// The places and the kinds of what a case or a trail of a design has entries for, in the order of its text.
#[derive(Drop)]
pub struct Frame<'a> {
    pub design: &'a Design,
    pub layout: Layout,
    pub places: IndexMap<&'a [u8], usize>,
    pub kinds: Vec<EntryKind>,
}

impl<'a> Frame<'a> {
    /// The places and the kinds of what the texts of a design in a layout have entries for.
    pub fn new(alloc: Global, design: &'a Design, layout: Layout) -> Result<Frame<'a>, AllocError>
        ensures design { IfOk result (λ frame. frame.design.now ≡ design.now) }
        ensures layout { IfOk result (λ frame. frame.layout ≡ layout) }
        ensures frame { IfOk result (λ frame. IsFrame frame) }
    {
        let names = names(alloc, design)?;
        let places = places(alloc, &names)?;
        let kinds = kinds(alloc, design, layout.version)?;
        Ok(Frame {
            design,
            layout,
            places,
            kinds,
        })
    }

    /// The place of a name.
    pub fn place(&self, name: &[u8]) -> Option<usize>
        requires { IsFrame self.now }
        ensures place { result
            ≡ place_of name.now (all_names (design_view self.now.design.now)) }
        ensures within { IfSome result (λ i. i < length self.now.kinds.items) }
    {
        self.places.get(name).copied()
    }
}

/// The names, symbols before entries and entries before inputs.
fn names(alloc: Global, design: &Design) -> Result<Vec<&[u8]>, AllocError>
    ensures { IfOk result (λ names.
        map (λ name. name.now) names.items ≡ all_names (design_view design.now)) }
{
    let mut names = Vec::new(alloc);
    for symbol in design.symbols.as_slice() {
        names.push(symbol.name.as_slice())?;
    }
    for entry in design.pipe.entries.as_slice() {
        names.push(entry.name.as_slice())?;
    }
    for port in design.pipe.ports.as_slice() {
        names.push(port.name.as_slice())?;
    }
    Ok(names)
}

/// The place of each name. Of equal names the first counts, so it's put in last.
fn places<'a>(alloc: Global, names: &[&'a [u8]]) -> Result<IndexMap<&'a [u8], usize>, AllocError>
    ensures { IfOk result (λ places. Finds places (map (λ name. name.now) names.now)) }
{
    let mut places = IndexMap::new(alloc);
    let mut at = names.len();
    while at > 0 {
        at -= 1;
        places.insert(names[at], at)?;
    }
    Ok(places)
}

/// The constants that are kept apart from others.
pub fn apart(alloc: Global, distinct: &Distinct) -> Result<IndexSet<usize>, AllocError>
    ensures { IfOk result (λ apart. (f : ℕ) → contains nat_eq apart f ≡ is_apart distinct.now f) }
{
    let mut apart = IndexSet::new(alloc);
    for group in distinct.as_slice() {
        put_group(&mut apart, group)?;
    }
    Ok(apart)
}

/// Puts the constants of a group to the others.
fn put_group(apart: &mut IndexSet<usize>, group: &Places) -> Result<(), AllocError>
    ensures { OnOk result ((f : ℕ) → contains nat_eq apart.new f
        ≡ (contains nat_eq apart.old f || list_any (nat_eq f) group.now)) }
{
    for constant in group.as_slice() {
        apart.insert(*constant as usize)?;
    }
    Ok(())
}

/// The kinds, in the order of the names.
fn kinds(alloc: Global, design: &Design, version: Version) -> Result<Vec<EntryKind>, AllocError>
    ensures { IfOk result (λ list. list.items ≡ kinds version (design_view design.now)) }
{
    let mut kinds = Vec::new(alloc);
    let apart = apart(alloc, &design.distinct)?;
    push_symbols(
        &mut kinds,
        version,
        &design.distinct,
        &apart,
        design.symbols.as_slice(),
    )?;
    push_entries(&mut kinds, design.pipe.entries.as_slice())?;
    push_ports(&mut kinds, design.pipe.ports.as_slice())?;
    Ok(kinds)
}

/// The kind of each function and predicate.
fn push_symbols(
    kinds: &mut Vec<EntryKind>,
    version: Version,
    distinct: &Distinct,
    apart: &IndexSet<usize>,
    symbols: &[Symbol],
) -> Result<(), AllocError>
    requires { (f : ℕ) → contains nat_eq apart.now f ≡ is_apart distinct.now f }
    ensures { OnOk result (kinds.new.items
        ≡ kinds.old.items ++ symbol_kinds version distinct.now 0 symbols.now) }
{
    for (f, symbol) in symbols.iter().enumerate() {
        kinds.push(EntryKind::of_symbol(version, apart.contains(&f), symbol))?;
    }
    Ok(())
}

/// The kind of each latch and memory.
fn push_entries(kinds: &mut Vec<EntryKind>, entries: &[Entry]) -> Result<(), AllocError>
    ensures { OnOk result (kinds.new.items ≡ kinds.old.items ++ map entry_kind entries.now) }
{
    for entry in entries {
        kinds.push(EntryKind::of_entry(entry.sort))?;
    }
    Ok(())
}

/// The kind of each input.
fn push_ports(kinds: &mut Vec<EntryKind>, ports: &[Port]) -> Result<(), AllocError>
    ensures { OnOk result (kinds.new.items
        ≡ kinds.old.items ++ map (λ p. input_kind p.sort) (map port_view ports.now)) }
{
    for port in ports {
        kinds.push(EntryKind::of_input(port.sort))?;
    }
    Ok(())
}
