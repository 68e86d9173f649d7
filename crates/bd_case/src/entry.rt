//! Entries: what was given so far, and one entry more. An entry's shape is looked at before its name, and its name
//! before its values.

ghost use Rattle.std.specs.Prelude.{◌≡◌, ◌<◌, length, map, is_some, slice_index_or, IfOk};
ghost use Rattle.bd_text.specs.View.{node_of, nodes_of_all};
ghost use Rattle.bd_syntax.specs.Reading.{Gives};
ghost use Rattle.bd_model.specs.DesignView.{design_view};
ghost use Rattle.bd_model.specs.Lawful.{all_names};
ghost use Rattle.bd_case.specs.Kinds.{head_of, kinds};
ghost use Rattle.bd_case.specs.Reading.{content_form, entries_form, entry_form, head_form, kept, parts_form, place_form, place_of, table_form};
ghost use Rattle.bd_case.specs.inner.Frame.{IsFrame};

use crate::frame::Frame;
use crate::kind::{EntryHead, EntryKind, Layout};
use crate::value;
use bd_model::{Rows, Table};
use bd_syntax::atoms::name_text;
use bd_syntax::lists::open;
use bd_syntax::{FormFault, bad};
use bd_text::{Code, Tree};
use std::alloc::Global;

/// A constant that is kept apart has the value of its table, and no rows.
fn kept(alloc: Global, apart: bool, table: Table) -> Table
    ensures { result ≡ kept apart table }
{
    if !apart {
        return table;
    }
    Table {
        default: table.at(&[]),
        rows: Rows::new(alloc),
    }
}

/// A default, and rows.
#[tactic(auto, unfolding(crate::specs::Reading::table_form))]
fn table(alloc: Global, kind: EntryKind, default: &Tree, rows: &[Tree]) -> Result<Table, FormFault>
    ensures { Gives (λ t. t) result
        (table_form kind (node_of default.now) (nodes_of_all rows.now)) }
{
    let table = Table {
        default: value::scalar(kind.sort, default)?,
        rows: value::rows(alloc, kind, rows)?,
    };
    Ok(kept(alloc, kind.apart, table))
}

/// What an entry gives after its name.
fn content(
    alloc: Global,
    kind: EntryKind,
    offset: usize,
    parts: &[Tree],
) -> Result<Table, FormFault>
    ensures { Gives (λ t. t) result (content_form kind offset (nodes_of_all parts.now)) }
{
    if kind.head.is_input() {
        return value::values(alloc, kind.sort, parts);
    }
    match parts.split_first() {
        Some((default, rows)) => table(alloc, kind, default, rows),
        None => Err(bad(offset, Code::Malformed)),
    }
}

/// The place of a name that an entry with this head may give, and none has given.
fn place(
    frame: &Frame<'_>,
    given: &[Option<Table>],
    head: EntryHead,
    offset: usize,
    name: &[u8],
) -> Result<usize, FormFault>
    requires frame { IsFrame frame.now }
    requires given { length given.now ≡ length frame.now.kinds.items }
    ensures place { Gives (λ i. i) result
        (place_form frame.now.kinds.items given.now head offset
        (place_of name.now (all_names (design_view frame.now.design.now)))) }
    ensures within { IfOk result (λ i. i < length given.now) }
{
    let Some(place) = frame.place(name) else {
        return Err(bad(offset, Code::UnknownName));
    };
    if !head.is(frame.kinds[place].head) {
        return Err(bad(offset, Code::WrongSort));
    }
    if given[place].is_some() {
        return Err(bad(offset, Code::DeclaredTwice));
    }
    Ok(place)
}

/// The head that a text is, where so many parts may follow it.
fn head_of(layout: Layout, offset: usize, text: &[u8], parts: usize) -> Result<EntryHead, FormFault>
    ensures { Gives (λ head. head) result
        (head_form layout.cycles offset parts (head_of layout.version text.now)) }
{
    match EntryHead::from_text(layout.version, text) {
        Some(head) if head.takes(layout.cycles, parts) => Ok(head),
        _ => Err(bad(offset, Code::Malformed)),
    }
}

/// The entry that a tree is.
#[tactic(auto, unfolding(crate::specs::Reading::entry_form))]
pub fn entry(
    alloc: Global,
    frame: &Frame<'_>,
    given: &mut Vec<Option<Table>>,
    tree: &Tree,
) -> Result<(), FormFault>
    requires frame { IsFrame frame.now }
    requires given { length given.old.items ≡ length frame.now.kinds.items }
    ensures entry { Gives (λ _. given.new.items) result
        (entry_form frame.now.layout (design_view frame.now.design.now)
        given.old.items (node_of tree.now)) }
    ensures given { length given.new.items ≡ length given.old.items }
{
    match tree {
        Tree::Atom { offset, .. } => Err(bad(*offset, Code::Malformed)),
        Tree::List { offset, parts } => {
            let list = open(*offset, parts)?;
            let head = head_of(frame.layout, *offset, list.first, list.parts.len())?;
            named(alloc, frame, given, *offset, head, list.parts)
        }
    }
}

/// What follows the head of an entry.
#[tactic(auto, unfolding(crate::specs::Reading::parts_form))]
fn named(
    alloc: Global,
    frame: &Frame<'_>,
    given: &mut Vec<Option<Table>>,
    offset: usize,
    head: EntryHead,
    parts: &[Tree],
) -> Result<(), FormFault>
    requires frame { IsFrame frame.now }
    requires given { length given.old.items ≡ length frame.now.kinds.items }
    ensures named { Gives (λ _. given.new.items) result
        (parts_form frame.now.layout (design_view frame.now.design.now)
        given.old.items offset head (nodes_of_all parts.now)) }
    ensures given { length given.new.items ≡ length given.old.items }
{
    let Some((name, parts)) = parts.split_first() else {
        return Err(bad(offset, Code::Malformed));
    };
    let (at, text) = name_text(name)?;
    let place = place(frame, given, head, at, text)?;
    given[place] = Some(content(alloc, frame.kinds[place], offset, parts)?);
    Ok(())
}

/// The entries that trees are.
pub fn entries(
    alloc: Global,
    frame: &Frame<'_>,
    given: &mut Vec<Option<Table>>,
    trees: &[Tree],
) -> Result<(), FormFault>
    requires frame { IsFrame frame.now }
    requires given { length given.old.items ≡ length frame.now.kinds.items }
    ensures entries { Gives (λ _. given.new.items) result
        (entries_form frame.now.layout (design_view frame.now.design.now)
        given.old.items (nodes_of_all trees.now)) }
    ensures given { length given.new.items ≡ length given.old.items }
{
    for tree in trees {
        entry(alloc, frame, given, tree)?;
    }
    Ok(())
}
