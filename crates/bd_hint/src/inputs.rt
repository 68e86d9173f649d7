//! Inputs where none may be used: E17.

use crate::declared::{Declaration, Declared};
use crate::lines::Lines;
use crate::source::kind_text;
use crate::view::FaultView;
use bd_text::Tree;
use bd_text::outline::{atom_of, parts_of};
use bd_typer::Text;
use indexmap::IndexMap;
use std::alloc::AllocError;

/// The first input, or let that uses one, among the atoms of an expression.
fn used<'v>(view: &FaultView<'v>, tree: &'v Tree) -> Result<Option<Declared<'v>>, AllocError> {
    let mut open = Vec::new(view.alloc);
    open.push(tree)?;
    let mut place = 0usize;
    let names = view.names_in(Text::Pipe)?;
    let file = view.file;
    for _ in 0..file.source.text.len() {
        let Some(next) = open.as_slice().get(place).copied() else {
            return Ok(None);
        };
        place = place.saturating_add(1);
        for part in parts_of(next).unwrap_or(&[]) {
            open.push(part)?;
        }
        if let Some(found) = input_named(&names, next) {
            return Ok(Some(found));
        }
    }
    Ok(None)
}

/// The input of the pipeline that an atom names.
fn input_named<'v>(
    names: &IndexMap<&'v [u8], Declared<'v>>,
    tree: &'v Tree,
) -> Option<Declared<'v>> {
    let found = names.get(&atom_of(tree)?).copied()?;
    match found.kind {
        Declaration::Input(_) => Some(found),
        _ => None,
    }
}

/// What helps at an input, or a let that uses one, where none may be used.
pub fn not_allowed(view: &FaultView<'_>, out: &mut Lines) -> Result<(), AllocError> {
    let Some(name) = view.way.atom() else {
        return Ok(());
    };
    match view.fault.file {
        Text::Pipe => out.say(&[
            b"an input's value in flush cycles may use latches and memories, and lets without inputs",
        ])?,
        file => out.say(&[kind_text(file), b" speaks of a state, which has no inputs"])?,
    }
    let Some(found) = view.usable(name) else {
        return Ok(());
    };
    if !found.kind.is_let() {
        return view.note(out, b"", &found);
    }
    let uses = match found.item.parts.last() {
        Some(value) => used(view, value)?,
        None => None,
    };
    match uses {
        Some(input) => {
            let mut words = Lines::new(view.alloc);
            words.put(&[name, b" uses the input ", input.name])?;
            view.mark(out, &found, words.into_bytes().as_slice())
        }
        None => view.mark(out, &found, b"this let uses an input through other lets"),
    }
}
