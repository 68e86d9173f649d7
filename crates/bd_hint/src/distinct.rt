//! Constants that are kept apart and have equal values: E19.

use crate::file::{File, Headed, list_of};
use crate::lines::Lines;
use crate::view::FaultView;
use bd_text::outline::{atom_at, atom_of, parts_of};
use bd_typer::Text;
use indexmap::IndexMap;
use std::alloc::{AllocError, Global};

/// The text of the value that an entry gives a constant: that of its first row, or of its default.
fn value_of<'t>(entry: Headed<'t>) -> Option<&'t [u8]> {
    match entry.parts.get(3) {
        Some(row) => atom_at(parts_of(row)?, 0),
        None => atom_at(entry.parts, 2),
    }
}

/// The texts of the values of constants in a case, by their names.
fn values_in<'f>(
    alloc: Global,
    case: &'f File<'f>,
) -> Result<IndexMap<&'f [u8], &'f [u8]>, AllocError> {
    let mut values = IndexMap::new(alloc);
    for tree in case.items() {
        let Some(entry) = list_of(tree) else { continue };
        if let (Some((_, name)), Some(value)) = (entry.name(), value_of(entry)) {
            values.insert(name, value)?;
        }
    }
    Ok(values)
}

/// Adds two constants of a group that have equal values.
fn say_alike<'t>(
    alloc: Global,
    out: &mut Lines,
    values: &IndexMap<&'t [u8], &'t [u8]>,
    group: Headed<'t>,
) -> Result<bool, AllocError> {
    let mut seen: IndexMap<&'t [u8], &'t [u8]> = IndexMap::new(alloc);
    for part in group.parts.iter().skip(1) {
        let Some(name) = atom_of(part) else { continue };
        let value = values.get(&name).copied().unwrap_or(b"0");
        if let Some(other) = seen.get(&value).copied() {
            out.say(&[other, b" and ", name, b" are both ", value])?;
            return Ok(true);
        }
        seen.insert(value, name)?;
    }
    Ok(false)
}

/// What helps at constants with equal values: two of them, and where they are kept apart.
pub fn not_distinct(view: &FaultView<'_>, out: &mut Lines) -> Result<(), AllocError> {
    let values = values_in(view.alloc, view.file)?;
    for file in view.files {
        if !matches!(file.source.file, Text::Pipe | Text::Spec) {
            continue;
        }
        for tree in file.items() {
            let Some(group) = list_of(tree) else { continue };
            if group.head == b"distinct".as_slice() && say_alike(view.alloc, out, &values, group)? {
                return out.note(file.source, group.offset, &[b"kept apart here"]);
            }
        }
    }
    Ok(())
}
