//! Which value is explained where a text asks for one.

use crate::asked::{Answered, Asked, AskedPart, Missing, asked_of};
use crate::listing::Listing;
use crate::parting::{Parting, both_sides, nearest};
use crate::view::ListedDesign;
use bd_diagram::Diagram;
use bd_model::{Entry, Machine, Sort};
use bd_slice::{Column, Subject};
use std::alloc::{AllocError, Global};

/// What is explained: a value, both sides of one, a function's value at arguments, or nothing.
#[derive(Drop)]
pub enum Target {
    One(Subject),
    Both(Parting),
    Row(u32, Vec<u64>),
    Nothing,
}

/// What is explained where a text asks for it.
pub fn asked_target(
    alloc: Global,
    view: &ListedDesign<'_, '_>,
    diagram: &Diagram,
    text: &[u8],
) -> Result<Answered<Target>, AllocError> {
    let asked = match asked_of(alloc, view.design, text)? {
        Ok(asked) => asked,
        Err(missing) => return Ok(Err(missing)),
    };
    if matches!(asked.part, AskedPart::Row(_)) {
        return Ok(row(view, asked));
    }
    if let Some(sides) = without_column(view, diagram, &asked) {
        return Ok(Ok(Target::Both(sides)));
    }
    Ok(match one(view, &asked) {
        Ok(subject) => Ok(Target::One(subject)),
        Err(missing) => Err(missing),
    })
}

/// A function's value at arguments.
fn row(view: &ListedDesign<'_, '_>, asked: Asked<'_>) -> Answered<Target> {
    let Asked { name, part, .. } = asked;
    let symbols = view.design.symbols.as_slice().iter();
    for (symbol, number) in symbols.zip(0u32..u32::MAX) {
        if symbol.name.as_slice() == name {
            return match part {
                AskedPart::Row(words) if words.len() == symbol.arity as usize => {
                    Ok(Target::Row(number, words))
                }
                _ => Err(Missing::Address),
            };
        }
    }
    Err(Missing::Name)
}

/// Both sides of a visible entry, where no column is named.
fn without_column(
    view: &ListedDesign<'_, '_>,
    diagram: &Diagram,
    asked: &Asked<'_>,
) -> Option<Parting> {
    if asked.column.is_some() {
        return None;
    }
    let address = asked.part.address();
    let entries = view.design.spec.entries.as_slice();
    let entry = entry_of(entries, asked.name, address)?.ok()?;
    both_sides(view.design, nearest(diagram), entry, address)
}

/// The value of an entry, a let or an input in a column, after the cycle where none is named.
fn one(view: &ListedDesign<'_, '_>, asked: &Asked<'_>) -> Answered<Subject> {
    let column = asked.column.unwrap_or(Column::After(0));
    let found = in_machine(view, asked, column);
    match (found, asked.column) {
        (Err(Missing::Name), None) => in_machine(view, asked, Column::Steps(1)),
        _ => found,
    }
}

/// The value of an entry, a let or an input of the machine that a column is of.
fn in_machine(view: &ListedDesign<'_, '_>, asked: &Asked<'_>, column: Column) -> Answered<Subject> {
    let (machine, listing) = match column {
        Column::Steps(_) => (&view.design.spec, &view.spec),
        _ => (&view.design.pipe, &view.pipe),
    };
    let address = asked.part.address();
    if let Some(entry) = entry_of(machine.entries.as_slice(), asked.name, address) {
        let entry = entry?;
        return Ok(match address {
            Some(address) => Subject::Cell(column, entry, address),
            None => Subject::Latch(column, entry),
        });
    }
    if let Some(number) = local_of(machine, listing, asked.name) {
        return local(machine, number, address, column);
    }
    let number = input_of(machine, asked.name).ok_or(Missing::Name)?;
    let cycle = column.reached_by().ok_or(Missing::Cycle)?;
    Ok(Subject::Input(cycle, number))
}

/// The value of a let in the cycle that ends in a column.
fn local(
    machine: &Machine,
    number: u32,
    address: Option<u64>,
    column: Column,
) -> Answered<Subject> {
    let cycle = column.reached_by().ok_or(Missing::Cycle)?;
    let local = machine.locals.as_slice().get(number as usize);
    let local = local.ok_or(Missing::Name)?;
    match address {
        Some(address) if local.sort == Sort::Memory => {
            Ok(Subject::LetCell(cycle, number, address))
        }
        None if local.sort != Sort::Memory => Ok(Subject::Let(cycle, number)),
        _ => Err(Missing::Address),
    }
}

/// The number of the entry of a name, where a memory has an address and a latch has none.
fn entry_of(entries: &[Entry], name: &[u8], address: Option<u64>) -> Option<Answered<u32>> {
    let mut numbered = entries.iter().zip(0u32..u32::MAX);
    let (entry, number) = numbered.find(|(entry, _)| entry.name.as_slice() == name)?;
    Some(if (entry.sort == Sort::Memory) == address.is_some() {
        Ok(number)
    } else {
        Err(Missing::Address)
    })
}

/// The number of the let of a name.
fn local_of(machine: &Machine, listing: &Listing<'_>, name: &[u8]) -> Option<u32> {
    let locals = machine.locals.as_slice().iter().zip(0u32..u32::MAX);
    for (_local, number) in locals {
        if listing.local(number).is_some_and(|item| item.name == name) {
            return Some(number);
        }
    }
    None
}

/// The number of the input of a name.
fn input_of(machine: &Machine, name: &[u8]) -> Option<u32> {
    let mut ports = machine.ports.as_slice().iter().zip(0u32..u32::MAX);
    let (_port, number) = ports.find(|(port, _)| port.name.as_slice() == name)?;
    Some(number)
}
