//! What is missing: E12 and E13.

use crate::declared::Declared;
use crate::file::{File, list_of};
use crate::lines::Lines;
use crate::twice::note_first;
use crate::view::{FaultView, put_described};
use bd_near::nearest;
use bd_typer::Text;
use indexmap::IndexSet;
use std::alloc::{AllocError, Global};

/// More missing names aren't told.
const MOST_NAMES: usize = 8;

/// The names of the items of a file that begin with this word.
fn names_of<'f>(
    alloc: Global,
    file: &'f File<'f>,
    head: &[u8],
) -> Result<Vec<(usize, &'f [u8])>, AllocError> {
    let mut names = Vec::new(alloc);
    for tree in file.items() {
        if let Some(item) = list_of(tree) {
            if let Some(name) = item.name() {
                if item.head == head {
                    names.push(name)?;
                }
            }
        }
    }
    Ok(names)
}

/// Adds a `next` that may be meant: of a near name that no latch has, or of a let.
fn note_next(view: &FaultView<'_>, out: &mut Lines, name: &[u8]) -> Result<(), AllocError> {
    let nexts = names_of(view.alloc, view.file, b"next")?;
    let declared = view.names_in(view.fault.file)?;
    let mut others = Vec::new(view.alloc);
    let mut names = Vec::new(view.alloc);
    for (at, other) in nexts {
        match declared.get(&other).copied() {
            Some(found) if found.kind.is_entry() => {}
            Some(found) => return note_of_no_latch(view, out, at, &found),
            None => {
                others.push((at, other))?;
                names.push(other)?;
            }
        }
    }
    let place = nearest(view.alloc, name, names.as_slice())?;
    match place.and_then(|place| others.as_slice().get(place).copied()) {
        Some((at, other)) => out.note(
            view.file.source,
            at,
            &[b"near: ", other, b", which no latch or memory is called"],
        ),
        None => Ok(()),
    }
}

/// Adds that a `next` is of a let, an input or a function.
fn note_of_no_latch(
    view: &FaultView<'_>,
    out: &mut Lines,
    at: usize,
    declared: &Declared<'_>,
) -> Result<(), AllocError> {
    let mut words = Lines::new(view.alloc);
    put_described(&mut words, declared)?;
    words.put(&[b", and only a latch or a memory has a next"])?;
    out.note(view.file.source, at, &[words.into_bytes().as_slice()])
}

/// What helps at a latch or memory without a `next`, or at a second one.
fn at_machine(view: &FaultView<'_>, out: &mut Lines) -> Result<(), AllocError> {
    let Some(name) = view.way.atom() else {
        return Ok(());
    };
    if view.way.is_name_of(b"next") {
        note_first(view, out, b"next", Some(name))?;
        return Ok(());
    }
    out.say(&[b"no (next ", name, b" ..)"])?;
    note_next(view, out, name)
}

/// Adds the names that are missing among those that are given.
fn say_missing(
    out: &mut Lines,
    head: &[u8],
    wanted: &[&[u8]],
    given: &IndexSet<&[u8]>,
) -> Result<(), AllocError> {
    let mut count = 0usize;
    for name in wanted {
        if given.contains(name) {
            continue;
        }
        count = count.saturating_add(1);
        if count <= MOST_NAMES {
            out.put(&[if count == 1 { b"missing: " } else { b", " }, head, name])?;
        }
    }
    if count > MOST_NAMES {
        out.put(&[b" and "])?;
        out.put_number(count.saturating_sub(MOST_NAMES) as u64)?;
        out.put(&[b" more"])?;
    }
    out.end()
}

/// What helps where a completion function leaves something out, or gives it twice.
fn at_completion(view: &FaultView<'_>, out: &mut Lines) -> Result<(), AllocError> {
    if let (Some(name), true) = (view.way.atom(), view.way.is_name_of(b"abstract")) {
        note_first(view, out, b"abstract", Some(name))?;
        return Ok(());
    }
    let mut wanted = Vec::new(view.alloc);
    for other in view.declared {
        if other.file == Text::Spec && other.kind.is_entry() {
            wanted.push(other.name)?;
        }
    }
    let mut given = IndexSet::new(view.alloc);
    for (_, name) in names_of(view.alloc, view.file, b"abstract")? {
        given.insert(name)?;
    }
    say_missing(out, b"abstract ", wanted.as_slice(), &given)
}

/// What helps where a case leaves something out.
fn at_case(view: &FaultView<'_>, out: &mut Lines) -> Result<(), AllocError> {
    let mut wanted = Vec::new(view.alloc);
    for other in view.declared {
        let is_valued = !other.kind.is_let() && other.kind.sort().is_some();
        if other.file == Text::Pipe && is_valued {
            wanted.push(other.name)?;
        }
    }
    let mut given = IndexSet::new(view.alloc);
    for tree in view.file.items() {
        if let Some(item) = list_of(tree) {
            if let Some((_, name)) = item.name() {
                given.insert(name)?;
            }
        }
    }
    say_missing(out, b"", wanted.as_slice(), &given)
}

/// What helps where what has to stand once is missing or stands twice.
pub fn not_once(view: &FaultView<'_>, out: &mut Lines) -> Result<(), AllocError> {
    match view.fault.file {
        Text::Case | Text::Trail => at_case(view, out),
        Text::Comp => at_completion(view, out),
        _ => at_machine(view, out),
    }
}

/// Whether a file has an item of this head.
fn has(view: &FaultView<'_>, head: &[u8]) -> bool {
    for tree in view.file.items() {
        if let Some(item) = list_of(tree) {
            if item.head == head {
                return true;
            }
        }
    }
    false
}

/// What helps where flush or steps are missing or stand twice.
pub fn counts(view: &FaultView<'_>, out: &mut Lines) -> Result<(), AllocError> {
    if let Some(tree) = view.way.end {
        if let Some(item) = list_of(tree) {
            if note_first(view, out, item.head, None)? {
                return Ok(());
            }
        }
    }
    if !has(view, b"flush") {
        out.say(&[b"no (flush N): how many cycles empty the pipeline, 0 to 64"])?;
    }
    if !has(view, b"steps") {
        out.say(&[b"no (steps N): how many steps a cycle stands for at most, 0 to 8"])?;
    }
    Ok(())
}
