//! Reads the lines of a file of rows.

use crate::entry::{Key, RowLine, TestRow};
use crate::fault::RowFault;
use crate::text::{push_numbered, push_unescaped};
use bd_files::{Files, LoadError};
use std::alloc::Global;

/// The most bytes of a file of the folder of data.
pub const MOST_DATA: usize = 16_777_216;

/// Reads a line of a row, or of what rows are given, that isn't the first of it.
pub fn read_line<'a, F: Files>(
    alloc: Global,
    data: &mut F,
    row: &mut TestRow<'a>,
    line: usize,
    text: &'a str,
) -> Result<(), RowFault> {
    if let Some(rest) = text.strip_prefix('|') {
        return add_whole_line(row, rest);
    }
    if let Some(rest) = text.strip_prefix('+') {
        let entry = row.last().ok_or(RowFault::NoText)?;
        return Ok(push_unescaped(&mut entry.text, rest)?);
    }
    if let Some(rest) = text.strip_prefix('*') {
        return add_repeated(alloc, row, rest);
    }
    if let Some(rest) = text.strip_prefix('_') {
        return fill(row, rest);
    }
    if let Some(rest) = text.strip_prefix('<') {
        return add_file(data, row, rest);
    }
    let (word, rest) = first_word(text);
    let key = Key::from_word(word).ok_or(RowFault::NoSuchWord)?;
    if !row.is_begun() && !key.is_given() {
        return Err(RowFault::NotGiven);
    }
    add_entry(alloc, data, row, line, key, rest)
}

/// The first word of a text, and what stands after the space behind it.
fn first_word(text: &str) -> (&str, &str) {
    text.split_once(' ').unwrap_or((text, ""))
}

/// Adds a line of text as it stands to the text of the line above.
fn add_whole_line(row: &mut TestRow<'_>, rest: &str) -> Result<(), RowFault> {
    let entry = row.last().ok_or(RowFault::NoText)?;
    entry.text.extend_from_slice(rest.as_bytes())?;
    entry.text.push(b'\n')?;
    Ok(())
}

/// Adds a text once for each number: `FROM TO TEXT`.
fn add_repeated(alloc: Global, row: &mut TestRow<'_>, rest: &str) -> Result<(), RowFault> {
    let (from, rest) = first_word(rest);
    let (to, text) = first_word(rest);
    let from = number_of(from)?;
    let to = number_of(to)?;
    let entry = row.last().ok_or(RowFault::NoText)?;
    for number in from..=to {
        push_numbered(alloc, &mut entry.text, text, number)?;
    }
    Ok(())
}

/// Fills a text up to so many bytes with a byte, a space if none is named: `LENGTH BYTE`.
fn fill(row: &mut TestRow<'_>, rest: &str) -> Result<(), RowFault> {
    let (length, with) = first_word(rest);
    let length = number_of(length)? as usize;
    let byte = with.as_bytes().first().copied().unwrap_or(b' ');
    let entry = row.last().ok_or(RowFault::NoText)?;
    entry.text.resize(length, byte)?;
    Ok(())
}

/// Adds the bytes of a file of the folder of data.
fn add_file<F: Files>(data: &mut F, row: &mut TestRow<'_>, name: &str) -> Result<(), RowFault> {
    let bytes = load(data, name)?;
    let entry = row.last().ok_or(RowFault::NoText)?;
    entry.text.extend_from_slice(bytes.as_slice())?;
    Ok(())
}

/// The bytes of a file of the folder of data.
fn load<F: Files>(data: &mut F, name: &str) -> Result<Vec<u8>, RowFault> {
    match data.load(name, MOST_DATA) {
        Ok(bytes) => Ok(bytes),
        Err(LoadError::Failed) => Err(RowFault::NoFile),
        Err(LoadError::Memory) => Err(RowFault::Memory),
    }
}

/// The number that a text is.
fn number_of(text: &str) -> Result<u64, RowFault> {
    text.parse::<u64>().map_err(|_| RowFault::NoNumber)
}

/// Adds a line with that key.
fn add_entry<'a, F: Files>(
    alloc: Global,
    data: &mut F,
    row: &mut TestRow<'a>,
    line: usize,
    key: Key,
    rest: &'a str,
) -> Result<(), RowFault> {
    let number = if key.has_number() {
        number_of(rest)?
    } else {
        0
    };
    let (name, rest) = if key.has_name() {
        first_word(rest)
    } else {
        ("", rest)
    };
    if key == Key::Then {
        row.steps = row.steps.saturating_add(1);
    }
    let text = text_of(alloc, data, key, rest)?;
    let entry = RowLine {
        line,
        key,
        step: row.steps,
        name,
        rest,
        number,
        text,
    };
    if row.is_begun() {
        row.own.push(entry)?;
    } else {
        row.given.push(entry)?;
    }
    Ok(())
}

/// The bytes that the rest of a line stands for: for a copy those of the file that it names.
fn text_of<F: Files>(
    alloc: Global,
    data: &mut F,
    key: Key,
    rest: &str,
) -> Result<Vec<u8>, RowFault> {
    if key == Key::Copy {
        return load(data, rest);
    }
    let mut text = Vec::new(alloc);
    push_unescaped(&mut text, rest)?;
    Ok(text)
}
