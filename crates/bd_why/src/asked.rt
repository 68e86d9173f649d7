//! What is asked for, as it is typed.

use bd_model::Design;
use bd_slice::{Column, Cycle};
use std::alloc::{AllocError, Global};

/// A name, maybe with an address in brackets or arguments in parentheses, and maybe a column.
#[derive(Drop)]
pub struct Asked<'a> {
    pub name: &'a [u8],
    pub part: AskedPart,
    pub column: Option<Column>,
}

/// What is asked for of a name: itself, a memory's word at an address, or a function's value at arguments.
#[derive(Drop)]
pub enum AskedPart {
    Whole,
    Word(u64),
    Row(Vec<u64>),
}

impl AskedPart {
    /// The address, where there is one.
    pub fn address(&self) -> Option<u64> {
        match self {
            AskedPart::Word(address) => Some(*address),
            _ => None,
        }
    }
}

/// Why what is asked for isn't there: there is no such name, an address is missing or too many, there is no such column,
/// or none in which a let or an input has a value.
#[derive(Clone, Copy)]
pub enum Missing {
    Name,
    Address,
    Column,
    Cycle,
}

/// What is asked for, or why it isn't there.
pub type Answered<T> = Result<T, Missing>;

/// A text around the first of these bytes.
pub fn split_at_byte(text: &[u8], byte: u8) -> Option<(&[u8], &[u8])> {
    let place = text.iter().position(|other| *other == byte)?;
    let before = text.get(..place)?;
    let after = text.get(place.checked_add(1)?..)?;
    Some((before, after))
}

/// The number that a text of decimal digits is.
fn number_of(text: &[u8]) -> Option<u64> {
    if text.is_empty() {
        return None;
    }
    let mut number = 0u64;
    for byte in text {
        let digit = byte.checked_sub(b'0').filter(|digit| *digit < 10)?;
        number = number.checked_mul(10)?.checked_add(u64::from(digit))?;
    }
    Some(number)
}

/// The number of flush cycles that a text is, such as `2`, or `f2` as in the head of a table.
fn cycles_of(text: &[u8]) -> Option<u32> {
    let digits = text.strip_prefix(b"f".as_slice()).unwrap_or(text);
    u32::try_from(number_of(digits)?).ok()
}

/// The column after so many flush cycles from one that a word names.
fn flushed_column(start: &[u8], cycles: u32) -> Option<Column> {
    if start == b"before".as_slice() {
        Some(Column::Before(cycles))
    } else if start == b"after".as_slice() {
        Some(Column::After(cycles))
    } else {
        None
    }
}

/// The column after a number of steps.
fn steps_column(number: &[u8]) -> Option<Column> {
    let steps = u32::try_from(number_of(number)?).ok()?;
    Some(Column::Steps(steps))
}

/// The column in which a cycle ends that is named as it is printed: `before f1 to f2`, `step 1`.
fn printed_column(text: &[u8]) -> Option<Column> {
    let (start, rest) = split_at_byte(text, b' ')?;
    if start == b"step".as_slice() {
        return steps_column(rest);
    }
    let end = text.rsplit(|byte| *byte == b' ').next()?;
    match cycles_of(end) {
        Some(cycles) => flushed_column(start, cycles),
        None => flushed_column(end, 0),
    }
}

/// The column that a text names, whether it is there or not: `before`, `after.2`, `after.f2`, `f2`, `step.1`, or `j=1`
/// as in the head of a table.
pub fn column_of(text: &[u8]) -> Option<Column> {
    if let Some(number) = text.strip_prefix(b"j=".as_slice()) {
        return steps_column(number);
    }
    if let Some(number) = text.strip_prefix(b"f".as_slice()) {
        return flushed_column(b"after", cycles_of(number)?);
    }
    if let Some(column) = printed_column(text) {
        return Some(column);
    }
    let (start, number) = split_at_byte(text, b'.').unwrap_or((text, b"0".as_slice()));
    if start == b"step".as_slice() {
        return steps_column(number);
    }
    flushed_column(start, cycles_of(number)?)
}

/// The nearest column that is there.
pub fn nearest_column(design: &Design, column: Column) -> Column {
    match column {
        Column::Before(cycles) => Column::Before(cycles.min(design.flush)),
        Column::After(cycles) => Column::After(cycles.min(design.flush)),
        Column::Steps(steps) => Column::Steps(steps.min(design.steps)),
    }
}

/// The column in which a cycle ends.
pub fn end_of_cycle(cycle: Cycle) -> Column {
    match cycle {
        Cycle::Case | Cycle::Invariant => Column::After(0),
        Cycle::FlushBefore(number) => Column::Before(number.saturating_add(1)),
        Cycle::FlushAfter(number) => Column::After(number.saturating_add(1)),
        Cycle::Step(number) => Column::Steps(number.saturating_add(1)),
    }
}

/// What a text asks for.
pub fn asked_of<'a>(
    alloc: Global,
    design: &Design,
    text: &'a [u8],
) -> Result<Answered<Asked<'a>>, AllocError> {
    let (value, column) = match split_at_byte(text, b'@') {
        Some((value, column)) => (value, Some(column)),
        None => (text, None),
    };
    let column = match column.map(|column| column_there(design, column)) {
        Some(None) => return Ok(Err(Missing::Column)),
        Some(column) => column,
        None => None,
    };
    let Some((name, part)) = part_of(alloc, value)? else {
        return Ok(Err(Missing::Address));
    };
    Ok(Ok(Asked { name, part, column }))
}

/// The column that a text names, if it is there.
fn column_there(design: &Design, text: &[u8]) -> Option<Column> {
    column_of(text).filter(|column| nearest_column(design, *column) == *column)
}

/// A name, and what is asked for of it.
fn part_of(alloc: Global, text: &[u8]) -> Result<Option<(&[u8], AskedPart)>, AllocError> {
    if let Some((name, address)) = split_at_byte(text, b'[') {
        let address = ended_by(address, b']').and_then(number_of);
        return Ok(address.map(|address| (name, AskedPart::Word(address))));
    }
    if let Some((name, arguments)) = split_at_byte(text, b'(') {
        let Some(arguments) = ended_by(arguments, b')') else {
            return Ok(None);
        };
        let words = words_of(alloc, arguments)?;
        return Ok(words.map(|words| (name, AskedPart::Row(words))));
    }
    Ok(Some((text, AskedPart::Whole)))
}

/// A text without the byte that ends it.
fn ended_by(text: &[u8], byte: u8) -> Option<&[u8]> {
    let (last, text) = text.split_last()?;
    if *last == byte { Some(text) } else { None }
}

/// Words that are parted by commas.
fn words_of(alloc: Global, text: &[u8]) -> Result<Option<Vec<u64>>, AllocError> {
    let mut words = Vec::new(alloc);
    if text.is_empty() {
        return Ok(Some(words));
    }
    for part in text.split(|byte| *byte == b',') {
        match number_of(part.trim_ascii()) {
            Some(word) => words.push(word)?,
            None => return Ok(None),
        }
    }
    Ok(Some(words))
}
