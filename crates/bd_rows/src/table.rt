//! Reads a file of rows, and runs each.

use crate::entry::TestRow;
use crate::fault::RowFault;
use crate::read::{MOST_DATA, read_line};
use crate::report::Report;
use crate::run::run_row;
use bd_files::{Files, LoadError};
use std::alloc::{AllocError, Global};
use std::str;

/// Runs the rows of the file of that name, and says what differs.
pub fn run_table<'a, F: Files>(
    alloc: Global,
    name: &'a str,
    data: &mut F,
) -> Result<Report<'a>, AllocError> {
    let mut report = Report::new(alloc, name);
    match data.load(name, MOST_DATA) {
        Ok(bytes) => run_bytes(alloc, bytes.as_slice(), data, &mut report)?,
        Err(LoadError::Failed) => report.add_fault(0, RowFault::NoFile)?,
        Err(LoadError::Memory) => return Err(AllocError),
    }
    report.end()?;
    Ok(report)
}

/// Runs the rows of a file, if it is text.
fn run_bytes<F: Files>(
    alloc: Global,
    bytes: &[u8],
    data: &mut F,
    report: &mut Report<'_>,
) -> Result<(), AllocError> {
    match str::from_utf8(bytes) {
        Ok(text) => run_text(alloc, text, data, report),
        Err(_) => report.add_fault(0, RowFault::NoText),
    }
}

/// Runs the rows of a text.
fn run_text<F: Files>(
    alloc: Global,
    text: &str,
    data: &mut F,
    report: &mut Report<'_>,
) -> Result<(), AllocError> {
    let mut row = TestRow::new(alloc);
    for (index, line) in text.lines().enumerate() {
        let line = line.trim_start();
        take_line(alloc, data, &mut row, index.saturating_add(1), line, report)?;
    }
    end_row(alloc, &row, report)
}

/// Takes one line: it begins a row, or what rows are given, or goes on with it.
fn take_line<'a, F: Files>(
    alloc: Global,
    data: &mut F,
    row: &mut TestRow<'a>,
    line: usize,
    text: &'a str,
    report: &mut Report<'_>,
) -> Result<(), AllocError> {
    if text.is_empty() || text.starts_with('#') {
        return Ok(());
    }
    if let Some(name) = text.strip_prefix("row ") {
        end_row(alloc, row, report)?;
        row.begin(name, line);
        return Ok(());
    }
    if text == "given" {
        end_row(alloc, row, report)?;
        row.begin_given();
        return Ok(());
    }
    match read_line(alloc, data, row, line, text) {
        Ok(()) => Ok(()),
        Err(RowFault::Memory) => Err(AllocError),
        Err(fault) => report.add_fault(line, fault),
    }
}

/// Runs the row that was read, if one was.
fn end_row(alloc: Global, row: &TestRow<'_>, report: &mut Report<'_>) -> Result<(), AllocError> {
    if !row.is_begun() {
        return Ok(());
    }
    match run_row(alloc, row, report) {
        Ok(()) => Ok(()),
        Err(RowFault::Memory) => Err(AllocError),
        Err(fault) => report.add_fault(row.line, fault),
    }
}
