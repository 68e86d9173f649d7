//! Runs tables of rows: each row has words, files in memory, and how the program or its companion has to end on them.
//!
//! The words of the command line name files of rows, and `README.md` says how such a file is written. For each row that
//! differs the output has what was wanted and what came, and for each file how many rows it has. The status is 0 where
//! no row differs.
#![tactic(auto)]

mod compare;
mod devices;
mod entry;
mod fault;
mod read;
mod report;
mod run;
mod table;
mod text;
mod twist;

use crate::report::Counts;
use crate::table::run_table;
use bd_files::{Files, Sink};
use bd_host::{RealFiles, Stream, WordsError, command_line};
use std::alloc::{AllocError, Global};
use std::process::ExitCode;

/// Runs the tables of the files that the words name, and puts what is said of each.
fn run_tables<F: Files, O: Sink>(
    alloc: Global,
    names: &[String],
    data: &mut F,
    out: &mut O,
) -> Result<Counts, AllocError> {
    let mut counts = Counts::default();
    for name in names {
        let report = run_table(alloc, name.as_str(), data)?;
        if out.put(report.text()).is_err() {
            counts.faults = counts.faults.saturating_add(1);
        }
        counts = counts.and(report.counts());
    }
    Ok(counts)
}

/// The program on any files and any output. Words that aren't text name no tables.
fn program<F: Files, O: Sink>(
    alloc: Global,
    words: Result<Vec<String>, WordsError>,
    data: &mut F,
    out: &mut O,
) -> Result<Counts, AllocError> {
    let words = match words {
        Ok(words) => words,
        Err(WordsError::NotText) => Vec::new(alloc),
        Err(WordsError::Memory) => return Err(AllocError),
    };
    match words.as_slice().split_first() {
        Some((_, names)) => run_tables(alloc, names, data, out),
        None => Ok(Counts::default()),
    }
}

/// Runs the tables that the words name. The status is 0 where no row differs, and all tables were read.
fn main(rt: HostRuntime) -> ExitCode {
    let counts = program(
        rt.alloc(),
        command_line(rt.alloc(), &rt),
        &mut RealFiles::new(rt.alloc(), &rt),
        &mut Stream::new(rt.stdout()),
    );
    match counts {
        Ok(counts) if counts.are_clean() => ExitCode::from(0),
        Ok(_) => ExitCode::from(1),
        Err(_) => ExitCode::from(6),
    }
}
