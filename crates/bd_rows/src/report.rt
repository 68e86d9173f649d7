//! What is said of the rows of a file.

use crate::fault::RowFault;
use crate::text::push_shown;
use crate::twist::Twist;
use std::alloc::{AllocError, Global};

/// How many rows and runs there were, and how many rows differed.
#[derive(Clone, Copy, Default)]
pub struct Counts {
    pub rows: u64,
    pub runs: u64,
    pub differing: u64,
    /// How many lines weren't taken.
    pub faults: u64,
}

impl Counts {
    /// Both counts together.
    pub fn and(self, other: Counts) -> Counts {
        Counts {
            rows: self.rows.saturating_add(other.rows),
            runs: self.runs.saturating_add(other.runs),
            differing: self.differing.saturating_add(other.differing),
            faults: self.faults.saturating_add(other.faults),
        }
    }

    /// Whether no row differed and each line was taken.
    pub fn are_clean(self) -> bool {
        self.differing == 0 && self.faults == 0
    }
}

/// Where a row differs.
#[derive(Clone, Copy)]
pub struct RowPlace<'a> {
    pub line: usize,
    pub row: &'a str,
    pub twist: Twist<'a>,
}

/// What is said of the rows of a file, line by line.
#[derive(Drop)]
pub struct Report<'a> {
    file: &'a str,
    text: String,
    counts: Counts,
    differs: bool,
}

impl<'a> Report<'a> {
    /// Nothing yet of that file.
    pub fn new(alloc: Global, file: &'a str) -> Report<'a> {
        Report {
            file,
            text: String::new(alloc),
            counts: Counts::default(),
            differs: false,
        }
    }

    /// What is said so far.
    pub fn text(&self) -> &[u8] {
        self.text.as_bytes()
    }

    /// The counts so far.
    pub fn counts(&self) -> Counts {
        self.counts
    }

    /// Counts a run.
    pub fn add_run(&mut self) {
        self.counts.runs = self.counts.runs.saturating_add(1);
    }

    /// Counts a row that is done.
    pub fn end_row(&mut self) {
        self.counts.rows = self.counts.rows.saturating_add(1);
        if self.differs {
            self.counts.differing = self.counts.differing.saturating_add(1);
        }
        self.differs = false;
    }

    /// Says that a line isn't taken.
    pub fn add_fault(&mut self, line: usize, fault: RowFault) -> Result<(), AllocError> {
        self.counts.faults = self.counts.faults.saturating_add(1);
        let file = self.file;
        write!(self.text, "{file}:{line}: {fault}\n")
    }

    /// Says that a row differs, and in what.
    pub fn add_difference(&mut self, place: RowPlace<'_>, what: &str) -> Result<(), AllocError> {
        self.differs = true;
        let (file, line, row) = (self.file, place.line, place.row);
        write!(self.text, "{file}:{line}: {row}")?;
        place.twist.push_to(&mut self.text)?;
        write!(self.text, ": {what}\n")
    }

    /// Compares two texts.
    pub fn compare(
        &mut self,
        place: RowPlace<'_>,
        what: &str,
        wanted: &[u8],
        came: &[u8],
    ) -> Result<(), AllocError> {
        if wanted == came {
            return Ok(());
        }
        self.add_difference(place, what)?;
        self.push_pair(wanted, came)
    }

    /// Compares two numbers.
    pub fn compare_numbers(
        &mut self,
        place: RowPlace<'_>,
        what: &str,
        wanted: u64,
        came: u64,
    ) -> Result<(), AllocError> {
        if wanted == came {
            return Ok(());
        }
        self.add_difference(place, what)?;
        write!(self.text, "  wanted {wanted}\n  came   {came}\n")
    }

    /// Adds what was wanted and what came.
    fn push_pair(&mut self, wanted: &[u8], came: &[u8]) -> Result<(), AllocError> {
        self.text.push_str("  wanted ")?;
        push_shown(&mut self.text, wanted)?;
        self.text.push_str("\n  came   ")?;
        push_shown(&mut self.text, came)?;
        self.text.push('\n')
    }

    /// Adds the last line: the counts.
    pub fn end(&mut self) -> Result<(), AllocError> {
        let file = self.file;
        let Counts {
            rows,
            runs,
            differing,
            faults,
        } = self.counts;
        write!(
            self.text,
            "{file}: {rows} rows, {runs} runs, {differing} differ, {faults} lines not taken\n"
        )
    }
}
