//! How a run ended, beside what its row wants.

use crate::devices::Watched;
use crate::entry::{Key, RowLine, TestRow};
use crate::report::{Report, RowPlace};
use crate::twist::Twist;
use bd_files::{Files, Shelf};
use std::alloc::AllocError;
use std::str;

/// The most bytes of a saved file that are compared.
const MOST_SAVED: usize = 4_194_304;

/// What a run left on its outputs, and its status.
#[derive(Clone, Copy)]
pub struct Came<'a> {
    pub status: u8,
    pub out: &'a [u8],
    pub out_puts: u64,
    pub err: &'a [u8],
    pub err_puts: u64,
}

/// How a run has to end.
#[derive(Clone, Copy)]
struct Expected<'a> {
    status: u64,
    out: &'a [u8],
    /// Whether more may be printed after that.
    goes_on: bool,
    out_puts: u64,
    err: &'a [u8],
}

impl<'a> Expected<'a> {
    /// What the lines of a run say, with nothing changed.
    fn of_entries(entries: &'a [RowLine<'_>], step: usize) -> Expected<'a> {
        let mut wanted = Expected {
            status: 0,
            out: &[],
            goes_on: false,
            out_puts: 0,
            err: &[],
        };
        for entry in entries {
            if entry.step == step {
                wanted = wanted.with(entry);
            }
        }
        wanted
    }

    /// With what one more line says.
    fn with(self, entry: &'a RowLine<'_>) -> Expected<'a> {
        match entry.key {
            Key::Status => Expected {
                status: entry.number,
                ..self
            },
            Key::Out => Expected {
                out: entry.text.as_slice(),
                out_puts: 1,
                ..self
            },
            Key::Starts => Expected {
                out: entry.text.as_slice(),
                goes_on: true,
                out_puts: 1,
                ..self
            },
            Key::Err => Expected {
                err: entry.text.as_slice(),
                ..self
            },
            _ => self,
        }
    }

    /// With what the change makes of it.
    fn changed(self, twist: Twist<'a>) -> Expected<'a> {
        let Some(refusal) = twist.refusal else {
            return self;
        };
        let (out, out_puts) = match twist.kept {
            Some(kept) => (self.out.get(..kept).unwrap_or(self.out), 1),
            None => (b"".as_slice(), 0),
        };
        Expected {
            status: u64::from(refusal.status),
            out,
            goes_on: false,
            out_puts,
            err: refusal.err,
        }
    }

    /// Where the error output takes nothing.
    fn silenced(self, twist: Twist<'a>) -> Expected<'a> {
        if twist.is_silent {
            Expected {
                err: b"".as_slice(),
                ..self
            }
        } else {
            self
        }
    }
}

/// Compares how a run ended with what the row wants of it.
pub fn compare(
    row: &TestRow<'_>,
    step: usize,
    twist: Twist<'_>,
    came: Came<'_>,
    files: &mut Watched<Shelf>,
    report: &mut Report<'_>,
) -> Result<(), AllocError> {
    let place = RowPlace {
        line: row.line,
        row: row.name,
        twist,
    };
    let wanted = Expected::of_entries(row.own.as_slice(), step);
    let wanted = wanted.changed(twist).silenced(twist);
    compare_ends(place, wanted, came, report)?;
    compare_calls(row, step, place, files, report)?;
    for entry in &row.own {
        if entry.step == step {
            let place = RowPlace {
                line: entry.line,
                ..place
            };
            compare_entry(row, entry, place, came, files, report)?;
        }
    }
    keep(row, step, wanted, came, files, report, place)
}

/// Compares the status and the two outputs.
fn compare_ends(
    place: RowPlace<'_>,
    wanted: Expected<'_>,
    came: Came<'_>,
    report: &mut Report<'_>,
) -> Result<(), AllocError> {
    report.compare_numbers(place, "status", wanted.status, u64::from(came.status))?;
    let out = if wanted.goes_on {
        came.out.get(..wanted.out.len()).unwrap_or(came.out)
    } else {
        came.out
    };
    report.compare(place, "output", wanted.out, out)?;
    report.compare_numbers(place, "puts on the output", wanted.out_puts, came.out_puts)?;
    report.compare(place, "error output", wanted.err, came.err)
}

/// Whether the text has this one in it.
fn has(text: &[u8], part: &[u8]) -> bool {
    for start in 0..text.len() {
        if text[start..].starts_with(part) {
            return true;
        }
    }
    false
}

/// Compares what one line says of the output or of a file.
fn compare_entry(
    row: &TestRow<'_>,
    entry: &RowLine<'_>,
    place: RowPlace<'_>,
    came: Came<'_>,
    files: &mut Watched<Shelf>,
    report: &mut Report<'_>,
) -> Result<(), AllocError> {
    match entry.key {
        Key::Has if place.twist.refusal.is_none() && !has(came.out, entry.text.as_slice()) => {
            report.compare(place, "output has", entry.text.as_slice(), came.out)
        }
        Key::Puts => report.compare_numbers(
            place,
            "puts on the error output",
            entry.number,
            came.err_puts,
        ),
        Key::Saved if is_saved(row.calls(), entry.name, place.twist.failing) => {
            compare_saved(entry, place, files, report)
        }
        Key::Saved | Key::Absent => compare_absent(entry, place, files, report),
        Key::Same => compare_both(entry, place, files, report),
        _ => Ok(()),
    }
}

/// Whether a file is saved before the call that fails, if one does.
fn is_saved(calls: &[u8], name: &str, failing: u64) -> bool {
    if failing == 0 {
        return true;
    }
    let calls = str::from_utf8(calls).unwrap_or("");
    for (index, call) in calls.lines().enumerate() {
        if (index as u64).saturating_add(1) < failing && call.strip_prefix("save ") == Some(name) {
            return true;
        }
    }
    false
}

/// Compares what is held under a name with a text.
fn compare_saved(
    entry: &RowLine<'_>,
    place: RowPlace<'_>,
    files: &mut Watched<Shelf>,
    report: &mut Report<'_>,
) -> Result<(), AllocError> {
    match files.files.load(entry.name, MOST_SAVED) {
        Ok(bytes) => report.compare(place, entry.name, entry.text.as_slice(), bytes.as_slice()),
        Err(_) => report.add_difference(place, "a file that isn't saved"),
    }
}

/// Compares what is held under a name with nothing.
fn compare_absent(
    entry: &RowLine<'_>,
    place: RowPlace<'_>,
    files: &mut Watched<Shelf>,
    report: &mut Report<'_>,
) -> Result<(), AllocError> {
    match files.files.load(entry.name, MOST_SAVED) {
        Ok(_) => report.add_difference(place, "a file that is saved"),
        Err(_) => Ok(()),
    }
}

/// Compares what is held under two names.
fn compare_both(
    entry: &RowLine<'_>,
    place: RowPlace<'_>,
    files: &mut Watched<Shelf>,
    report: &mut Report<'_>,
) -> Result<(), AllocError> {
    let first = files.files.load(entry.name, MOST_SAVED);
    let second = files.files.load(entry.rest, MOST_SAVED);
    match (first, second) {
        (Ok(first), Ok(second)) => {
            report.compare(place, entry.name, first.as_slice(), second.as_slice())
        }
        _ => report.add_difference(place, "a file that isn't saved"),
    }
}

/// The lines that say which calls the run makes, if the row says it.
fn calls_of<'b>(row: &'b TestRow<'_>, step: usize) -> Option<&'b [u8]> {
    for entry in &row.own {
        if entry.step == step && entry.key == Key::Calls {
            return Some(entry.text.as_slice());
        }
    }
    None
}

/// Compares the calls on the files, up to the one that fails. Where the row says nothing of them, each save has to be
/// one that it names.
fn compare_calls(
    row: &TestRow<'_>,
    step: usize,
    place: RowPlace<'_>,
    files: &Watched<Shelf>,
    report: &mut Report<'_>,
) -> Result<(), AllocError> {
    let Some(wanted) = calls_of(row, step) else {
        return compare_saves(row, step, place, files.calls(), report);
    };
    let came = files.calls();
    if place.twist.failing == 0 {
        return report.compare(place, "calls", wanted, came.as_bytes());
    }
    if wanted.starts_with(came.as_bytes()) {
        let count = came.lines().count() as u64;
        return report.compare_numbers(place, "calls", place.twist.failing, count);
    }
    report.compare(place, "calls", wanted, came.as_bytes())
}

/// Whether a run of the row names the file as one that is saved.
fn names_save(row: &TestRow<'_>, step: usize, name: &str) -> bool {
    for entry in &row.own {
        if entry.step == step
            && matches!(entry.key, Key::Saved | Key::Saves)
            && entry.name == name
        {
            return true;
        }
    }
    false
}

/// Says each save that the row doesn't name.
fn compare_saves(
    row: &TestRow<'_>,
    step: usize,
    place: RowPlace<'_>,
    calls: &str,
    report: &mut Report<'_>,
) -> Result<(), AllocError> {
    for call in calls.lines() {
        if let Some(name) = call.strip_prefix("save ") {
            if !names_save(row, step, name) {
                report.add_difference(place, call)?;
            }
        }
    }
    Ok(())
}

/// Puts the output into the file that the row names for it, without what it begins with where the row says only that.
fn keep(
    row: &TestRow<'_>,
    step: usize,
    wanted: Expected<'_>,
    came: Came<'_>,
    files: &mut Watched<Shelf>,
    report: &mut Report<'_>,
    place: RowPlace<'_>,
) -> Result<(), AllocError> {
    let kept = if wanted.goes_on {
        came.out.strip_prefix(wanted.out).unwrap_or(came.out)
    } else {
        came.out
    };
    for entry in &row.own {
        if entry.step == step && entry.key == Key::Keep {
            if files.files.save(entry.name, kept).is_err() {
                report.add_difference(place, "the output isn't kept")?;
            }
        }
    }
    Ok(())
}
