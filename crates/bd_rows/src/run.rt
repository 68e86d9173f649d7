//! The runs of a row.

use crate::compare::{Came, compare};
use crate::devices::{Counted, Watched};
use crate::entry::{Key, RowLine, TestRow};
use crate::fault::RowFault;
use crate::report::Report;
use crate::text::push_numbered;
use crate::twist::{Change, MOST, Twist};
use bd_files::{Files, Page, Shelf, Sink};
use std::alloc::{AllocError, Global};
use std::str;

/// How many bytes an output takes.
const ROOM: usize = 100_000;

/// Runs a row as it stands, and once more for each change that it asks for.
pub fn run_row(alloc: Global, row: &TestRow<'_>, report: &mut Report<'_>) -> Result<(), RowFault> {
    let Some(words) = row.words() else {
        return Err(RowFault::NoWords);
    };
    let runs = Runs { alloc, row, words };
    runs.once(Twist::none(), report)?;
    for entry in &row.given {
        runs.once_more(entry, report)?;
    }
    for entry in &row.own {
        runs.once_more(entry, report)?;
    }
    report.end_row();
    Ok(())
}

/// The runs of a row, the first of which has these words.
#[derive(Clone, Copy)]
struct Runs<'b, 'a> {
    alloc: Global,
    row: &'b TestRow<'a>,
    words: &'b str,
}

impl Runs<'_, '_> {
    /// The runs that one line of the row asks for.
    fn once_more(self, entry: &RowLine<'_>, report: &mut Report<'_>) -> Result<(), AllocError> {
        match entry.key {
            Key::Again => self.once(Twist::again(entry.rest), report),
            Key::Failing => {
                self.once(Twist::none().silent(), report)?;
                self.fail_each_call(report)?;
                self.fail_each_put(report)
            }
            Key::Cut => self.cut(entry, report),
            Key::Spoil => self.spoil(entry, report),
            Key::Long => self.refuse(entry, Change::Long, MOST as u64 + 1, report),
            _ => Ok(()),
        }
    }

    /// The row where each call on the files fails in turn.
    fn fail_each_call(self, report: &mut Report<'_>) -> Result<(), AllocError> {
        let calls = str::from_utf8(self.row.calls()).unwrap_or("");
        for (index, call) in calls.lines().enumerate() {
            let err = if call.starts_with("load ") {
                b"cannot read\n".as_slice()
            } else {
                b"cannot save\n".as_slice()
            };
            let twist = Twist::call_fails((index as u64).saturating_add(1), err);
            self.once(twist, report)?;
            self.once(twist.silent(), report)?;
        }
        Ok(())
    }

    /// The row where the output fails after each of its bytes.
    fn fail_each_put(self, report: &mut Report<'_>) -> Result<(), AllocError> {
        let Some(length) = self.row.out_len() else {
            return Ok(());
        };
        for kept in 0..=length {
            let twist = Twist::put_fails(kept, b"cannot write\n".as_slice());
            self.once(twist, report)?;
            self.once(twist.silent(), report)?;
        }
        Ok(())
    }

    /// The row where the file ends after each of its bytes but the last.
    fn cut(self, entry: &RowLine<'_>, report: &mut Report<'_>) -> Result<(), AllocError> {
        for length in 1..self.row.file_len(entry.name) {
            self.refuse(entry, Change::Cut(length), length as u64, report)?;
        }
        Ok(())
    }

    /// The row where each byte of the file isn't allowed.
    fn spoil(self, entry: &RowLine<'_>, report: &mut Report<'_>) -> Result<(), AllocError> {
        for place in 0..self.row.file_len(entry.name) {
            let number = (place as u64).saturating_add(1);
            self.refuse(entry, Change::Spoilt(place), number, report)?;
        }
        Ok(())
    }

    /// The row with a changed file, which is refused by the line that the entry has, filled with the number.
    fn refuse(
        self,
        entry: &RowLine<'_>,
        change: Change,
        number: u64,
        report: &mut Report<'_>,
    ) -> Result<(), AllocError> {
        let mut err = Vec::new(self.alloc);
        push_numbered(self.alloc, &mut err, entry.rest, number)?;
        self.refuse_by(entry.name, change, err.as_slice(), report)
    }

    /// The row with a changed file, which is refused by this line.
    fn refuse_by<'t>(
        self,
        name: &'t str,
        change: Change,
        err: &'t [u8],
        report: &mut Report<'_>,
    ) -> Result<(), AllocError> {
        self.once(Twist::changed(name, change, err), report)
    }

    /// The row with that change.
    fn once(self, twist: Twist<'_>, report: &mut Report<'_>) -> Result<(), AllocError> {
        report.add_run();
        let mut files = self.files(twist)?;
        self.steps(twist, &mut files, report)
    }

    /// The files that the row is given.
    fn files(self, twist: Twist<'_>) -> Result<Watched<Shelf>, AllocError> {
        let alloc = self.alloc;
        let mut held = Vec::new(alloc);
        push_files(alloc, &mut held, self.row.own.as_slice(), twist)?;
        push_files(alloc, &mut held, self.row.given.as_slice(), twist)?;
        let fails = vec![in alloc; self.row.failing(), twist.failing]?;
        Ok(Watched::new(alloc, Shelf::new(alloc, held, fails)?))
    }

    /// The runs of the row, one after another.
    fn steps(
        self,
        twist: Twist<'_>,
        files: &mut Watched<Shelf>,
        report: &mut Report<'_>,
    ) -> Result<(), AllocError> {
        self.step(0, self.words, twist, files, report)?;
        for entry in &self.row.own {
            if entry.key == Key::Then {
                self.step(entry.step, entry.rest, Twist::none(), files, report)?;
            }
        }
        Ok(())
    }

    /// One run, which is compared with what the row wants.
    fn step(
        self,
        step: usize,
        words: &str,
        twist: Twist<'_>,
        files: &mut Watched<Shelf>,
        report: &mut Report<'_>,
    ) -> Result<(), AllocError> {
        let mut list = Vec::new(self.alloc);
        push_words(self.alloc, &mut list, words)?;
        push_words(self.alloc, &mut list, twist.more)?;
        files.forget();
        let mut out = page(self.alloc, ROOM, twist.kept)?;
        self.step_on(step, list.as_slice(), twist, files, &mut out, report)
    }

    /// The run on that output.
    fn step_on(
        self,
        step: usize,
        words: &[String],
        twist: Twist<'_>,
        files: &mut Watched<Shelf>,
        out: &mut Counted<Page>,
        report: &mut Report<'_>,
    ) -> Result<(), AllocError> {
        let room = if twist.is_silent { 0 } else { ROOM };
        let mut err = page(self.alloc, room, None)?;
        let status = status_of(self.alloc, words, files, out, &mut err);
        let came = Came {
            status,
            out: out.sink.written(),
            out_puts: out.puts,
            err: err.sink.written(),
            err_puts: err.puts,
        };
        compare(self.row, step, twist, came, files, report)
    }
}

/// Adds the files among these lines, changed as it is asked for.
fn push_files(
    alloc: Global,
    held: &mut Vec<(String, Vec<u8>)>,
    entries: &[RowLine<'_>],
    twist: Twist<'_>,
) -> Result<(), AllocError> {
    for entry in entries {
        if matches!(entry.key, Key::File | Key::Copy) {
            let name = String::from_str(alloc, entry.name)?;
            let bytes = twist.text_of(alloc, entry.name, entry.text.as_slice())?;
            held.push((name, bytes))?;
        }
    }
    Ok(())
}

/// Adds the words of a text.
fn push_words(alloc: Global, words: &mut Vec<String>, text: &str) -> Result<(), AllocError> {
    for word in text.split_whitespace() {
        words.push(String::from_str(alloc, word)?)?;
    }
    Ok(())
}

/// A page that counts its puts, the first of which fails after so many bytes, if it is to fail.
fn page(alloc: Global, room: usize, kept: Option<usize>) -> Result<Counted<Page>, AllocError> {
    let fails = match kept {
        Some(kept) => vec![in alloc; (1, kept)]?,
        None => Vec::new(alloc),
    };
    Ok(Counted {
        sink: Page::new(alloc, room, fails)?,
        puts: 0,
    })
}

/// The status of the companion, if the first word names it, or of the program.
fn status_of<F: Files, O: Sink, E: Sink>(
    alloc: Global,
    words: &[String],
    files: &mut F,
    out: &mut O,
    err: &mut E,
) -> u8 {
    match words.first() {
        Some(word) if word.as_str() == "bd_view" => {
            bd_show::run(alloc, words, files, out, err).status()
        }
        _ => bd_app::run(alloc, words, files, out, err).status(),
    }
}
