//! Examples: the program over files and sinks in memory.

use crate::program;
use bd_files::{Page, Shelf};
use bd_host::WordsError;
use std::alloc::{AllocError, Global};
use std::process::ExitCode;
use std::test::Fail;

/// A one-bit pipeline that stalls where its input is false.
const STALLS: &str = "(pipeline (latch a bool) (input go bool false) (next a (ite go (not a) a)) \
(flush 0) (steps 1))";

/// A bit that becomes true, where no step is allowed.
const RISES: &str = "(pipeline (latch a bool) (next a true) (flush 0) (steps 0))";

/// A machine that turns its bit.
const TURNS: &str = "(specification (latch a bool) (next a (not a)))";

/// The line of words that aren't taken.
const USAGE: &str =
    "usage: burch_dill check PIPE SPEC [INV] [--budget N] [--cnf FILE] [--lrat FILE] [--diverse] \
| replay PIPE SPEC CASE [INV] | run PIPE SPEC CASE CYCLES | gen DEPTH DROP \
| recheck PIPE SPEC PROOF [INV] | bounded PIPE SPEC START C [--budget N] \
| retrace PIPE SPEC TRAIL START | complete PIPE SPEC COMP [INV] [--agree] [--budget N]\n";

/// What a program is given, and what it ends with and prints.
#[derive(Clone, Copy)]
struct Row {
    /// The names of the two files, or why there are no words.
    names: Result<(&'static str, &'static str), WordsError>,
    pipe: &'static str,
    spec: &'static str,
    status: u8,
    out: &'static str,
    err: &'static str,
}

static ROWS: [Row; 6] = [
    Row {
        names: Ok(("p", "s")),
        pipe: STALLS,
        spec: TURNS,
        status: 0,
        out: "correct\n",
        err: "",
    },
    Row {
        names: Ok(("p", "s")),
        pipe: RISES,
        spec: TURNS,
        status: 1,
        out: "wrong commute\n(case 1\n (latch a false))\n",
        err: "",
    },
    Row {
        names: Ok(("p", "s")),
        pipe: STALLS,
        spec: "",
        status: 3,
        out: "",
        err: "spec:0: E04 wrong or missing head\n",
    },
    Row {
        names: Ok(("p", "none")),
        pipe: STALLS,
        spec: TURNS,
        status: 5,
        out: "",
        err: "cannot read\n",
    },
    Row {
        names: Err(WordsError::Memory),
        pipe: STALLS,
        spec: TURNS,
        status: 6,
        out: "",
        err: "out of memory\n",
    },
    Row {
        names: Err(WordsError::NotText),
        pipe: STALLS,
        spec: TURNS,
        status: 2,
        out: "",
        err: USAGE,
    },
];

/// The words of a `check` of two names, or why there are no words.
fn words_of(
    alloc: Global,
    names: Result<(&str, &str), WordsError>,
) -> Result<Result<Vec<String>, WordsError>, AllocError> {
    let (pipe, spec) = match names {
        Ok(names) => names,
        Err(fault) => return Ok(Err(fault)),
    };
    let mut words = Vec::new(alloc);
    for word in ["burch_dill", "check", pipe, spec] {
        words.push(String::from_str(alloc, word)?)?;
    }
    Ok(Ok(words))
}

/// A file of a shelf: its name and its bytes.
fn file(alloc: Global, name: &str, text: &str) -> Result<(String, Vec<u8>), AllocError> {
    Ok((
        String::from_str(alloc, name)?,
        text.as_bytes().to_vec(alloc)?,
    ))
}

/// The shelf with a row's pipeline `p` and specification `s`, of which no call is to fail.
fn shelf(alloc: Global, row: &Row) -> Result<Shelf, AllocError> {
    let pipe = file(alloc, "p", row.pipe)?;
    let spec = file(alloc, "s", row.spec)?;
    Shelf::new(alloc, vec![in alloc; pipe, spec]?, Vec::new(alloc))
}

/// Whether the program ends and prints as the row says.
fn holds(alloc: Global, row: &Row) -> Result<bool, AllocError> {
    let mut files = shelf(alloc, row)?;
    holds_over(alloc, row, &mut files)
}

/// Whether the program ends and prints as the row says, over these files.
fn holds_over(alloc: Global, row: &Row, files: &mut Shelf) -> Result<bool, AllocError> {
    let mut out = Page::new(alloc, 80, Vec::new(alloc))?;
    holds_on(alloc, row, files, &mut out)
}

/// Whether the program ends and prints as the row says, over these files and on this page.
fn holds_on(
    alloc: Global,
    row: &Row,
    files: &mut Shelf,
    out: &mut Page,
) -> Result<bool, AllocError> {
    let mut err = Page::new(alloc, 400, Vec::new(alloc))?;
    let words = words_of(alloc, row.names)?;
    let code = program(alloc, words, files, out, &mut err);
    Ok(
        code == ExitCode::from(row.status)
            && out.written() == row.out.as_bytes()
            && err.written() == row.err.as_bytes(),
    )
}

/// The program ends with the status and the lines of each kind of answer.
#[test]
fn ends_with_the_status_of_the_answer(rt: HostRuntime) -> Result<(), Fail> {
    for row in &ROWS {
        assert!(rt; holds(rt.alloc(), row)?, "{}", row.status);
    }
    Ok(())
}
