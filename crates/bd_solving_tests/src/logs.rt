//! Logs that are made of lines, and their check. What a text of a proof reads as, and which of its lines is refused for
//! which reason, is tested by the rows of `recheck`.
use crate::formulas::{SQUARE, clause, formula};
use bd_lrat::{
    Checker, ClauseIds, Hint, Hints, Line, Log, Refused, adds_empty, lrat_text, refused_line,
    refutes,
};
use std::alloc::{AllocError, Global};
use std::process::Abort;
use std::test::Fail;

/// The number that a word spells, and 0 for another word.
fn number(word: &str) -> u64 {
    word.parse::<u64>().unwrap_or(0)
}

/// The ids of a text.
fn ids(alloc: Global, text: &str) -> Result<ClauseIds, AllocError> {
    let mut ids = ClauseIds::new(alloc);
    for word in text.split_whitespace() {
        ids.push(number(word))?;
    }
    Ok(ids)
}

/// The hints of a text.
fn hints(alloc: Global, text: &str) -> Result<Hints, AllocError> {
    let mut hints = Hints::new(alloc);
    for word in text.split_whitespace() {
        hints.push(Hint::Unit(number(word)))?;
    }
    Ok(hints)
}

/// An addition: its id and literals, and its hints.
fn addition(rt: &(impl Abort + AllocGlobal), head: &str, tail: &str) -> Result<Line, AllocError> {
    let (id, lits) = head.split_once(' ').unwrap_or((head, ""));
    let id = number(id);
    let clause = clause(rt, lits)?;
    let hints = hints(rt.alloc(), tail)?;
    Ok(Line::Add { id, clause, hints })
}

/// The line of a text in LRAT, without the 0 at its end.
fn line(rt: &(impl Abort + AllocGlobal), text: &str) -> Result<Line, AllocError> {
    match text.split_once(" d ") {
        Some((id, tail)) => Ok(Line::Delete {
            id: number(id),
            ids: ids(rt.alloc(), tail)?,
        }),
        None => {
            let (head, tail) = text.split_once(" 0 ").unwrap_or((text, ""));
            addition(rt, head, tail)
        }
    }
}

/// The lines of a text.
fn log(rt: &(impl Abort + AllocGlobal), text: &str) -> Result<Log, AllocError> {
    let mut log = Log::new(rt.alloc());
    for text in text.lines() {
        log.push(line(rt, text)?)?;
    }
    Ok(log)
}

const REFUTATION: &str = "5 -1 0 3 4\n6 0 5 1 2\n6 d 1 2\n";

/// The square's refutation with a line more, which isn't accepted.
const REFUSED: &str = "5 -1 0 3 4\n6 0 5 1 2\n6 d 1 2\n7 -1 0 3\n";

/// Whether a log refutes the four clauses over two variables.
fn square_is_refuted(rt: &(impl Abort + AllocGlobal), log: &Log) -> Result<bool, AllocError> {
    let cnf = formula(rt, 2, SQUARE)?;
    refutes(rt.alloc(), &cnf, log)
}

/// The number, from 1, of the line at which a log's check over the square ends; none where all are accepted.
fn line_refused(rt: &(impl Abort + AllocGlobal), log: &Log) -> Result<Option<u64>, AllocError> {
    let cnf = formula(rt, 2, SQUARE)?;
    refused_line(rt.alloc(), &cnf, log)
}

/// Whether a log is written as this LRAT text.
fn has_text(alloc: Global, log: &Log, want: &str) -> Result<bool, AllocError> {
    let text = lrat_text(alloc, log)?;
    Ok(text.as_slice() == want.as_bytes())
}

/// A log by hand refutes the square, and is written as LRAT.
#[test]
fn the_square_is_refuted(rt: HostRuntime) -> Result<(), Fail> {
    let log = log(&rt, REFUTATION)?;
    assert!(&rt; square_is_refuted(&rt, &log)? && line_refused(&rt, &log)?.is_none());
    assert!(rt; has_text(rt.alloc(), &log, "5 -1 0 3 4 0\n6 0 5 1 2 0\n6 d 1 2 0\n")?);
    Ok(())
}

/// A line that its hints don't bear out is refused by its number, though an earlier one adds the empty clause.
#[test]
fn a_line_is_refused(rt: HostRuntime) -> Result<(), Fail> {
    let log = log(&rt, REFUSED)?;
    assert!(rt; line_refused(&rt, &log)? == Some(4) && adds_empty(&log));
    Ok(())
}

/// What the check of a line says.
fn checked(
    rt: &(impl Abort + AllocGlobal),
    checker: &mut Checker,
    text: &str,
) -> Result<Option<Refused>, AllocError> {
    let line = line(rt, text)?;
    Ok(checker.check_line(&line).err())
}

/// Whether the line is added.
fn is_added(
    rt: &(impl Abort + AllocGlobal),
    checker: &mut Checker,
    text: &str,
) -> Result<bool, AllocError> {
    let line = line(rt, text)?;
    Ok(checker.add_line(&line).is_ok())
}

/// A clause that was added can be used, and one that was deleted can't.
fn checks_lines(rt: &(impl Abort + AllocGlobal), checker: &mut Checker) -> Result<(), AllocError> {
    assert!(rt; checked(rt, checker, "5 -1 0 3 4")?.is_none());
    assert!(rt; checked(rt, checker, "6 0 5 1 2")? == Some(Refused::NoSuch(5)));
    assert!(rt; is_added(rt, checker, "5 -1 0 3 4")? && is_added(rt, checker, "0 d 1")?);
    assert!(rt; checked(rt, checker, "6 0 5 1 2")? == Some(Refused::NoSuch(1)));
    assert!(rt; !is_added(rt, checker, "6 0 5 1 2")?);
    Ok(())
}

/// A clause that a log adds can be used, and one that it deletes can't.
#[test]
fn lines_are_checked_and_added(rt: HostRuntime) -> Result<(), Fail> {
    let mut checker = Checker::new(rt.alloc(), &formula(&rt, 2, SQUARE)?)?;
    Ok(checks_lines(&rt, &mut checker)?)
}
