//! What the answers of solvers are settled as, of some that lie and some that don't.
use bd_cdcl::{Found, Scripted};
use bd_cnf::{Assignment, Clause, Clauses, Cnf, Lit};
use bd_lrat::{ClauseIds, Hint, Hints, Line, Log};
use bd_verify::{Settled, settle};
use std::alloc::{AllocError, Global};
use std::process::Abort;
use std::test::Fail;

/// The four clauses over two variables, which no assignment satisfies, a line each.
const SQUARE: &str = "1 2\n1 -2\n-1 2\n-1 -2\n";

/// The first three of the four clauses over two variables, a line each.
const OPEN: &str = "1 2\n1 -2\n-1 2\n";

/// The clauses over two variables, what is said, a model by the variables that are true, the budget, the lines of the
/// log, and what that comes to. A line has its id, its literals, 0 and its hints; `d` begins a deletion.
static ROWS: [(&str, &str, u32, &str, &str); 13] = [
    (SQUARE, "refuted", 9, "5 -1 0 4", "bad proof 1"),
    (SQUARE, "refuted", 9, "", "no end 0"),
    (SQUARE, "model 1 2", 9, "", "bad model 4"),
    (SQUARE, "model", 9, "", "bad model 1"),
    (OPEN, "model 1 2", 0, "", "model"),
    (SQUARE, "spent", 3, "5 -1 0 3 4", "no end 1"),
    (SQUARE, "spent", 1, "5 -1 0 3 4", "spent"),
    (SQUARE, "spent", 0, "", "spent"),
    (
        SQUARE,
        "refuted",
        9,
        "5 -1 0 3 3 4 99\n6 0 5 1 2",
        "refuted",
    ),
    (
        SQUARE,
        "refuted",
        9,
        "5 -1 0 3 4\nd 1\n6 0 5 1 2",
        "bad proof 3",
    ),
    (
        SQUARE,
        "refuted",
        9,
        "18446744073709551615 -1 0 3 4\n6 0 5 1 2",
        "bad proof 2",
    ),
    (SQUARE, "refuted", 9, "5 3 0 1", "bad proof 1"),
    // accepted, and not fresh
    (SQUARE, "spent", 1, "5 1 2 0 1", "spent"),
];

/// The number that a word spells, and 0 for another word.
fn number(word: &str) -> u64 {
    word.parse::<u64>().unwrap_or(0)
}

/// The literal that a number spells; none for 0.
fn literal(word: &str) -> Option<Lit> {
    let number = word.parse::<i64>().unwrap_or(0);
    let var = number.unsigned_abs();
    if var > 0 {
        Some(Lit::new(var, number > 0))
    } else {
        None
    }
}

/// The clause of the literals of a text, which is no tautology.
fn clause(rt: &(impl Abort + AllocGlobal), text: &str) -> Result<Clause, AllocError> {
    let mut lits = Vec::new(rt.alloc());
    for word in text.split_whitespace() {
        if let Some(lit) = literal(word) {
            lits.push(lit)?;
        }
    }
    Ok(Clause::from_vec(lits).expect(rt, "no tautology"))
}

/// Adds the clause of a text.
fn push(rt: &(impl Abort + AllocGlobal), cnf: &mut Cnf, text: &str) -> Result<(), AllocError> {
    let clause = clause(rt, text)?;
    assert!(rt; clause.is_within(cnf.vars()));
    cnf.push(clause)
}

/// The formula of a text over two variables.
fn formula(rt: &(impl Abort + AllocGlobal), text: &str) -> Result<Cnf, AllocError> {
    let mut cnf = Cnf::new(2, Clauses::new(rt.alloc()));
    for line in text.lines() {
        push(rt, &mut cnf, line)?;
    }
    Ok(cnf)
}

/// The hints of a text.
fn hints(alloc: Global, text: &str) -> Result<Hints, AllocError> {
    let mut hints = Hints::new(alloc);
    for word in text.split_whitespace() {
        hints.push(Hint::Unit(number(word)))?;
    }
    Ok(hints)
}

/// The deletion of a clause.
fn deletion(alloc: Global, id: u64) -> Result<Line, AllocError> {
    let ids = ClauseIds::from_vec(vec![in alloc; id]?);
    Ok(Line::Delete { id: 0, ids })
}

/// An addition: its id and literals, and its hints.
fn addition(rt: &(impl Abort + AllocGlobal), head: &str, tail: &str) -> Result<Line, AllocError> {
    let (id, lits) = head.split_once(' ').unwrap_or((head, ""));
    let id = number(id);
    let clause = clause(rt, lits)?;
    let hints = hints(rt.alloc(), tail)?;
    Ok(Line::Add { id, clause, hints })
}

/// The line of a text.
fn line(rt: &(impl Abort + AllocGlobal), text: &str) -> Result<Line, AllocError> {
    match text.strip_prefix("d ") {
        Some(id) => deletion(rt.alloc(), number(id)),
        None => {
            let (head, tail) = text.split_once(" 0 ").unwrap_or((text, ""));
            addition(rt, head, tail)
        }
    }
}

/// The lines of a text.
fn log(rt: &(impl Abort + AllocGlobal), text: &str) -> Result<Log, AllocError> {
    let mut log = Log::new(rt.alloc());
    for text in text.lines() {
        log.push(line(rt, text)?)?;
    }
    Ok(log)
}

/// The assignment in which these variables are true.
fn assignment(alloc: Global, vars: &str) -> Result<Assignment, AllocError> {
    let mut assignment = Assignment::new(alloc);
    for word in vars.split_whitespace() {
        assignment.set(number(word), true)?;
    }
    Ok(assignment)
}

/// What the scripted solver says by these words: a model with its true variables, `spent`, or that it is refuted.
fn found(alloc: Global, said: &str) -> Result<Found, AllocError> {
    match said.strip_prefix("model") {
        Some(vars) => Ok(Found::Model(assignment(alloc, vars)?)),
        None if said == "spent" => Ok(Found::Spent),
        None => Ok(Found::Refuted),
    }
}

/// What a checked answer comes to, in words.
fn shown(alloc: Global, settled: &Settled) -> Result<String, AllocError> {
    let mut text = String::new(alloc);
    match settled {
        Settled::Refuted(_) => text.push_str("refuted")?,
        Settled::Model(..) => text.push_str("model")?,
        Settled::Spent(_) => text.push_str("spent")?,
        Settled::BadProof(number) => write!(text, "bad proof {number}")?,
        Settled::NoEnd(number) => write!(text, "no end {number}")?,
        Settled::BadModel(number) => write!(text, "bad model {number}")?,
    }
    Ok(text)
}

/// A solver that says this, with that log.
fn script(
    rt: &(impl Abort + AllocGlobal),
    said: &str,
    lines: &str,
) -> Result<Scripted, AllocError> {
    let found = found(rt.alloc(), said)?;
    let lines = log(rt, lines)?;
    Ok(Scripted { found, lines })
}

/// What the scripted solver's answer comes to once it is checked, in words.
fn settled(
    alloc: Global,
    solver: &mut Scripted,
    cnf: &Cnf,
    budget: u32,
) -> Result<String, AllocError> {
    let settled = settle(alloc, solver, cnf, budget)?;
    shown(alloc, &settled)
}

/// What a scripted answer to the clauses comes to, with this budget and this log, in words.
fn outcome(
    rt: &(impl Abort + AllocGlobal),
    clauses: &str,
    said: &str,
    budget: u32,
    lines: &str,
) -> Result<String, AllocError> {
    let cnf = formula(rt, clauses)?;
    let mut solver = script(rt, said, lines)?;
    settled(rt.alloc(), &mut solver, &cnf, budget)
}

/// Each answer of a solver, also one that lies, comes to what its row says.
#[test]
fn answers_are_checked(rt: HostRuntime) -> Result<(), Fail> {
    for &(clauses, said, budget, lines, want) in &ROWS {
        assert_eq!(rt; outcome(&rt, clauses, said, budget, lines)?.as_str(), want);
    }
    Ok(())
}
