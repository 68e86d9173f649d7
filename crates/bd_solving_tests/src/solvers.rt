//! What solvers say of small formulas, and the logs that they write, which are worked out by hand.
ghost use Rattle.std.specs.Prelude.{◌≡◌, [], IfOk};
ghost use Rattle.bd_cdcl.specs.Law.{IsLaw};

use crate::formulas::{SQUARE, formula, push};
use bd_cdcl::{Cdcl, Found, HonestSolver, Plain, Scripted, Solver};
use bd_cnf::Cnf;
use bd_lrat::{Line, Log, lrat_text};
use std::alloc::{AllocError, Global};
use std::process::Abort;
use std::test::Fail;

/// The number of variables, the clauses, the budget, and what is said, with which log of decision clauses and which of
/// clauses of first unique implication points.
type SolverRow = (
    u64,
    &'static str,
    u32,
    &'static str,
    &'static str,
    &'static str,
);

const CUBE: &str = "1 2 3\n1 2 -3\n1 -2 3\n1 -2 -3\n-1 2 3\n-1 2 -3\n-1 -2 3\n-1 -2 -3\n";

/// Half a square teaches the first variable, and another the last one.
const HALF_SQUARES: &str = "1 2\n1 -2\n2 3\n-2 3\n";

const SQUARE_LOG: &str = "5 1 0 1 2 0\n6 0 5 3 4 0\n";

/// The square's log where the greatest variable is decided first.
const SQUARE_TURNED: &str = "5 2 0 1 3 0\n6 0 5 2 4 0\n";

const CUBE_START: &str = "9 1 2 0 1 2 0\n10 1 0 9 3 4 0\n";

const CUBE_LOG: &str = "9 1 2 0 1 2 0\n10 1 0 9 3 4 0\n11 2 0 10 5 6 0\n12 0 10 11 7 8 0\n";

const CUBE_TURNED_START: &str = "9 2 3 0 1 5 0\n10 3 0 9 3 7 0\n";

/// The cube's log where the greatest variable is decided first; the second was true last, so it is decided to be true.
const CUBE_TURNED: &str = "9 2 3 0 1 5 0\n10 3 0 9 3 7 0\n11 -2 0 10 4 8 0\n12 0 10 11 2 6 0\n";

static ROWS: [SolverRow; 14] = [
    (2, SQUARE, 0, "spent", "", ""),
    (2, SQUARE, 1, "refuted", SQUARE_LOG, SQUARE_TURNED),
    (2, SQUARE, 2, "refuted", SQUARE_LOG, SQUARE_TURNED),
    (0, "", 0, "model", "", ""),
    (1, "\n", 0, "refuted", "2 0 1 0\n", "2 0 1 0\n"),
    (1, "1\n-1\n", 0, "refuted", "3 0 1 2 0\n", "3 0 1 2 0\n"),
    (
        2,
        "1\n-1 2\n-2\n",
        0,
        "refuted",
        "4 0 1 2 3 0\n",
        "4 0 1 3 2 0\n",
    ),
    (2, "1\n-1 2\n", 0, "model", "", ""),
    (3, HALF_SQUARES, 0, "spent", "", ""),
    (
        3,
        HALF_SQUARES,
        1,
        "model",
        "5 1 0 1 2 0\n",
        "5 3 0 3 4 0\n",
    ),
    (5, "3\n", 7, "model", "", ""),
    (3, CUBE, 2, "spent", CUBE_START, CUBE_TURNED_START),
    (3, CUBE, 3, "refuted", CUBE_LOG, CUBE_TURNED),
    (3, CUBE, 4, "refuted", CUBE_LOG, CUBE_TURNED),
];

/// The word by which a row names what was found.
fn word(found: &Found) -> &'static str {
    match found {
        Found::Model(_) => "model",
        Found::Refuted => "refuted",
        Found::Spent => "spent",
    }
}

/// Whatever the honest solver, its answer and log meet the law: a model satisfies the formula, each line is accepted,
/// and what is refuted has the empty clause.
fn answer<S: HonestSolver>(
    solver: &mut S,
    cnf: &Cnf,
    budget: u32,
    log: &mut Log,
) -> Result<Found, AllocError>
    requires { log.old ≡ [] }
    ensures { IfOk result (λ found. IsLaw cnf.now budget found log.new) }
{
    solver.solve(cnf, budget, log)
}

/// Whether a log is written as this LRAT text.
fn has_text(alloc: Global, log: &Log, want: &str) -> Result<bool, AllocError> {
    let text = lrat_text(alloc, log)?;
    Ok(text.as_slice() == want.as_bytes())
}

/// Whether the solver says this, with this log.
fn says<S: HonestSolver>(
    alloc: Global,
    solver: &mut S,
    cnf: &Cnf,
    row: SolverRow,
    lines: &str,
) -> Result<bool, AllocError> {
    let (_, _, budget, said, _, _) = row;
    let mut log = Log::new(alloc);
    let found = answer(solver, cnf, budget, &mut log)?;
    if word(&found) != said {
        return Ok(false);
    }
    has_text(alloc, &log, lines)
}

/// Equal input gives equal output, so each formula is solved twice.
fn says_twice<S: HonestSolver>(
    rt: &(impl Abort + AllocGlobal),
    solver: &mut S,
    row: SolverRow,
    lines: &str,
) -> Result<bool, AllocError> {
    let (vars, clauses, _, _, _, _) = row;
    let cnf = formula(rt, vars, clauses)?;
    Ok(says(rt.alloc(), solver, &cnf, row, lines)? && says(rt.alloc(), solver, &cnf, row, lines)?)
}

/// The solver that learns clauses of decisions says what each row tells, with the log written by hand.
#[test]
fn decision_clauses_settle_formulas_within_the_budget(rt: HostRuntime) -> Result<(), Fail> {
    let mut solver = Plain::new(rt.alloc());
    for &row in &ROWS {
        let (_, _, _, _, lines, _) = row;
        assert!(&rt; says_twice(&rt, &mut solver, row, lines)?);
    }
    Ok(())
}

/// The solver that learns first unique implication points says what each row tells, with the log written by hand.
#[test]
fn unique_implication_points_settle_formulas_within_the_budget(
    rt: HostRuntime,
) -> Result<(), Fail> {
    let mut solver = Cdcl::new(rt.alloc());
    for &row in &ROWS {
        let (_, _, _, _, _, lines) = row;
        assert!(&rt; says_twice(&rt, &mut solver, row, lines)?);
    }
    Ok(())
}

/// Adds that the pigeon is in one of the holes.
fn push_pigeon(
    rt: &(impl Abort + AllocGlobal),
    cnf: &mut Cnf,
    pigeon: u64,
) -> Result<(), AllocError> {
    let mut text = String::new(rt.alloc());
    for hole in 0..7 {
        let var = 1 + 7 * (pigeon % 8) + hole;
        write!(text, "{var} ")?;
    }
    push(rt, cnf, text.as_str())
}

/// Adds that not both of the pigeons are in the hole.
fn push_pair(
    rt: &(impl Abort + AllocGlobal),
    cnf: &mut Cnf,
    hole: u64,
    first: u64,
    second: u64,
) -> Result<(), AllocError> {
    let one = 1 + 7 * (first % 8) + hole % 7;
    let other = 1 + 7 * (second % 8) + hole % 7;
    let text = format!(in rt.alloc(); "-{one} -{other}")?;
    push(rt, cnf, text.as_str())
}

/// Adds that eight pigeons are each in one of seven holes, and no two in one.
fn push_pigeons(rt: &(impl Abort + AllocGlobal), cnf: &mut Cnf) -> Result<(), AllocError> {
    for pigeon in 0..8 {
        push_pigeon(rt, cnf, pigeon)?;
    }
    for number in 0..7 * 64 {
        let (hole, second, first) = (number / 64, number / 8 % 8, number % 8);
        if first < second {
            push_pair(rt, cnf, hole, first, second)?;
        }
    }
    Ok(())
}

/// How many lines add clauses.
fn additions(log: &Log) -> usize {
    log.as_slice()
        .iter()
        .filter(|line| is_addition(line))
        .count()
}

/// Whether a line of a log adds a clause.
fn is_addition(line: &Line) -> bool {
    match line {
        Line::Add { .. } => true,
        Line::Delete { .. } => false,
    }
}

/// The ids of the first line that deletes clauses.
fn first_deletion(log: &Log) -> Option<&[u64]> {
    for line in log.as_slice() {
        if let Line::Delete { ids, .. } = line {
            return Some(ids.as_slice());
        }
    }
    None
}

/// The first two clauses are true at level 0 once the last variable is learned. The clause which says that it is true
/// is its reason.
fn deletes_first(alloc: Global, cnf: &Cnf) -> Result<bool, AllocError> {
    let mut log = Log::new(alloc);
    let found = Cdcl::new(alloc).solve(cnf, 300, &mut log)?;
    let deleted: &[u64] = &[1, 2];
    Ok(word(&found) == "spent" && additions(&log) == 300 && first_deletion(&log) == Some(deleted))
}

/// The first deletion of a long log names the clauses that a learned unit makes true, but not its reason.
#[test]
fn clauses_that_level_zero_makes_true_are_deleted(rt: HostRuntime) -> Result<(), Fail> {
    let mut cnf = formula(&rt, 58, "57 58\n-57 58\n")?;
    push_pigeons(&rt, &mut cnf)?;
    assert!(rt; deletes_first(rt.alloc(), &cnf)?);
    Ok(())
}

/// Whether the solver says that it is refuted, and logs nothing.
fn says_script(alloc: Global, solver: &mut Scripted, cnf: &Cnf) -> Result<bool, AllocError> {
    let mut log = Log::new(alloc);
    let found = solver.solve(cnf, 3, &mut log)?;
    Ok(word(&found) == "refuted" && log.len() == 0)
}

/// A scripted solver says the same at each call.
#[test]
fn a_script_is_said_each_time(rt: HostRuntime) -> Result<(), Fail> {
    let cnf = formula(&rt, 1, "")?;
    let mut solver = Scripted {
        found: Found::Refuted,
        lines: Log::new(rt.alloc()),
    };
    for _ in 0..2 {
        assert!(&rt; says_script(rt.alloc(), &mut solver, &cnf)?);
    }
    Ok(())
}
