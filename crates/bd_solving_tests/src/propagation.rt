//! Propagation of units and of decisions by watched literals.
ghost use Rattle.std.specs.Prelude.{OnOk};
ghost use Rattle.bd_watch.specs.Watch.{IsWatching};

use crate::formulas::{SQUARE, formula, literal};
use bd_watch::Watch;
use std::alloc::AllocError;
use std::process::Abort;
use std::test::Fail;

/// The number of variables, the clauses, and the id of one that is false once the units are true.
static STARTS: [(u64, &str, Option<u64>); 5] = [
    (0, "", None),
    (1, "\n", Some(1)),
    (1, "1\n-1\n", Some(2)),
    (1, "1\n1\n", None),
    (3, UNITS, None),
];

const UNITS: &str = "-2\n1 2\n3\n";

const CHAIN: &str = "-1 2\n-2 3\n-3 4\n";

/// The number of variables, the clauses, what is decided in turn, the id of a clause that is false then, how many
/// literals are true, and how many of them before the last decision.
type PropagationRow = (
    u64,
    &'static str,
    &'static str,
    Option<u64>,
    usize,
    Option<usize>,
);

static ROWS: [PropagationRow; 7] = [
    (3, UNITS, "", None, 3, None),
    (4, CHAIN, "1", None, 4, Some(0)),
    (4, CHAIN, "-4", None, 4, Some(0)),
    (4, CHAIN, "3 -1", None, 3, Some(2)),
    (3, "1 2 3\n", "-1", None, 1, Some(0)),
    (3, "1 2 3\n", "-2 -1", None, 3, Some(1)),
    (2, SQUARE, "-1", Some(2), 2, Some(0)),
];

/// Propagates, and decides as long as no clause is false.
fn decided(watch: &mut Watch, decisions: &str) -> Result<Option<u64>, AllocError>
    requires { IsWatching watch.old }
    ensures { OnOk result (IsWatching watch.new) }
{
    for word in decisions.split_whitespace() {
        if let Some(id) = watch.propagate()? {
            return Ok(Some(id));
        }
        let Some(lit) = literal(word) else {
            continue;
        };
        let var = lit.var();
        if var < watch.trail().limit() && watch.trail().is_free(var) {
            watch.decide(lit);
        }
    }
    watch.propagate()
}

/// The clause that is false, how many literals are true, and how many of them before the last decision and once it is
/// taken back.
fn outcome(
    watch: &mut Watch,
    decisions: &str,
) -> Result<(Option<u64>, usize, Option<usize>, usize), AllocError>
    requires { IsWatching watch.old }
{
    let conflict = decided(watch, decisions)?;
    let count = watch.trail().as_slice().len();
    let start = watch.trail().last_start();
    if let Some(start) = start {
        watch.go_back_to(start);
    }
    Ok((conflict, count, start, watch.trail().as_slice().len()))
}

/// Checks a row's false clause, and how many literals are true then and once the last decision is taken back.
fn row_is_as_told(rt: &(impl Abort + AllocGlobal), row: PropagationRow) -> Result<(), AllocError> {
    let (vars, clauses, decisions, conflict, count, before) = row;
    let mut watch = Watch::load(rt.alloc(), &formula(rt, vars, clauses)?)?;
    if watch.assign_units().is_some() {
        panic!(rt; "no clause is false");
    }
    let want = (conflict, count, before, before.unwrap_or(count));
    assert!(rt; outcome(&mut watch, decisions)? == want);
    Ok(())
}

/// The units of a formula are made true, and a clause that is false then is named.
#[test]
fn units_are_true_at_the_start(rt: HostRuntime) -> Result<(), Fail> {
    for &(vars, clauses, conflict) in &STARTS {
        let mut watch = Watch::load(rt.alloc(), &formula(&rt, vars, clauses)?)?;
        assert!(&rt; watch.assign_units() == conflict);
    }
    Ok(())
}

/// What follows from each decision is made true, and no longer is once the decision is taken back.
#[test]
fn decisions_are_propagated(rt: HostRuntime) -> Result<(), Fail> {
    for &row in &ROWS {
        row_is_as_told(&rt, row)?;
    }
    Ok(())
}
