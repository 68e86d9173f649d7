//! Tables and memories, cases that fit, and values that are compared.
use crate::checks::{
    Check, NOTHING, ONE_STAGE, PENDING, TWO_STAGE, case, changed, check_texts, design,
};
use bd_model::{Case, Design, Memory, Scalar, State, Table, Value};
use std::process::Abort;

/// Two memories.
const MEMORIES: &str = "(pipeline (memory m) (memory n) (next m m) (next n n) (flush 0) (steps 0))";

/// Cases of two memories, a line each: whether they read alike, and their defaults and rows.
const PAIRS: &str = "alike (case 1 (memory m 0 (1 2) (1 1) (2 3)) (memory n 0 (1 2) (1 1) (2 3)))
alike (case 1 (memory m 0 (1 2) (1 1) (2 3)) (memory n 0 (2 3) (1 2)))
apart (case 1 (memory m 0 (1 2) (1 1) (2 3)) (memory n 0 (1 1) (2 3)))
apart (case 1 (memory m 0 (1 2) (1 1) (2 3)) (memory n 1 (1 2) (2 3)))";

/// The memory that an entry of a state holds.
fn memory<'a>(rt: &impl Abort, state: &'a State, entry: usize) -> &'a Memory {
    match state.as_slice().get(entry) {
        Some(Value::Memory(memory)) => memory,
        _ => panic!(rt; "no memory"),
    }
}

/// Checks that the memory with two rows at 1 reads the first of them.
fn check_reads(rt: &impl Abort, memory: &Memory) {
    assert!(rt; memory.at(1) == 2 && memory.at(2) == 3);
    assert!(rt; memory.at(3) == 0 && memory.at(u64::MAX) == 0);
}

/// Checks the first of two memories, and whether both read alike.
pub(crate) fn check_memories(rt: &impl Abort, state: &State, alike: bool) {
    let first = memory(rt, state, 0);
    check_reads(rt, first);
    assert!(rt; first.same(memory(rt, state, 1)) == alike);
}

/// A memory reads the first row at an address, and memories are the same if each address reads alike.
#[test]
fn first_row_counts(rt: HostRuntime) {
    for line in PAIRS.lines() {
        let (word, text) = line.split_once(' ').unwrap_or((line, ""));
        check_texts(
            &rt,
            MEMORIES,
            NOTHING,
            text,
            Check::Memories(word == "alike"),
        );
    }
}

/// Whether a table has the value of the row with all the arguments in order, and else its default.
fn has_values(table: &Table) -> bool {
    table.at(&[1, 2]) == Scalar::Word(7) && table.at(&[2, 1]) == Scalar::Word(0)
}

/// Checks the one table of a case.
pub(crate) fn check_table(rt: &impl Abort, case: &Case) {
    assert!(rt; case.interp.len() == 1);
    for table in case.interp.as_slice() {
        assert!(rt; has_values(table));
    }
}

/// A table has the value of the row with all the arguments in order, and else its default.
#[test]
fn table_at_arguments(rt: HostRuntime) {
    let pipe = "(pipeline (function f 2) (flush 0) (steps 0))";
    check_texts(
        &rt,
        pipe,
        NOTHING,
        "(case 1 (function f 0 (1 2 7)))",
        Check::Table,
    );
}

/// Checks whether a case of a design fits that of another pipeline and specification, and whether that is the same.
pub(crate) fn check_other(
    rt: &(impl Abort + AllocGlobal),
    found: &Design,
    case: &Case,
    pipe: &str,
    spec: &str,
    fits: bool,
    alike: bool,
) {
    let other = design(rt, pipe, spec);
    assert!(rt; other.fits(case) == fits && (*found == other) == alike);
}

/// Two constants that are kept apart.
const APART: &str = "(pipeline (function c 0) (function d 0) (distinct c d) (flush 0) (steps 0))";

/// Two constants.
const CONSTANTS: &str = "(pipeline (function c 0) (function d 0) (flush 0) (steps 0))";

/// Checks whether a case of two constants fits where they are kept apart.
fn check_constants(rt: &(impl Abort + AllocGlobal), text: &str, fits: bool) {
    let what = Check::Other(APART, NOTHING, fits, false);
    check_texts(rt, CONSTANTS, NOTHING, text, what);
}

/// A case fits constants that are kept apart if their values differ and they have no rows.
#[test]
fn constants_fit(rt: HostRuntime) {
    check_constants(&rt, "(case 1 (function c 0) (function d 1))", true);
    check_constants(&rt, "(case 1 (function c 1) (function d 0))", true);
    check_constants(&rt, "(case 1 (function c 1) (function d 1))", false);
    check_constants(&rt, "(case 1 (function c 0 (0)) (function d 1))", false);
}

/// A function, a constant, a predicate, and entries and inputs of each sort.
const EACH_SORT: &str =
    "(pipeline (function f 2) (function g 0) (predicate p 1) (memory m) (next m m)
 (latch a bool) (next a a) (latch w word) (next w w) (input i bool true) (input j word (g))
 (flush 0) (steps 0))";

/// A case of each sort.
const SORTED: &str = "(case 1 (function f 0 (1 2 3)) (predicate p false (1 true)) (memory m 0)
 (latch a true) (latch w 1) (input i true) (input j 1))";

/// Changes, a line each: of the pipeline with each sort, and of the case that makes it one of that pipeline.
const CHANGES: &str = "\
(function g 0) (predicate p 1) -> (function g 0); (predicate p false (1 true)) (memory -> (memory
function f 2 -> function f 1; (1 2 3) -> (1 3)
predicate p 1 -> function p 1; predicate p false (1 true) -> function p 0 (1 1)
(latch w word) (next w w) (input -> (input; (latch w 1) (input i -> (input i
latch a bool -> latch a word; latch a true -> latch a 1
(input i bool true) (input j word (g)) -> (input i bool true); (input i true) (input j 1) -> (input i true)
input j word (g) -> input j bool true; input j 1 -> input j true";

/// Checks that a case with a change, of a pipeline with a change, doesn't fit the design with each sort.
fn check_unfit(rt: &(impl Abort + AllocGlobal), change: &str) {
    let (pipe, case) = change.split_once("; ").unwrap_or((change, ""));
    let pipe = changed(rt, EACH_SORT, pipe);
    let case = changed(rt, SORTED, case);
    let what = Check::Other(EACH_SORT, NOTHING, false, false);
    check_texts(rt, pipe.as_str(), NOTHING, case.as_str(), what);
}

/// A case fits if its tables, entries and inputs are as many as the design's, and of its sorts.
#[test]
fn cases_fit(rt: HostRuntime) {
    let what = Check::Other(EACH_SORT, NOTHING, true, true);
    check_texts(&rt, EACH_SORT, NOTHING, SORTED, what);
    for change in CHANGES.lines() {
        check_unfit(&rt, change);
    }
}

/// Checks that the two stages aren't those with a change, and whether the case of the pending write fits these too.
fn check_stages(rt: &(impl Abort + AllocGlobal), change: &str, fits: bool) {
    let pipe = changed(rt, TWO_STAGE, change);
    let what = Check::Other(pipe.as_str(), ONE_STAGE, fits, false);
    check_texts(rt, TWO_STAGE, ONE_STAGE, PENDING, what);
}

/// A design equals itself, and none that differs in one part.
#[test]
fn designs_are_compared(rt: HostRuntime) {
    let what = Check::Other(TWO_STAGE, ONE_STAGE, true, true);
    check_texts(&rt, TWO_STAGE, ONE_STAGE, PENDING, what);
    check_stages(&rt, "read rf2 -> read rf", true);
    check_stages(&rt, "(flush -> (latch w bool) (next w v) (flush", false);
    check_stages(&rt, "steps 1 -> steps 2", true);
}

/// Checks that a copy of a case equals it, and not the one of a text.
fn check_copy(
    rt: &(impl Abort + AllocGlobal),
    design: &Design,
    found: &Case,
    copy: &Case,
    text: &str,
) {
    let other = case(rt, design, text);
    assert!(rt; *copy == *found && !(*copy == other), "{text}");
}

/// Checks that a copy equals the case, and not the one of a text.
pub(crate) fn check_copied(
    rt: &(impl Abort + AllocGlobal),
    design: &Design,
    found: &Case,
    text: &str,
) {
    let copy = found.clone().expect(rt, "memory");
    check_copy(rt, design, found, &copy, text);
}

/// Checks that a copy of the case whose write is pending equals it, and not the case with a change.
fn check_change(rt: &(impl Abort + AllocGlobal), change: &str) {
    let text = changed(rt, PENDING, change);
    check_texts(
        rt,
        TWO_STAGE,
        ONE_STAGE,
        PENDING,
        Check::Copy(text.as_str()),
    );
}

/// A copy of a case equals the case, and none that differs in one part.
#[test]
fn cases_are_compared(rt: HostRuntime) {
    check_change(&rt, "stall false -> stall true");
    check_change(&rt, "latch pc 1 -> latch pc 2");
    check_change(&rt, "9 50 60 -> 9 50 61");
}
