//! The places of a case that decide a value of its diagram.
ghost use Rattle.bd_model.specs.DesignView.{design_view};
ghost use Rattle.bd_model.specs.Lawful.{IsLawful};

use crate::checks::{Check, ONE_STAGE, PENDING, TWO_STAGE, changed, check_texts};
use bd_model::{Case, Design, State, Value};
use bd_sim::{flush, step};
use bd_slice::{CasePlace, Column, Location, slice_of};
use std::alloc::AllocError;
use std::process::Abort;

/// Adds a place: a latch by its entry, a cell by its entry and its address, an input, or a row by its symbol and its
/// arguments.
fn push_place(text: &mut String, place: &CasePlace) -> Result<(), AllocError> {
    match place {
        CasePlace::Latch(entry) => write!(text, "latch {entry}"),
        CasePlace::Cell(entry, address) => write!(text, "cell {entry} {address}"),
        CasePlace::Input(input) => write!(text, "input {input}"),
        CasePlace::Row(symbol, args) => push_row(text, *symbol, args.as_slice()),
    }
}

/// Adds a row: its symbol and its arguments.
fn push_row(text: &mut String, symbol: u32, args: &[u64]) -> Result<(), AllocError> {
    write!(text, "row {symbol}")?;
    for arg in args {
        write!(text, " {arg}")?;
    }
    Ok(())
}

/// Adds places, a line each.
fn push_places(text: &mut String, places: &[CasePlace]) -> Result<(), AllocError> {
    for place in places {
        push_place(text, place)?;
        text.push_str("\n")?;
    }
    Ok(())
}

/// Whether a text has this line.
fn has_line(text: &str, line: &str) -> bool {
    for other in text.lines() {
        if other == line {
            return true;
        }
    }
    false
}

/// Whether a text has each of these lines.
fn has_lines(text: &str, lines: &str) -> bool {
    for line in lines.lines() {
        if !has_line(text, line) {
            return false;
        }
    }
    true
}

/// Checks that these are the places written by hand, in any order.
fn check_places(rt: &(impl Abort + AllocGlobal), places: &[CasePlace], want: &str) {
    let mut text = String::new(rt.alloc());
    push_places(&mut text, places).expect(rt, "memory");
    let found = text.as_str();
    assert!(rt; has_lines(found, want) && has_lines(want, found), "{want}");
}

/// Checks the places that decide a value of a case's diagram.
pub(crate) fn check_slice(
    rt: &(impl Abort + AllocGlobal),
    design: &Design,
    case: &Case,
    column: Column,
    spot: Location,
    want: &str,
)
    requires { IsLawful (design_view design.now) }
{
    assert!(rt; design.fits(case));
    let places = slice_of(rt.alloc(), design, case, column, spot).expect(rt, "memory");
    check_places(rt, places.as_slice(), want);
}

/// The next counter. Symbol 0 is `inc`, and entry 0 is `pc`.
const COUNTED: &str = "input 0\nrow 0 1\nlatch 0\n";

/// Register 8 after a step: rows of `src`, `dst`, `op` and `alu`, and the entries `pc`, `v`, `d`, `o` and `a`.
const STEPPED: &str =
    "latch 0\nlatch 2\nlatch 3\nlatch 4\nlatch 5\nrow 1 1\nrow 2 1\nrow 3 1\nrow 4 3 4\nrow 4 9 50\n";

/// Register 8 after the cycle: the same, and whether it stalls.
const WRITTEN: &str =
    "input 0\nlatch 0\nlatch 2\nlatch 3\nlatch 4\nlatch 5\nrow 1 1\nrow 2 1\nrow 3 1\nrow 4 3 4\nrow 4 9 50\n";

/// Register 8 after the cycle where the operand is read before the pending write.
const STALE: &str = "input 0\nlatch 0\ncell 1 7\nrow 1 1\nrow 2 1\nrow 3 1\nrow 4 9 40\n";

/// Checks what decides a value of a pipeline, in the case whose write is pending.
fn check_pending(
    rt: &(impl Abort + AllocGlobal),
    pipe: &str,
    column: Column,
    spot: Location,
    want: &str,
) {
    let what = Check::Slice(column, spot, want);
    check_texts(rt, pipe, ONE_STAGE, PENDING, what);
}

/// What decides the counter and register 8 of the two stages is found before the cycle, after it and after the steps.
#[test]
fn slices_have_what_decides(rt: HostRuntime) {
    let (counter, register) = (Location::Latch(0), Location::Cell(1, 8));
    check_pending(&rt, TWO_STAGE, Column::Before(1), counter, "latch 0\n");
    check_pending(&rt, TWO_STAGE, Column::After(0), counter, COUNTED);
    check_pending(&rt, TWO_STAGE, Column::After(1), register, WRITTEN);
    check_pending(&rt, TWO_STAGE, Column::Steps(1), register, STEPPED);
}

/// The old content of a register decides the new one where the operand is read before the pending write.
#[test]
fn stale_operand_is_found(rt: HostRuntime) {
    let pipe = changed(&rt, TWO_STAGE, "read rf2 -> read rf");
    let register = Location::Cell(1, 8);
    check_pending(&rt, pipe.as_str(), Column::After(1), register, STALE);
}

/// Changes of the case whose write is pending, each at one place that decides what register 8 has.
const CHANGES: &str = "stall false -> stall true
latch pc 1 -> latch pc 2
latch v true -> latch v false
latch d 7 -> latch d 6
latch o 3 -> latch o 2
latch a 4 -> latch a 5
src 0 (1 7) -> src 0 (1 8)
dst 0 (1 8) -> dst 0 (1 7)
op 0 (1 9) -> op 0 (1 8)
3 4 50 -> 3 4 51
9 50 60 -> 9 50 61";

/// What a state of the two stages has in register 8, or 0 where it has no registers.
fn register(state: &State) -> u64 {
    match state.as_slice().get(1) {
        Some(Value::Memory(memory)) => memory.at(8),
        _ => 0,
    }
}

/// What register 8 has once the two stages are flushed from a state.
fn flushed_register(
    rt: &(impl Abort + AllocGlobal),
    design: &Design,
    case: &Case,
    state: &State,
) -> u64
    requires { IsLawful (design_view design.now) }
{
    let end = flush(rt.alloc(), design, &case.interp, state).expect(rt, "memory");
    register(&end)
}

/// Checks whether register 8 has 60 once the two stages are flushed after a cycle of a case.
pub(crate) fn check_register(
    rt: &(impl Abort + AllocGlobal),
    design: &Design,
    case: &Case,
    has: bool,
)
    requires { IsLawful (design_view design.now) }
{
    let (interp, state, inputs) = (&case.interp, &case.state, &case.inputs);
    let next = step(rt.alloc(), design, interp, state, inputs).expect(rt, "memory");
    assert!(rt; (flushed_register(rt, design, case, &next) == 60) == has);
}

/// Checks that a change of the case changes what register 8 has.
fn check_change(rt: &(impl Abort + AllocGlobal), change: &str) {
    let text = changed(rt, PENDING, change);
    check_texts(
        rt,
        TWO_STAGE,
        ONE_STAGE,
        text.as_str(),
        Check::Register(false),
    );
}

/// A change at any place that decides register 8 changes what is in it.
#[test]
fn no_place_can_be_left_out(rt: HostRuntime) {
    check_texts(&rt, TWO_STAGE, ONE_STAGE, PENDING, Check::Register(true));
    for change in CHANGES.lines() {
        check_change(&rt, change);
    }
}
