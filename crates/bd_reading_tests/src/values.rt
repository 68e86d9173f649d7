//! What is written of cases, states and trails: the texts that they are read from.
use bd_case::{case_text, read_case, read_trail, state_text, trail_text};
use bd_model::{Case, Design};
use bd_typer::{DesignFault, design_of};
use std::alloc::{AllocError, Global};
use std::test::Fail;

/// Tables, entries and inputs of each sort.
const PIPE: &str =
    "(pipeline (function f 2) (function g 0) (predicate p 1) (memory m) (latch a bool) (latch w word)
 (input i bool true) (input j word w) (next m m) (next a a) (next w w) (flush 0) (steps 0))";

const CASE: &str = "(case 1
 (function f 9 (1 2 10))
 (function g 0 (4))
 (predicate p true (0 false) (18446744073709551615 true))
 (memory m 18446744073709551615 (5 7) (5 7))
 (latch a true)
 (latch w 18446744073709551615)
 (input i false)
 (input j 1))
";

const STATE: &str = " (memory m 18446744073709551615 (5 7) (5 7))
 (latch a true)
 (latch w 18446744073709551615)
";

const TRAIL: &str = "(trail 3
 (function f 9 (1 2 10))
 (function g 0 (4))
 (predicate p true (0 false))
 (memory m 1 (2 3))
 (latch a true)
 (latch w 4)
 (input i false true false)
 (input j 1 18446744073709551615 0))
";

/// Constants that are kept apart.
const CONSTANTS: &str =
    "(pipeline (function c 0) (function d 0) (distinct c d) (latch p word) (next p p) (flush 0) (steps 0))";

const SECOND_CASE: &str = "(case 2\n (constant c 3)\n (constant d 5)\n (latch p 0))\n";

/// The design of the pipeline, of which nothing is visible.
fn design(alloc: Global, pipe: &str) -> Result<Design, DesignFault> {
    let (pipe, spec) = (pipe.as_bytes(), "(specification)".as_bytes());
    if pipe.len() > 1_048_576 || spec.len() > 1_048_576 {
        return Err(DesignFault::Memory);
    }
    design_of(alloc, pipe, spec, None)
}

/// Whether the case has this text.
fn writes_case(
    alloc: Global,
    design: &Design,
    case: &Case,
    text: &str,
) -> Result<bool, AllocError> {
    let written = case_text(alloc, design, case)?;
    Ok(written.as_slice() == text.as_bytes())
}

/// Whether the state of the case has this text.
fn writes_state(alloc: Global, design: &Design, case: &Case) -> Result<bool, AllocError> {
    let written = state_text(alloc, design, &case.state)?;
    Ok(written.as_slice() == STATE.as_bytes())
}

/// Whether the text is read and written again.
fn keeps_case(alloc: Global, design: &Design, text: &str) -> Result<bool, AllocError> {
    match read_case(alloc, design, text.as_bytes()) {
        Ok(case) => writes_case(alloc, design, &case, text),
        Err(_) => Ok(false),
    }
}

/// Whether the state of the case that is read is written as the text by hand.
fn keeps_state(alloc: Global, design: &Design) -> Result<bool, AllocError> {
    match read_case(alloc, design, CASE.as_bytes()) {
        Ok(case) => writes_state(alloc, design, &case),
        Err(_) => Ok(false),
    }
}

/// Whether the text of the trail is read and written again.
fn keeps_trail(alloc: Global, design: &Design) -> Result<bool, AllocError> {
    match read_trail(alloc, design, TRAIL.as_bytes()) {
        Ok(trail) => Ok(trail_text(alloc, design, &trail)?.as_slice() == TRAIL.as_bytes()),
        Err(_) => Ok(false),
    }
}

/// Whether the texts of a case, of its state and of a trail are read and written again.
fn keeps_each(alloc: Global, design: &Design) -> Result<bool, AllocError> {
    let case = keeps_case(alloc, design, CASE)?;
    let state = keeps_state(alloc, design)?;
    Ok(case && state && keeps_trail(alloc, design)?)
}

/// A case, its state and a trail with values of each sort are written as they were read.
#[test]
fn values_are_written_as_they_were_read(rt: HostRuntime) -> Result<(), Fail> {
    match design(rt.alloc(), PIPE) {
        Ok(design) => assert!(rt; keeps_each(rt.alloc(), &design)?),
        Err(_) => panic!(rt; "a design"),
    }
    Ok(())
}

/// A case that gives constants of one group different words is written as it was read.
#[test]
fn constants_that_are_kept_apart_are_written(rt: HostRuntime) -> Result<(), Fail> {
    match design(rt.alloc(), CONSTANTS) {
        Ok(design) => assert!(rt; keeps_case(rt.alloc(), &design, SECOND_CASE)?),
        Err(_) => panic!(rt; "a design"),
    }
    Ok(())
}
