//! Verdicts by the plain solver, one of each kind. Those by the other solver are rows.
ghost use Rattle.std.specs.Prelude.{IfOk};
ghost use Rattle.bd_model.specs.DesignView.{design_view};
ghost use Rattle.bd_model.specs.Lawful.{IsLawful};

use bd_cdcl::Plain;
use bd_model::{Condition, Design};
use bd_typer::{DesignFault, design_of};
use bd_verify::{Mode, Verdict, verify};
use std::alloc::{AllocError, Global};
use std::test::Fail;

/// A bit that turns or stalls.
const STALLING: &str =
    "(pipeline (latch a bool) (input go bool false) (next a (ite go (not a) a)) (flush 0) (steps 1))";

/// What was read is written back.
const WRITE_BACK: &str =
    "(pipeline (memory m) (latch x word) (next m (write m x (read m x))) (next x x) (flush 0) (steps 0))";

const TURNING: &str = "(specification (latch a bool) (next a (not a)))";

const KEEPING: &str = "(specification (latch a bool) (next a a))";

/// A pipeline, a specification and an invariant, if there is one, with a budget and the word of the verdict.
static ROWS: [(&str, &str, &str, u32, &str); 6] = [
    (STALLING, TURNING, "", 9, "correct"),
    (
        WRITE_BACK,
        "(specification (memory m) (next m m))",
        "",
        9,
        "correct",
    ),
    (STALLING, KEEPING, "", 9, "wrong commute"),
    (STALLING, TURNING, "(invariant a)", 9, "wrong invariant"),
    (STALLING, TURNING, "(invariant false)", 9, "void"),
    (STALLING, TURNING, "", 0, "undecided"),
];

/// The design of texts, if none is too long.
fn design(alloc: Global, pipe: &str, spec: &str, inv: &str) -> Result<Design, DesignFault>
    ensures { IfOk result (λ d. IsLawful (design_view d)) }
{
    let (pipe, spec, inv) = (pipe.as_bytes(), spec.as_bytes(), inv.as_bytes());
    if pipe.len() > 1_048_576 || spec.len() > 1_048_576 || inv.len() > 1_048_576 {
        return Err(DesignFault::Memory);
    }
    if inv.is_empty() {
        design_of(alloc, pipe, spec, None)
    } else {
        design_of(alloc, pipe, spec, Some(inv))
    }
}

/// What the line of a verdict begins with.
fn word(verdict: &Verdict) -> &'static str {
    match verdict {
        Verdict::Correct(..) => "correct",
        Verdict::Wrong(Condition::Commute, ..) => "wrong commute",
        Verdict::Wrong(Condition::Invariant, ..) => "wrong invariant",
        Verdict::Void(_) => "void",
        Verdict::Undecided(..) => "undecided",
    }
}

/// The verdict on the design.
fn verdict_on(
    alloc: Global,
    design: &Design,
    given: bool,
    budget: u32,
) -> Result<&'static str, AllocError>
    requires { IsLawful (design_view design.now) }
{
    let verdict = verify(
        alloc,
        &mut Plain::new(alloc),
        design,
        budget,
        given,
        Mode::Plain,
    )?;
    Ok(word(&verdict))
}

/// The verdict on the design of texts.
fn verdict(
    alloc: Global,
    pipe: &str,
    spec: &str,
    inv: &str,
    budget: u32,
) -> Result<&'static str, AllocError> {
    match design(alloc, pipe, spec, inv) {
        Ok(design) => verdict_on(alloc, &design, !inv.is_empty(), budget),
        Err(_) => Ok("refused"),
    }
}

/// The plain solver comes to each verdict: correct, wrong by either condition, void and undecided.
#[test]
fn the_plain_solver_gives_each_verdict(rt: HostRuntime) -> Result<(), Fail> {
    for &(pipe, spec, inv, budget, want) in &ROWS {
        assert_eq!(rt; verdict(rt.alloc(), pipe, spec, inv, budget)?, want);
    }
    Ok(())
}
