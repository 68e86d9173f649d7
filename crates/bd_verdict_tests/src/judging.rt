//! Cases judged by a completion.
ghost use Rattle.std.specs.Prelude.{IfOk};
ghost use Rattle.bd_model.specs.Abstraction.{IsLawfulAbstraction};
ghost use Rattle.bd_model.specs.DesignView.{design_view};
ghost use Rattle.bd_model.specs.Lawful.{IsLawful};

use bd_case::read_case;
use bd_completion::judge_by;
use bd_model::{Case, Condition, Judged};
use bd_typer::{DesignFault, Joined, completed_design};
use std::alloc::{AllocError, Global};
use std::test::Fail;

const PIPE: &str =
    "(pipeline (latch a bool) (latch b bool) (latch c bool) (next a b) (next b b) (next c (not c)) (flush 0) (steps 0))";

const SPEC: &str = "(specification (latch a bool) (next a a))";

/// The states where a is true.
const INV: &str = "(invariant a)";

/// A completion and a case, and what the case shows. A cycle puts b in the place of a, keeps b and turns c.
static ROWS: [(&str, &str, Judged); 4] = [
    (
        "(completion (abstract a b))",
        "(case 1 (latch a true) (latch b true) (latch c false))",
        Judged::Holds,
    ),
    (
        "(completion (abstract a c))",
        "(case 1 (latch a true) (latch b true) (latch c false))",
        Judged::Broken(Condition::Commute),
    ),
    (
        "(completion (abstract a b))",
        "(case 1 (latch a true) (latch b false) (latch c false))",
        Judged::Broken(Condition::Invariant),
    ),
    (
        "(completion (abstract a b))",
        "(case 1 (latch a false) (latch b true) (latch c false))",
        Judged::Outside,
    ),
];

/// The design and the abstraction of the texts.
fn joined(alloc: Global, comp: &str) -> Result<Joined, DesignFault>
    ensures lawful { IfOk result (λ j. IsLawful (design_view j.design)) }
    ensures abstraction { IfOk result (λ j. IsLawfulAbstraction (design_view j.design) j.abs) }
{
    let (pipe, spec) = (PIPE.as_bytes(), SPEC.as_bytes());
    let (comp, inv) = (comp.as_bytes(), INV.as_bytes());
    if pipe.len() > 1_048_576 || spec.len() > 1_048_576 {
        return Err(DesignFault::Memory);
    }
    if comp.len() > 1_048_576 || inv.len() > 1_048_576 {
        return Err(DesignFault::Memory);
    }
    completed_design(alloc, pipe, spec, comp, Some(inv))
}

/// What a case shows by the abstraction of a completed design.
fn judged_case(alloc: Global, joined: &Joined, case: &Case) -> Result<Option<Judged>, AllocError>
    requires lawful { IsLawful (design_view joined.now.design) }
    requires abstraction { IsLawfulAbstraction (design_view joined.now.design) joined.now.abs }
{
    Ok(Some(judge_by(alloc, &joined.design, &joined.abs, case)?))
}

/// What the case that a text denotes shows by an abstraction; nothing if the text has a fault.
fn judged_text(alloc: Global, joined: &Joined, case: &str) -> Result<Option<Judged>, AllocError>
    requires lawful { IsLawful (design_view joined.now.design) }
    requires abstraction { IsLawfulAbstraction (design_view joined.now.design) joined.now.abs }
{
    match read_case(alloc, &joined.design, case.as_bytes()) {
        Ok(case) => judged_case(alloc, joined, &case),
        Err(_) => Ok(None),
    }
}

/// What a case shows by a completion, both as texts; nothing if one of them has a fault.
fn judged(alloc: Global, comp: &str, case: &str) -> Result<Option<Judged>, AllocError> {
    match joined(alloc, comp) {
        Ok(joined) => judged_text(alloc, &joined, case),
        Err(_) => Ok(None),
    }
}

/// Each case shows by its completion what is expected: it holds, it breaks a condition, or it is outside.
#[test]
fn cases_are_judged_by_a_completion(rt: HostRuntime) -> Result<(), Fail> {
    for &(comp, case, want) in &ROWS {
        assert!(rt; judged(rt.alloc(), comp, case)? == Some(want));
    }
    Ok(())
}
