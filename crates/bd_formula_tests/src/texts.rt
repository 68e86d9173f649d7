//! Designs read from texts.
ghost use Rattle.std.specs.Prelude.{IfSome};
ghost use Rattle.bd_model.specs.DesignView.{design_view};
ghost use Rattle.bd_model.specs.Lawful.{IsLawful};

use bd_model::Design;
use bd_typer::design_of;
use std::process::Abort;

/// The design that the texts denote.
pub(crate) fn read(rt: &(impl Abort + AllocGlobal), pipe: &[u8], spec: &[u8]) -> Option<Design>
    ensures { IfSome result (λ design. IsLawful (design_view design)) }
{
    assert!(rt; pipe.len() <= 1_048_576 && spec.len() <= 1_048_576);
    let design = design_of(rt.alloc(), pipe, spec, None).ok();
    assert!(rt; design.is_some());
    design
}

/// The design that the texts denote, with an invariant.
pub(crate) fn read_with(
    rt: &(impl Abort + AllocGlobal),
    pipe: &[u8],
    spec: &[u8],
    inv: &[u8],
) -> Option<Design>
    ensures { IfSome result (λ design. IsLawful (design_view design)) }
{
    assert!(rt; pipe.len() <= 1_048_576 && spec.len() <= 1_048_576 && inv.len() <= 1_048_576);
    let design = design_of(rt.alloc(), pipe, spec, Some(inv)).ok();
    assert!(rt; design.is_some());
    design
}
