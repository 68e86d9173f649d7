//! A verdict with the simplest case.
ghost use Rattle.std.specs.Prelude.{◌≤◌, IfOk, length};
ghost use Rattle.bd_model.specs.DesignView.{design_view};
ghost use Rattle.bd_model.specs.Lawful.{IsLawful};
ghost use Rattle.bd_model.specs.Limits.{longest_text};
ghost use Rattle.bd_model.specs.declared.case.Condition.TheVariants.{Commute};
ghost use Rattle.bd_verify.specs.declared.verdict.Verdict.TheVariants.{Wrong};
ghost use Rattle.bd_app.specs.Verdicts.{IsVerdict};

use crate::question::DesignTexts;
use crate::search::simplest;
use bd_app::Asked;
use bd_model::{Case, Condition, Design};
use bd_verify::{Verdict, Work};
use std::alloc::{AllocError, Global};

/// A verdict on the design of these texts that says the same: where a case breaks the diagram, with the simplest one that
/// is found.
pub fn simplified(
    alloc: Global,
    texts: DesignTexts<'_>,
    design: &Design,
    asked: Asked,
    verdict: Verdict,
) -> Result<Verdict, AllocError>
    requires lawful { IsLawful (design_view design.now) }
    requires verdict { IsVerdict (design_view design.now) asked verdict }
    requires pipe { length texts.pipe.now ≤ longest_text }
    requires spec { length texts.spec.now ≤ longest_text }
    ensures { IfOk result (IsVerdict (design_view design.now) asked) }
{
    match verdict {
        Verdict::Wrong(Condition::Commute, case, work) => {
            with_simplest(alloc, texts, design, asked, case, work)
        }
        verdict => Ok(verdict),
    }
}

/// The verdict that a case breaks the diagram, with the simplest such case that is found.
fn with_simplest(
    alloc: Global,
    texts: DesignTexts<'_>,
    design: &Design,
    asked: Asked,
    case: Case,
    work: Work,
) -> Result<Verdict, AllocError>
    requires lawful { IsLawful (design_view design.now) }
    requires verdict { IsVerdict (design_view design.now) asked (Wrong Commute case work) }
    requires pipe { length texts.pipe.now ≤ longest_text }
    requires spec { length texts.spec.now ≤ longest_text }
    ensures { IfOk result (IsVerdict (design_view design.now) asked) }
{
    let simple = simplest(alloc, texts, design, &case, asked.budget)?;
    Ok(Verdict::Wrong(Condition::Commute, simple, work))
}
