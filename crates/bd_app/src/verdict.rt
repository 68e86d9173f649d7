//! The verdict on the design of sources, and its report.
ghost use Rattle.std.specs.Prelude.{◌≡◌, ◌++◌, [], ◌∷◌, OnOk, IfSome, IfOk, IfErr, string_bytes};
ghost use Rattle.std.specs.Option.{option_map};
ghost use Rattle.bd_model.specs.DesignView.{design_view};
ghost use Rattle.bd_model.specs.Fits.{Fits};
ghost use Rattle.bd_model.specs.Lawful.{IsLawful};
ghost use Rattle.bd_app.specs.Texts.{IsTextOfIf, case_kind};
ghost use Rattle.bd_app.specs.Verdicts.{IsVerdict, ended_by, shown_case, verdict_words, work_of};
ghost use Rattle.bd_app.specs.inner.Loaded.{AreFew, sources_view};
ghost use Rattle.bd_app.specs.inner.Done.{AreRefused, IsShown, IsShownOf};

use crate::answer::{Answer, Ended};
use crate::fault::Fault;
use crate::load::Sources;
use crate::read::design;
use crate::report::lined;
use bd_case::case_text;
use bd_cdcl::Cdcl;
use bd_model::{Case, Condition, Design};
use bd_verify::{Mode, Question, Verdict, Work, verify};
use std::alloc::{AllocError, Global};

/// What is asked of a design.
#[derive(Clone, Copy)]
pub struct Asked {
    /// How many clauses the solver may add for each question.
    pub budget: u32,
    /// How equations become edges.
    pub mode: Mode,
    /// Whether an invariant is given.
    pub given: bool,
}

/// A verdict, and the text of the case that is shown with it.
#[derive(Drop)]
pub struct ShownVerdict {
    pub verdict: Verdict,
    pub case: Vec<u8>,
}

/// The formula and the log of a verdict.
pub fn work(verdict: &Verdict) -> &Work
    ensures { result.now ≡ work_of verdict.now }
{
    match verdict {
        Verdict::Correct(_, work)
        | Verdict::Wrong(_, _, work)
        | Verdict::Void(work)
        | Verdict::Undecided(_, work) => work,
    }
}

/// The case that is printed with a verdict.
fn shown(verdict: &Verdict, shows: bool) -> Option<&Case>
    ensures { option_map (λ c. c.now) result ≡ shown_case shows verdict.now }
{
    if !shows {
        return None;
    }
    match verdict {
        Verdict::Correct(case, _) => case.as_ref(),
        Verdict::Wrong(_, case, _) => Some(case),
        Verdict::Void(_) | Verdict::Undecided(_, _) => None,
    }
}

/// The text of a case of a design, if there is a case.
pub fn text_of(alloc: Global, design: &Design, case: Option<&Case>) -> Result<Vec<u8>, AllocError>
    requires lawful { IsLawful (design_view design.now) }
    requires fits { IfSome (option_map (λ c. c.now) case) (Fits (design_view design.now)) }
    ensures { IfOk result (λ text. IsTextOfIf case_kind (design_view design.now)
        (option_map (λ c. c.now) case.entry) text.items) }
{
    match case {
        Some(case) => case_text(alloc, design, case),
        None => Ok(Vec::new(alloc)),
    }
}

/// The verdict on a design.
pub fn decide(alloc: Global, design: &Design, asked: Asked) -> Result<Verdict, AllocError>
    requires { IsLawful (design_view design.now) }
    ensures { IfOk result (IsVerdict (design_view design.now) asked) }
{
    let mut solver = Cdcl::new(alloc);
    verify(
        alloc,
        &mut solver,
        design,
        asked.budget,
        asked.given,
        asked.mode,
    )
}

/// The verdict on a design, with the text of its case where cases are shown.
fn shown_verdict(
    alloc: Global,
    design: &Design,
    asked: Asked,
    shows: bool,
) -> Result<ShownVerdict, AllocError>
    requires { IsLawful (design_view design.now) }
    ensures { IfOk result (IsShown (design_view design.now) asked shows) }
{
    let verdict = decide(alloc, design, asked)?;
    let case = text_of(alloc, design, shown(&verdict, shows))?;
    Ok(ShownVerdict { verdict, case })
}

/// The verdict on the design of sources, with the text of its case where cases are shown.
pub fn verdict_on(
    alloc: Global,
    sources: &Sources,
    asked: Asked,
    shows: bool,
) -> Result<ShownVerdict, Fault>
    requires { AreFew (sources_view sources.now) }
    ensures shown { IfOk result (IsShownOf (sources_view sources.now) asked shows) }
    ensures refused { IfErr result (AreRefused (sources_view sources.now)) }
{
    let design = design(alloc, sources)?;
    let shown = shown_verdict(alloc, &design, asked, shows)?;
    Ok(shown)
}

/// Puts a verdict in words after a text.
fn push_words(text: &mut String, verdict: &Verdict, budget: u32) -> Result<(), AllocError>
    ensures { OnOk result (string_bytes text.new
        ≡ string_bytes text.old ++ verdict_words budget verdict.now) }
{
    match verdict {
        Verdict::Correct(_, _) => text.push_str("correct"),
        Verdict::Wrong(Condition::Invariant, _, _) => text.push_str("wrong invariant"),
        Verdict::Wrong(Condition::Commute, _, _) => text.push_str("wrong commute"),
        Verdict::Void(_) => text.push_str("void"),
        Verdict::Undecided(Question::Breaks, _) => write!(text, "undecided {budget}"),
        Verdict::Undecided(Question::Meets, _) => write!(text, "undecided {budget} meets"),
    }
}

/// A verdict's line, which begins with `lead`, and a text after it.
pub fn verdict_report(
    alloc: Global,
    lead: &str,
    verdict: &Verdict,
    budget: u32,
    rest: &[u8],
) -> Result<Vec<u8>, AllocError>
    ensures { IfOk result (λ text. text.items
        ≡ (lead.now ++ verdict_words budget verdict.now ++ 10 ∷ []) ++ rest.now) }
{
    let mut text = String::from_str(alloc, lead)?;
    push_words(&mut text, verdict, budget)?;
    lined(text, rest)
}

/// The answer that a verdict is.
pub fn verdict_answer(
    alloc: Global,
    lead: &str,
    shown: ShownVerdict,
    budget: u32,
) -> Result<Answer, AllocError>
    ensures ended { IfOk result (λ a. a.ended ≡ ended_by shown.verdict) }
    ensures report { IfOk result (λ a. a.report.items
        ≡ (lead.now ++ verdict_words budget shown.verdict ++ 10 ∷ []) ++ shown.case.items) }
{
    let ShownVerdict { verdict, case } = shown;
    let report = verdict_report(alloc, lead, &verdict, budget, case.as_slice())?;
    Ok(Answer {
        ended: Ended::from_verdict(verdict),
        report,
    })
}
