//! `check`: whether a pipeline is right, and where it isn't, what a case shows.
ghost use Rattle.std.specs.Prelude.{◌≡◌, ◌≤◌, IfOk, length};
ghost use Rattle.bd_model.specs.DesignView.{design_view};
ghost use Rattle.bd_model.specs.Lawful.{IsLawful};
ghost use Rattle.bd_model.specs.Limits.{longest_text};
ghost use Rattle.bd_about.specs.Findings.{finding_of};
ghost use Rattle.bd_app.specs.Loading.{bytes_of};
ghost use Rattle.bd_app.specs.Meaning.{files_seen};
ghost use Rattle.bd_app.specs.Verdicts.{IsVerdict};
ghost use Rattle.bd_show.specs.LetNames.{AreReadable};
ghost use Rattle.bd_show.specs.Meaning.{IsChecked, IsShownOf, Says, asked_of, check};
ghost use Rattle.bd_show.specs.inner.Answered.{IsCaseKept, IsCaseSaved, IsDoneOn, IsOfVerdict, check_of};
ghost use Rattle.bd_show.specs.inner.Loaded.{AreFew, texts_view};

use crate::answer::{Answer, Ended};
use crate::claim_names::claim_names;
use crate::fault::{refused, unloaded};
use crate::load::{FileNames, Texts, load_texts};
use crate::names::machine_lets;
use crate::next::push_next;
use crate::read::design;
use crate::show::{Showing, pictured_text, saved, unseen};
use crate::shrinking::printed;
use bd_about::finding_of;
use bd_app::loading::loaded_slice;
use bd_app::{Asked, decide, verdict_report};
use bd_files::Files;
use bd_model::{Design, Judged};
use bd_picture::ShownNames;
use bd_simplest::{DesignTexts, simplified};
use bd_syntax::Kind;
use bd_verify::{Mode, Verdict};
use std::alloc::{AllocError, Global};

/// Its options: the files, how equations become edges, how many clauses the solver may add for each question, and where
/// the case is saved.
#[derive(Clone, Copy)]
pub struct CheckOptions<'a> {
    pub names: FileNames<'a>,
    pub mode: Mode,
    pub budget: u32,
    pub case: Option<&'a str>,
}

/// What is asked of the design.
fn asked(options: CheckOptions<'_>) -> Asked
    ensures { result ≡ asked_of (check_of options.entry) }
{
    Asked {
        budget: options.budget,
        mode: options.mode,
        given: options.names.inv.is_some(),
    }
}

/// What is shown of the case of `wrong`, made small. Another verdict has none to show.
fn shown_case(
    alloc: Global,
    options: CheckOptions<'_>,
    texts: &Texts,
    design: &Design,
    verdict: &Verdict,
) -> Result<Vec<u8>, AllocError>
    requires lawful { IsLawful (design_view design.now) }
    requires verdict { IsVerdict (design_view design.now)
        (asked_of (check_of options)) verdict.now }
    requires readable { AreReadable (texts_view texts.now) }
    ensures { IfOk result (λ text. IsShownOf (design_view design.now) verdict.now text.items) }
{
    match verdict {
        Verdict::Wrong(condition, case, _) => {
            let lets = machine_lets(alloc, texts.pipe.as_slice(), Kind::Pipeline)?;
            let steps = machine_lets(alloc, texts.spec.as_slice(), Kind::Specification)?;
            let claims = claim_names(alloc, &texts.inv)?;
            let names = ShownNames {
                lets: lets.as_slice(),
                steps: steps.as_slice(),
                claims: claims.as_slice(),
            };
            let judged = Judged::Broken(*condition);
            pictured_text(alloc, design, case, judged, names)
        }
        _ => Ok(Vec::new(alloc)),
    }
}

/// What is saved of a verdict: the text of the case of `wrong`.
#[tactic(auto, using(crate::proofs::Checks::wrong_saved))]
fn saved_case(
    alloc: Global,
    options: CheckOptions<'_>,
    design: &Design,
    verdict: &Verdict,
) -> Result<Option<Vec<u8>>, AllocError>
    requires lawful { IsLawful (design_view design.now) }
    requires verdict { IsVerdict (design_view design.now)
        (asked_of (check_of options)) verdict.now }
    ensures { IfOk result (λ text. IsCaseSaved (design_view design.now)
        (Ended.Checked (finding_of verdict.now)) (bytes_of text)) }
{
    match verdict {
        Verdict::Wrong(_, case, _) => Ok(Some(printed(alloc, design, case)?)),
        Verdict::Correct(_, _) | Verdict::Void(_) | Verdict::Undecided(_, _) => Ok(None),
    }
}

/// The text of a verdict.
fn report(
    alloc: Global,
    options: CheckOptions<'_>,
    texts: &Texts,
    design: &Design,
    verdict: &Verdict,
) -> Result<Vec<u8>, AllocError>
    requires lawful { IsLawful (design_view design.now) }
    requires verdict { IsVerdict (design_view design.now)
        (asked_of (check_of options)) verdict.now }
    requires readable { AreReadable (texts_view texts.now) }
    ensures { IfOk result (λ text. IsChecked (check_of options.entry) (design_view design.now)
        (finding_of verdict.now) text.items) }
{
    let shown = shown_case(alloc, options, texts, design, verdict)?;
    let mut text = verdict_report(alloc, "", verdict, options.budget, shown.as_slice())?;
    let found = finding_of(verdict);
    push_next(&mut text, "why", options.names, options.case, found)?;
    Ok(text)
}

/// The answer that a verdict is, and what is saved of it.
fn answered(
    alloc: Global,
    options: CheckOptions<'_>,
    texts: &Texts,
    design: &Design,
    verdict: &Verdict,
) -> Result<Showing, AllocError>
    requires lawful { IsLawful (design_view design.now) }
    requires verdict { IsVerdict (design_view design.now)
        (asked_of (check_of options)) verdict.now }
    requires readable { AreReadable (texts_view texts.now) }
    ensures says { IfOk result (λ r. IsOfVerdict (check_of options.entry)
        (design_view design.now) r.answer.ended r.answer.text.items) }
    ensures saved { IfOk result (λ r. IsCaseSaved (design_view design.now) r.answer.ended
        (bytes_of r.page)) }
{
    let page = saved_case(alloc, options, design, verdict)?;
    let text = report(alloc, options, texts, design, verdict)?;
    let ended = Ended::Checked(finding_of(verdict));
    Ok(Showing {
        answer: Answer { ended, text },
        page,
    })
}

/// The texts of the design.
fn design_texts(texts: &Texts) -> DesignTexts<'_>
    requires few { AreFew (texts_view texts.now) }
    ensures pipe { length result.pipe.now ≤ longest_text }
    ensures spec { length result.spec.now ≤ longest_text }
{
    DesignTexts {
        pipe: texts.pipe.as_slice(),
        spec: texts.spec.as_slice(),
        inv: loaded_slice(&texts.inv),
    }
}

/// The answer on a design, with the simplest case that is found.
fn on_design(
    alloc: Global,
    options: CheckOptions<'_>,
    texts: &Texts,
    design: &Design,
) -> Result<Showing, AllocError>
    requires few { AreFew (texts_view texts.now) }
    requires lawful { IsLawful (design_view design.now) }
    requires readable { AreReadable (texts_view texts.now) }
    ensures says { IfOk result (λ r. IsOfVerdict (check_of options.entry)
        (design_view design.now) r.answer.ended r.answer.text.items) }
    ensures saved { IfOk result (λ r. IsCaseSaved (design_view design.now) r.answer.ended
        (bytes_of r.page)) }
{
    let question = asked(options);
    let found = decide(alloc, design, question)?;
    let verdict = simplified(alloc, design_texts(texts), design, question, found)?;
    answered(alloc, options, texts, design, &verdict)
}

/// The answer on texts.
fn on_texts(alloc: Global, options: CheckOptions<'_>, texts: &Texts) -> Result<Showing, AllocError>
    requires { AreFew (texts_view texts.now) }
    ensures says { IfOk result (λ r. Says (check (check_of options.entry))
        (texts_view texts.now) r.answer.ended r.answer.text.items) }
    ensures saved { IfOk result (λ r.
        IsCaseKept (texts_view texts.now) r.answer.ended (bytes_of r.page)) }
{
    match design(alloc, texts) {
        Ok(design) => on_design(alloc, options, texts, &design),
        Err(fault) => unseen(refused(alloc, options.names, texts, fault)),
    }
}

/// The answer of `check` on the files of these names, with its case saved where a name is given.
pub fn answer<F: Files>(
    alloc: Global,
    files: &mut F,
    options: CheckOptions<'_>,
) -> Result<Answer, AllocError>
    ensures { IsDoneOn (check (check_of options.entry))
        (files_seen F.held F.faults F.blame F.calls files.old)
        (files_seen F.held F.faults F.blame F.calls files.new) result }
{
    let texts = match load_texts(files, options.names) {
        Ok(texts) => texts,
        Err(fault) => return unloaded(alloc, options.names, fault),
    };
    let found = on_texts(alloc, options, &texts)?;
    saved(alloc, files, options.case, found)
}
