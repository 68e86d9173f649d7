//! `shrink`: a small case that breaks the same condition.
ghost use Rattle.std.specs.Prelude.{◌≡◌, is_some, true, Ok, IfOk};
ghost use Rattle.bd_model.specs.Conditions.{IsJudged};
ghost use Rattle.bd_model.specs.DesignView.{design_view};
ghost use Rattle.bd_model.specs.Fits.{Fits};
ghost use Rattle.bd_model.specs.Lawful.{IsLawful};
ghost use Rattle.bd_app.specs.Meaning.{files_seen};
ghost use Rattle.bd_app.specs.Texts.{IsTextOf, case_kind};
ghost use Rattle.bd_show.specs.Files.{AreDesign, names_of};
ghost use Rattle.bd_show.specs.Meaning.{IsSmaller, Question, Says};
ghost use Rattle.bd_show.specs.inner.Answered.{IsDoneOn, IsOfCase};
ghost use Rattle.bd_show.specs.inner.Loaded.{AreFew, texts_view};

use crate::answer::{Answer, Ended};
use crate::fault::{refused, unloaded};
use crate::load::{FileNames, Texts, load_texts};
use crate::read::{case, design};
use bd_case::case_text;
use bd_files::Files;
use bd_model::{Case, Condition, Design, Judged, judged_once};
use bd_shrink::shrink;
use bd_sim::judge;
use std::alloc::{AllocError, Global};

/// The answer that a case breaks nothing.
pub fn unbroken(alloc: Global, judged: Judged, line: &str) -> Result<Answer, AllocError>
    ensures { IfOk result (λ a. (a.ended ≡ Ended.Unbroken judged) × (a.text.items ≡ line.now)) }
{
    Ok(Answer {
        ended: Ended::Unbroken(judged),
        text: Vec::from_slice(alloc, line.as_bytes())?,
    })
}

/// The text of a case, which reads back as that case.
pub fn printed(alloc: Global, design: &Design, case: &Case) -> Result<Vec<u8>, AllocError>
    requires lawful { IsLawful (design_view design.now) }
    requires fits { Fits (design_view design.now) case.now }
    ensures { IfOk result (λ text.
        IsTextOf case_kind (design_view design.now) case.now text.items) }
{
    case_text(alloc, design, case)
}

/// The text of what is left of a case.
fn shrunk(
    alloc: Global,
    design: &Design,
    case: &Case,
    which: Condition,
) -> Result<Answer, AllocError>
    requires lawful { IsLawful (design_view design.now) }
    requires fits { Fits (design_view design.now) case.now }
    requires broken { IsJudged (design_view design.now) case.now (Judged.Broken which) }
    ensures ended { IfOk result (λ a. a.ended ≡ Ended.Shrunk which) }
    ensures text { IfOk result (λ a.
        IsSmaller (design_view design.now) case.now which a.text.items) }
{
    let left = shrink(alloc, design, case, which)?;
    Ok(Answer {
        ended: Ended::Shrunk(which),
        text: printed(alloc, design, &left)?,
    })
}

/// The answer on a case.
fn on_case(alloc: Global, design: &Design, case: &Case) -> Result<Answer, AllocError>
    requires lawful { IsLawful (design_view design.now) }
    requires fits { Fits (design_view design.now) case.now }
    ensures { IfOk result (λ a. IsOfCase (design_view design.now) case.now a.ended a.text.items) }
{
    match judge(alloc, design, case)? {
        Judged::Broken(which) => shrunk(alloc, design, case, which),
        Judged::Holds => unbroken(alloc, Judged::Holds, HOLDS),
        Judged::Outside => unbroken(alloc, Judged::Outside, OUTSIDE),
    }
}

const HOLDS: &str = "nothing to shrink: the case holds\n";

const OUTSIDE: &str = "nothing to shrink: the case is outside the invariant\n";

/// The answer on texts.
fn on_texts(alloc: Global, names: FileNames<'_>, texts: &Texts) -> Result<Answer, AllocError>
    requires few { AreFew (texts_view texts.now) }
    requires text { is_some (texts_view texts.now).case ≡ true }
    ensures { IfOk result (λ a.
        Says (Question.shrink (names_of names.entry)) (texts_view texts.now) a.ended a.text.items) }
{
    let design = match design(alloc, texts) {
        Ok(design) => design,
        Err(fault) => return refused(alloc, names, texts, fault),
    };
    on_design(alloc, names, texts, &design)
}

/// The answer on texts, of which this is the design.
fn on_design(
    alloc: Global,
    names: FileNames<'_>,
    texts: &Texts,
    design: &Design,
) -> Result<Answer, AllocError>
    requires design { AreDesign (texts_view texts.now) (Ok (design_view design.now)) }
    requires lawful { IsLawful (design_view design.now) }
    requires text { is_some (texts_view texts.now).case ≡ true }
    ensures { IfOk result (λ a.
        Says (Question.shrink (names_of names.entry)) (texts_view texts.now) a.ended a.text.items) }
{
    match case(alloc, design, texts) {
        Ok(case) => on_case(alloc, design, &case),
        Err(fault) => refused(alloc, names, texts, fault),
    }
}

/// The answer of `shrink` on the files of these names.
pub fn answer<F: Files>(
    alloc: Global,
    files: &mut F,
    names: FileNames<'_>,
) -> Result<Answer, AllocError>
    requires { is_some (names_of names).case ≡ true }
    ensures { IsDoneOn (Question.shrink (names_of names.entry))
        (files_seen F.held F.faults F.blame F.calls files.old)
        (files_seen F.held F.faults F.blame F.calls files.new) result }
{
    match load_texts(files, names) {
        Ok(texts) => on_texts(alloc, names, &texts),
        Err(fault) => unloaded(alloc, names, fault),
    }
}
