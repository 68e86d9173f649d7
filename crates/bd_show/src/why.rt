//! `why`: why a value of a case is what it is.
ghost use Rattle.std.specs.Prelude.{◌≡◌, ◌++◌, ℕ, List, is_some, true, None, Ok, IfOk};
ghost use Rattle.bd_model.specs.Conditions.{IsJudged};
ghost use Rattle.bd_model.specs.DesignView.{design_view};
ghost use Rattle.bd_model.specs.Fits.{Fits};
ghost use Rattle.bd_model.specs.Lawful.{IsLawful};
ghost use Rattle.bd_app.specs.Meaning.{files_seen};
ghost use Rattle.bd_picture.specs.Sentence.{sentence};
ghost use Rattle.bd_show.specs.Files.{AreDesign, names_of};
ghost use Rattle.bd_show.specs.Meaning.{Question, Says};
ghost use Rattle.bd_show.specs.inner.Answered.{IsDoneOn, IsOfValue, why_of};
ghost use Rattle.bd_show.specs.inner.Loaded.{AreFew, texts_view};

use crate::answer::{Answer, Ended};
use crate::fault::{refused, unloaded};
use crate::load::{FileNames, Texts, load_texts};
use crate::read::{case, design};
use crate::show::left;
use crate::shrinking::unbroken;
use bd_files::Files;
use bd_model::{Case, Design, Judged};
use bd_picture::sentence;
use bd_sim::judge;
use bd_why::{Explanation, Source, Sources, why_of};
use std::alloc::{AllocError, Global};

/// Its options: the files, whether all of the case is explained, and the value that is asked for.
#[derive(Clone, Copy)]
pub struct WhyOptions<'a> {
    pub names: FileNames<'a>,
    pub whole: bool,
    pub value: Option<&'a str>,
}

/// The text of an invariant under its name, where there is one.
fn invariant_source<'a>(name: Option<&'a str>, text: &'a Option<Vec<u8>>) -> Option<Source<'a>> {
    match text {
        Some(text) => Some(Source {
            name: name.unwrap_or(""),
            text: text.as_slice(),
        }),
        None => None,
    }
}

/// The texts of a design under their names.
fn sources_of<'a>(names: FileNames<'a>, texts: &'a Texts) -> Sources<'a> {
    Sources {
        pipe: Source {
            name: names.pipe,
            text: texts.pipe.as_slice(),
        },
        spec: Source {
            name: names.spec,
            text: texts.spec.as_slice(),
        },
        inv: invariant_source(names.inv, &texts.inv),
    }
}

/// The sentence of a judgement, and the lines that explain a value.
fn explained(
    alloc: Global,
    design: &Design,
    judged: Judged,
    lines: &[u8],
) -> Result<Vec<u8>, AllocError>
    ensures { IfOk result (λ text. (rest : List ℕ)
        × (text.items ≡ sentence (design_view design.now) judged ++ rest)) }
{
    let mut rest = Vec::from_slice(alloc, b"\n\n")?;
    rest.extend_from_slice(lines)?;
    let mut text = sentence(alloc, design, judged)?;
    text.extend_from_slice(rest.as_slice())?;
    Ok(text)
}

/// The answer on the value of a case that is asked for, or on the first that differs.
fn on_value(
    alloc: Global,
    options: WhyOptions<'_>,
    texts: &Texts,
    design: &Design,
    case: &Case,
    judged: Judged,
) -> Result<Answer, AllocError>
    requires lawful { IsLawful (design_view design.now) }
    requires fits { Fits (design_view design.now) case.now }
    requires judged { IsJudged (design_view design.now) case.now judged }
    ensures { IfOk result (λ a. IsOfValue (why_of options.entry) (design_view design.now) case.now
        a.ended a.text.items) }
{
    let left = left(alloc, design, case, judged, options.whole)?;
    let sources = sources_of(options.names, texts);
    let lines = match why_of(alloc, design, &left, judged, sources, options.value)? {
        Explanation::Explained(lines) => lines,
        Explanation::Unknown(text) => match options.value {
            Some(_) => {
                return Ok(Answer {
                    ended: Ended::Unknown,
                    text,
                });
            }
            None => text,
        },
    };
    Ok(Answer {
        ended: Ended::Explained(judged),
        text: explained(alloc, design, judged, lines.as_slice())?,
    })
}

/// The answer on a case of which no value is asked for: only what is broken is explained.
fn on_first(
    alloc: Global,
    options: WhyOptions<'_>,
    texts: &Texts,
    design: &Design,
    case: &Case,
    judged: Judged,
) -> Result<Answer, AllocError>
    requires lawful { IsLawful (design_view design.now) }
    requires fits { Fits (design_view design.now) case.now }
    requires judged { IsJudged (design_view design.now) case.now judged }
    requires unasked { (why_of options).value ≡ None }
    ensures { IfOk result (λ a. IsOfValue (why_of options.entry) (design_view design.now) case.now
        a.ended a.text.items) }
{
    match judged {
        Judged::Broken(_) => on_value(alloc, options, texts, design, case, judged),
        Judged::Holds => unbroken(alloc, Judged::Holds, HOLDS),
        Judged::Outside => unbroken(alloc, Judged::Outside, OUTSIDE),
    }
}

/// The answer on a case.
fn on_case(
    alloc: Global,
    options: WhyOptions<'_>,
    texts: &Texts,
    design: &Design,
    case: &Case,
) -> Result<Answer, AllocError>
    requires lawful { IsLawful (design_view design.now) }
    requires fits { Fits (design_view design.now) case.now }
    ensures { IfOk result (λ a. IsOfValue (why_of options.entry) (design_view design.now) case.now
        a.ended a.text.items) }
{
    let judged = judge(alloc, design, case)?;
    match options.value {
        Some(_) => on_value(alloc, options, texts, design, case, judged),
        None => on_first(alloc, options, texts, design, case, judged),
    }
}

const HOLDS: &str = "nothing to explain: the case holds\n";

const OUTSIDE: &str = "nothing to explain: the case is outside the invariant\n";

/// The answer on texts.
fn on_texts(alloc: Global, options: WhyOptions<'_>, texts: &Texts) -> Result<Answer, AllocError>
    requires few { AreFew (texts_view texts.now) }
    requires text { is_some (texts_view texts.now).case ≡ true }
    ensures { IfOk result (λ a. Says (Question.explain (why_of options.entry))
        (texts_view texts.now) a.ended a.text.items) }
{
    let design = match design(alloc, texts) {
        Ok(design) => design,
        Err(fault) => return refused(alloc, options.names, texts, fault),
    };
    on_design(alloc, options, texts, &design)
}

/// The answer on texts, of which this is the design.
fn on_design(
    alloc: Global,
    options: WhyOptions<'_>,
    texts: &Texts,
    design: &Design,
) -> Result<Answer, AllocError>
    requires design { AreDesign (texts_view texts.now) (Ok (design_view design.now)) }
    requires lawful { IsLawful (design_view design.now) }
    requires text { is_some (texts_view texts.now).case ≡ true }
    ensures { IfOk result (λ a. Says (Question.explain (why_of options.entry))
        (texts_view texts.now) a.ended a.text.items) }
{
    match case(alloc, design, texts) {
        Ok(case) => on_case(alloc, options, texts, design, &case),
        Err(fault) => refused(alloc, options.names, texts, fault),
    }
}

/// The answer of `why` on the files of these names.
pub fn answer<F: Files>(
    alloc: Global,
    files: &mut F,
    options: WhyOptions<'_>,
) -> Result<Answer, AllocError>
    requires { is_some (names_of options.names).case ≡ true }
    ensures { IsDoneOn (Question.explain (why_of options.entry))
        (files_seen F.held F.faults F.blame F.calls files.old)
        (files_seen F.held F.faults F.blame F.calls files.new) result }
{
    match load_texts(files, options.names) {
        Ok(texts) => on_texts(alloc, options, &texts),
        Err(fault) => unloaded(alloc, options.names, fault),
    }
}
