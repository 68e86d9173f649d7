//! `retrace`: what a trail shows.
ghost use Rattle.std.specs.Prelude.{◌≡◌, ◌++◌, [], ◌∷◌, false, OnOk, IfOk, string_bytes};
ghost use Rattle.clap.specs.Words.{found_of, rows_of, shape_of};
ghost use Rattle.clap.specs.declared.builder.command.Command.TheViews.{out-Command as fields_of};
ghost use Rattle.bd_model.specs.DesignView.{design_view};
ghost use Rattle.bd_model.specs.Lawful.{IsLawful};
ghost use Rattle.bd_app.specs.Meaning.{files_seen};
ghost use Rattle.bd_app.specs.Retrace.{retrace_command, retrace_meaning, retrace_of, retrace_question, retraced_words, IsRetraced};
ghost use Rattle.bd_app.specs.Texts.{trail_kind};
ghost use Rattle.bd_app.specs.inner.Loaded.{AreFew, sources_view};
ghost use Rattle.bd_app.specs.inner.Done.{IsDone, IsSaidOf, IsTextRefused, OnSources, OnText};

use crate::answer::{Answer, Ended};
use crate::fault::Fault;
use crate::load::{DesignFiles, TextBytes, TextFiles, load_text};
use crate::read::{design, trail};
use crate::report::lined;
use crate::words::{machines_command, required, required_word, with};
use bd_files::Files;
use bd_model::{Design, TrailJudged};
use bd_sim::judge_trail;
use bd_typer::{Premise, Text};
use clap::{ArgMatches, Command};
use std::alloc::{AllocError, Global};

/// The words that `retrace` takes.
pub fn command<'a>(alloc: Global) -> Result<Command<'a>, AllocError>
    ensures shape { IfOk result (λ c. shape_of c ≡ retrace_command) }
    ensures local { IfOk result (λ c. (fields_of c).has_globals ≡ false) }
{
    let command = machines_command(alloc, "retrace")?;
    let command = with(command, required(alloc, "TRAIL"))?;
    with(command, required(alloc, "START"))
}

/// The options of `retrace`: the names of the files of a design and of a trail on it.
pub fn options<'a>(matches: &ArgMatches<'a>) -> TextFiles<'a>
    ensures { retrace_of result ≡ retrace_question (rows_of (found_of matches.now)) }
{
    let design = DesignFiles {
        pipe: required_word(matches, "PIPE"),
        spec: required_word(matches, "SPEC"),
        premise: Premise::Start,
        third: Some(required_word(matches, "START")),
    };
    TextFiles {
        design,
        text: required_word(matches, "TRAIL"),
    }
}

/// Puts a judgement in words after a text.
fn push_words(text: &mut String, judged: TrailJudged) -> Result<(), AllocError>
    ensures { OnOk result (string_bytes text.new
        ≡ string_bytes text.old ++ retraced_words judged) }
{
    match judged {
        TrailJudged::Holds => text.push_str("holds"),
        TrailJudged::Outside => text.push_str("outside"),
        TrailJudged::Broken(cycle) => write!(text, "broken commute {cycle}"),
    }
}

/// The line of a judgement.
pub fn retraced_line(alloc: Global, judged: TrailJudged) -> Result<Vec<u8>, AllocError>
    ensures { IfOk result (λ line. line.items ≡ retraced_words judged ++ 10 ∷ []) }
{
    let mut line = String::new(alloc);
    push_words(&mut line, judged)?;
    lined(line, b"")
}

/// The answer that a judgement is.
fn judged_answer(alloc: Global, judged: TrailJudged) -> Result<Answer, AllocError>
    ensures { IfOk result (λ a.
        (a.ended ≡ Ended.Retraced judged) × (a.report.items ≡ retraced_words judged ++ 10 ∷ [])) }
{
    let report = retraced_line(alloc, judged)?;
    Ok(Answer {
        ended: Ended::Retraced(judged),
        report,
    })
}

/// What the trail of bytes shows.
fn judged(alloc: Global, design: &Design, bytes: &[u8]) -> Result<Answer, Fault>
    requires { IsLawful (design_view design.now) }
    ensures { OnText (IsSaidOf trail_kind IsRetraced) (IsTextRefused trail_kind)
        (design_view design.now) bytes.now result }
{
    let trail = trail(alloc, design, bytes)?;
    let judged = judge_trail(alloc, design, &trail)?;
    let answer = judged_answer(alloc, judged)?;
    Ok(answer)
}

/// What the trail of loaded files shows.
fn judged_bytes(alloc: Global, bytes: &TextBytes) -> Result<Answer, Fault>
    requires { AreFew (sources_view bytes.now.sources) }
    ensures { OnSources (IsSaidOf trail_kind IsRetraced) (IsTextRefused trail_kind)
        (sources_view bytes.now.sources) bytes.now.text.items result }
{
    let design = design(alloc, &bytes.sources)?;
    judged(alloc, &design, bytes.text.as_slice())
}

/// The answer to `retrace`.
pub fn answer<F: Files>(
    alloc: Global,
    files: &mut F,
    options: TextFiles<'_>,
) -> Result<Answer, Fault>
    ensures { IsDone (retrace_meaning (retrace_of options.entry))
        (files_seen F.held F.faults F.blame F.calls files.old)
        (files_seen F.held F.faults F.blame F.calls files.new) result }
{
    let bytes = load_text(files, Text::Trail, options)?;
    judged_bytes(alloc, &bytes)
}
