//! `replay`: what a case shows.
ghost use Rattle.std.specs.Prelude.{◌≡◌, ◌++◌, [], ◌∷◌, false, IfOk};
ghost use Rattle.clap.specs.Words.{found_of, rows_of, shape_of};
ghost use Rattle.clap.specs.declared.builder.command.Command.TheViews.{out-Command as fields_of};
ghost use Rattle.bd_model.specs.DesignView.{design_view};
ghost use Rattle.bd_model.specs.Lawful.{IsLawful};
ghost use Rattle.bd_app.specs.Meaning.{files_seen};
ghost use Rattle.bd_app.specs.Replay.{judged_words, replay_command, replay_meaning, replay_of, replay_question, IsJudgement};
ghost use Rattle.bd_app.specs.Texts.{case_kind};
ghost use Rattle.bd_app.specs.inner.Loaded.{AreFew, sources_view};
ghost use Rattle.bd_app.specs.inner.Done.{IsDone, IsSaidOf, IsTextRefused, OnSources, OnText};

use crate::answer::{Answer, Ended};
use crate::command::text::text_files;
use crate::fault::Fault;
use crate::load::{TextBytes, TextFiles, load_text};
use crate::read::{case, design};
use crate::words::text_command;
use bd_files::Files;
use bd_model::{Condition, Design, Judged};
use bd_sim::judge;
use bd_typer::Text;
use clap::{ArgMatches, Command};
use std::alloc::{AllocError, Global};

/// The words that `replay` takes.
pub fn command<'a>(alloc: Global) -> Result<Command<'a>, AllocError>
    ensures shape { IfOk result (λ c. shape_of c ≡ replay_command) }
    ensures local { IfOk result (λ c. (fields_of c).has_globals ≡ false) }
{
    text_command(alloc, "replay", "CASE")
}

/// The options of `replay`: the names of the files of a design and of a case on it.
pub fn options<'a>(matches: &ArgMatches<'a>) -> TextFiles<'a>
    ensures { replay_of result ≡ replay_question (rows_of (found_of matches.now)) }
{
    text_files(matches, "CASE")
}

/// The line of a judgement.
fn judged_line(judged: Judged) -> &'static [u8]
    ensures { result.now ≡ judged_words judged ++ 10 ∷ [] }
{
    match judged {
        Judged::Holds => b"holds\n",
        Judged::Outside => b"outside\n",
        Judged::Broken(Condition::Invariant) => b"broken invariant\n",
        Judged::Broken(Condition::Commute) => b"broken commute\n",
    }
}

/// The answer that a judgement is.
fn judged_answer(alloc: Global, judged: Judged) -> Result<Answer, AllocError>
    ensures { IfOk result (λ a.
        (a.ended ≡ Ended.Replayed judged) × (a.report.items ≡ judged_words judged ++ 10 ∷ [])) }
{
    let report = Vec::from_slice(alloc, judged_line(judged))?;
    Ok(Answer {
        ended: Ended::Replayed(judged),
        report,
    })
}

/// What the case of bytes shows.
fn judged(alloc: Global, design: &Design, bytes: &[u8]) -> Result<Answer, Fault>
    requires { IsLawful (design_view design.now) }
    ensures { OnText (IsSaidOf case_kind IsJudgement) (IsTextRefused case_kind)
        (design_view design.now) bytes.now result }
{
    let case = case(alloc, design, bytes)?;
    let judged = judge(alloc, design, &case)?;
    let answer = judged_answer(alloc, judged)?;
    Ok(answer)
}

/// What the case of loaded files shows.
fn judged_bytes(alloc: Global, bytes: &TextBytes) -> Result<Answer, Fault>
    requires { AreFew (sources_view bytes.now.sources) }
    ensures { OnSources (IsSaidOf case_kind IsJudgement) (IsTextRefused case_kind)
        (sources_view bytes.now.sources) bytes.now.text.items result }
{
    let design = design(alloc, &bytes.sources)?;
    judged(alloc, &design, bytes.text.as_slice())
}

/// The answer to `replay`.
pub fn answer<F: Files>(
    alloc: Global,
    files: &mut F,
    options: TextFiles<'_>,
) -> Result<Answer, Fault>
    ensures { IsDone (replay_meaning (replay_of options.entry))
        (files_seen F.held F.faults F.blame F.calls files.old)
        (files_seen F.held F.faults F.blame F.calls files.new) result }
{
    let bytes = load_text(files, Text::Case, options)?;
    judged_bytes(alloc, &bytes)
}
