//! `recheck`: whether a text proves that a pipeline is right.
ghost use Rattle.std.specs.Prelude.{◌≡◌, ◌++◌, [], ◌∷◌, false, IfOk, codes};
ghost use Rattle.clap.specs.Words.{found_of, rows_of, shape_of};
ghost use Rattle.clap.specs.declared.builder.command.Command.TheViews.{out-Command as fields_of};
ghost use Rattle.bd_model.specs.DesignView.{design_view};
ghost use Rattle.bd_model.specs.Lawful.{IsLawful};
ghost use Rattle.bd_app.specs.Meaning.{files_seen};
ghost use Rattle.bd_app.specs.Recheck.{recheck_command, recheck_meaning, recheck_of, recheck_question};
ghost use Rattle.bd_app.specs.inner.Loaded.{AreFew, sources_view};
ghost use Rattle.bd_app.specs.inner.Done.{IsBadProof, IsDone, IsProvedBy, OnSources, OnText};

use crate::answer::{Answer, Ended};
use crate::command::text::text_files;
use crate::fault::Fault;
use crate::load::{TextBytes, TextFiles, load_text};
use crate::read::design;
use crate::words::text_command;
use bd_files::Files;
use bd_foreign::recheck;
use bd_model::Design;
use bd_typer::Text;
use bd_verify::Work;
use clap::{ArgMatches, Command};
use std::alloc::{AllocError, Global};

/// The words that `recheck` takes.
pub fn command<'a>(alloc: Global) -> Result<Command<'a>, AllocError>
    ensures shape { IfOk result (λ c. shape_of c ≡ recheck_command) }
    ensures local { IfOk result (λ c. (fields_of c).has_globals ≡ false) }
{
    text_command(alloc, "recheck", "PROOF")
}

/// The options of `recheck`: the names of the files of a design and of a proof on it.
pub fn options<'a>(matches: &ArgMatches<'a>) -> TextFiles<'a>
    ensures { recheck_of result ≡ recheck_question (rows_of (found_of matches.now)) }
{
    text_files(matches, "PROOF")
}

/// The answer that a proof is.
fn proved_answer(alloc: Global, work: Work) -> Result<Answer, AllocError>
    ensures { IfOk result (λ a. (a.ended ≡ Ended.Proved work)
        × (a.report.items ≡ codes "correct by proof" ++ 10 ∷ [])) }
{
    let report = Vec::from_slice(alloc, b"correct by proof\n")?;
    Ok(Answer {
        ended: Ended::Proved(work),
        report,
    })
}

/// Whether the bytes prove that the design is right.
fn proved(alloc: Global, design: &Design, bytes: &[u8]) -> Result<Answer, Fault>
    requires { IsLawful (design_view design.now) }
    ensures { OnText IsProvedBy IsBadProof (design_view design.now) bytes.now result }
{
    let work = recheck(alloc, design, bytes)?;
    let answer = proved_answer(alloc, work)?;
    Ok(answer)
}

/// Whether the text of loaded files proves it.
fn proved_bytes(alloc: Global, bytes: &TextBytes) -> Result<Answer, Fault>
    requires { AreFew (sources_view bytes.now.sources) }
    ensures { OnSources IsProvedBy IsBadProof
        (sources_view bytes.now.sources) bytes.now.text.items result }
{
    let design = design(alloc, &bytes.sources)?;
    proved(alloc, &design, bytes.text.as_slice())
}

/// The answer to `recheck`.
pub fn answer<F: Files>(
    alloc: Global,
    files: &mut F,
    options: TextFiles<'_>,
) -> Result<Answer, Fault>
    ensures { IsDone (recheck_meaning (recheck_of options.entry))
        (files_seen F.held F.faults F.blame F.calls files.old)
        (files_seen F.held F.faults F.blame F.calls files.new) result }
{
    let bytes = load_text(files, Text::Proof, options)?;
    proved_bytes(alloc, &bytes)
}
