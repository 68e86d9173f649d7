//! `gen`: the verdict on a generated pipeline.
ghost use Rattle.std.specs.Prelude.{◌≡◌, ◌≤◌, false, IfOk, string_bytes};
ghost use Rattle.clap.specs.Words.{found_of, rows_of, shape_of};
ghost use Rattle.clap.specs.declared.builder.command.Command.TheViews.{out-Command as fields_of};
ghost use Rattle.bd_app.specs.Generate.{gen_asked, gen_command, gen_lead, gen_meaning, gen_of, gen_question, generated, HasDepth};
ghost use Rattle.bd_app.specs.Meaning.{FilesSeen};
ghost use Rattle.bd_app.specs.Verdicts.{IsVerdictReport};
ghost use Rattle.bd_app.specs.inner.Loaded.{AreFew, sources_view};
ghost use Rattle.bd_app.specs.inner.Done.{IsDone, OnDesign};

use crate::answer::Answer;
use crate::fault::Fault;
use crate::load::Sources;
use crate::verdict::{Asked, verdict_answer, verdict_on};
use crate::words::required_number;
use bd_gen::design_text;
use bd_typer::Premise;
use bd_verify::Mode;
use clap::{Arg, ArgMatches, Command, value_parser};
use std::alloc::{AllocError, Global};

/// The options of `gen`.
#[derive(Clone, Copy)]
pub struct GenOptions {
    pub depth: u32,
    pub drop: u32,
}

/// The words that `gen` takes.
pub fn command<'a>(alloc: Global) -> Result<Command<'a>, AllocError>
    ensures shape { IfOk result (λ c. shape_of c ≡ gen_command) }
    ensures local { IfOk result (λ c. (fields_of c).has_globals ≡ false) }
{
    let depth = Arg::new(alloc, "DEPTH")
        .required(true)
        .value_parser(value_parser!(u32).range(2..=12));
    let drop = Arg::new(alloc, "DROP")
        .required(true)
        .value_parser(value_parser!(u32).range(0..=11));
    Command::new(alloc, "gen").arg(depth)?.arg(drop)
}

/// The options that the words of `gen` give.
pub fn options(matches: &ArgMatches<'_>) -> GenOptions
    ensures asked { gen_of result ≡ gen_question (rows_of (found_of matches.now)) }
    ensures bounded { HasDepth result }
{
    GenOptions {
        depth: required_number(matches, "DEPTH").clamp(2, 12),
        drop: required_number(matches, "DROP"),
    }
}

/// What is asked of each generated pipeline.
const ASKED: Asked = Asked {
    budget: 200_000,
    mode: Mode::Plain,
    given: false,
};

/// The texts of a generated pipeline and of its specification.
fn sources(alloc: Global, options: GenOptions) -> Result<Sources, AllocError>
    requires { HasDepth options }
    ensures generated { IfOk result (λ s. sources_view s ≡ generated (gen_of options)) }
    ensures few { IfOk result (λ s. AreFew (sources_view s)) }
{
    let (pipe, spec) = design_text(alloc, options.depth, options.drop)?;
    Ok(Sources {
        pipe,
        spec,
        premise: Premise::Invariant,
        third: None,
    })
}

/// What the line of the verdict on a generated pipeline begins with.
fn lead(alloc: Global, options: GenOptions) -> Result<String, AllocError>
    requires { HasDepth options }
    ensures { IfOk result (λ text. string_bytes text ≡ gen_lead (gen_of options)) }
{
    let GenOptions { depth, drop } = options;
    let latches = 3 * depth - 1;
    let mut text = String::new(alloc);
    write!(text, "gen {depth} {drop} latches {latches} ")?;
    Ok(text)
}

/// The verdict on the design of sources, with its line, which begins with `lead`.
fn answer_on(alloc: Global, lead: &str, sources: &Sources) -> Result<Answer, Fault>
    requires { AreFew (sources_view sources.now) }
    ensures { OnDesign (IsVerdictReport gen_asked false lead.now)
        (sources_view sources.now) result }
{
    let shown = verdict_on(alloc, sources, ASKED, false)?;
    let answer = verdict_answer(alloc, lead, shown, ASKED.budget)?;
    Ok(answer)
}

/// The answer to `gen`, with which no case is printed.
pub fn answer(alloc: Global, options: GenOptions) -> Result<Answer, Fault>
    requires { HasDepth options }
    ensures { (files : FilesSeen) → IsDone (gen_meaning (gen_of options)) files files result }
{
    let sources = sources(alloc, options)?;
    let lead = lead(alloc, options)?;
    answer_on(alloc, lead.as_str(), &sources)
}
