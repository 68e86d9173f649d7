//! `bounded`: whether a pipeline is right for so many cycles, from each state in which the start is
//! true.
ghost use Rattle.std.specs.Prelude.{◌≡◌, ◌≤◌, ◌++◌, [], ◌∷◌, false, codes, IfSome, OnOk, IfOk, string_bytes};
ghost use Rattle.std.specs.Option.{option_map};
ghost use Rattle.clap.specs.Words.{found_of, rows_of, rule_of, shape_of};
ghost use Rattle.clap.specs.declared.builder.command.Command.TheViews.{out-Command as fields_of};
ghost use Rattle.bd_model.specs.DesignView.{design_view};
ghost use Rattle.bd_model.specs.Lawful.{IsLawful};
ghost use Rattle.bd_bounded.specs.Answer.{HasWork, Says};
ghost use Rattle.bd_app.specs.Bounded.{bounded_command, bounded_meaning, bounded_of, bounded_question, bounded_words, shown_trail, HasFewCycles, IsBoundedReport};
ghost use Rattle.bd_app.specs.Meaning.{files_seen};
ghost use Rattle.bd_app.specs.Texts.{IsTextOfIf, TrailFitsShort, trail_kind};
ghost use Rattle.bd_app.specs.Words.{in_range, required};
ghost use Rattle.bd_app.specs.inner.Loaded.{AreFew, sources_view};
ghost use Rattle.bd_app.specs.inner.Done.{IsDone, IsShownRun, OnDesign};
ghost use Rattle.bd_model.specs.Limits.{most_cycles};

use crate::answer::{Answer, Ended};
use crate::fault::Fault;
use crate::load::{DesignFiles, Sources, load_sources};
use crate::read::design;
use crate::report::lined;
use crate::words::{budget, machines_command, required, required_number, required_word, with};
use bd_bounded::{Bounded, bounded};
use bd_case::trail_text;
use bd_cdcl::Cdcl;
use bd_files::Files;
use bd_model::{Design, Trail};
use bd_typer::Premise;
use clap::{Arg, ArgMatches, Command, value_parser};
use std::alloc::{AllocError, Global};

/// The options of `bounded`.
#[derive(Clone, Copy)]
pub struct BoundedOptions<'a> {
    pub pipe: &'a str,
    pub spec: &'a str,
    pub start: &'a str,
    pub cycles: u32,
    pub budget: u32,
}

/// The most cycles of a bounded run.
const MOST_CYCLES: u32 = 16;

/// The argument that gives the number of cycles of a bounded run.
fn cycles<'a>(alloc: Global) -> Arg<'a>
    ensures rule { rule_of result ≡ in_range 0 most_cycles (required (codes "C")) }
    ensures local { result.global ≡ false }
{
    Arg::new(alloc, "C")
        .required(true)
        .value_parser(value_parser!(u32).range(0..=16))
}

/// The words that `bounded` takes.
pub fn command<'a>(alloc: Global) -> Result<Command<'a>, AllocError>
    ensures shape { IfOk result (λ c. shape_of c ≡ bounded_command) }
    ensures local { IfOk result (λ c. (fields_of c).has_globals ≡ false) }
{
    let command = machines_command(alloc, "bounded")?;
    let command = with(command, required(alloc, "START"))?;
    let command = with(command, cycles(alloc))?;
    with(command, budget(alloc))
}

/// The options that the words of `bounded` give.
pub fn options<'a>(matches: &ArgMatches<'a>) -> BoundedOptions<'a>
    ensures asked { bounded_of result ≡ bounded_question (rows_of (found_of matches.now)) }
    ensures bounded { HasFewCycles result }
{
    BoundedOptions {
        pipe: required_word(matches, "PIPE"),
        spec: required_word(matches, "SPEC"),
        start: required_word(matches, "START"),
        cycles: required_number(matches, "C").min(MOST_CYCLES),
        budget: required_number(matches, "budget"),
    }
}

/// What a design is found to be, and the text of the trail that is shown with it.
#[derive(Drop)]
pub struct ShownRun {
    pub answer: Bounded,
    pub trail: Vec<u8>,
}

/// The trail that is printed with an answer.
fn shown(answer: &Bounded) -> Option<&Trail>
    ensures { option_map (λ t. t.now) result ≡ shown_trail answer.now }
{
    match answer {
        Bounded::Broken(_, trail, _) => Some(trail),
        Bounded::Kept(_) | Bounded::Undecided(_) => None,
    }
}

/// The text of a trail of a design, if there is a trail.
fn text_of(alloc: Global, design: &Design, trail: Option<&Trail>) -> Result<Vec<u8>, AllocError>
    requires lawful { IsLawful (design_view design.now) }
    requires fits { IfSome (option_map (λ t. t.now) trail)
        (TrailFitsShort (design_view design.now)) }
    ensures { IfOk result (λ text. IsTextOfIf trail_kind (design_view design.now)
        (option_map (λ t. t.now) trail.entry) text.items) }
{
    match trail {
        Some(trail) => trail_text(alloc, design, trail),
        None => Ok(Vec::new(alloc)),
    }
}

/// What a design is found to be over so many cycles.
fn decide(alloc: Global, design: &Design, cycles: u32, budget: u32) -> Result<Bounded, AllocError>
    requires lawful { IsLawful (design_view design.now) }
    requires few { cycles ≤ most_cycles }
    ensures says { IfOk result (Says (design_view design.now) cycles) }
    ensures work { IfOk result (HasWork (design_view design.now) cycles budget) }
{
    let mut solver = Cdcl::new(alloc);
    bounded(alloc, &mut solver, design, cycles, budget)
}

/// What a design is found to be over so many cycles, with the text of the trail that shows it.
fn shown_run(
    alloc: Global,
    design: &Design,
    cycles: u32,
    budget: u32,
) -> Result<ShownRun, AllocError>
    requires lawful { IsLawful (design_view design.now) }
    requires few { cycles ≤ most_cycles }
    ensures { IfOk result (IsShownRun (design_view design.now) cycles budget) }
{
    let answer = decide(alloc, design, cycles, budget)?;
    let trail = text_of(alloc, design, shown(&answer))?;
    Ok(ShownRun { answer, trail })
}

/// Puts an answer in words after a text.
fn push_words(
    text: &mut String,
    answer: &Bounded,
    cycles: u32,
    budget: u32,
) -> Result<(), AllocError>
    ensures { OnOk result (string_bytes text.new
        ≡ string_bytes text.old ++ bounded_words cycles budget answer.now) }
{
    match answer {
        Bounded::Kept(_) => write!(text, "correct to {cycles}"),
        Bounded::Broken(cycle, _, _) => {
            let cycle = *cycle;
            write!(text, "wrong commute {cycle}")
        }
        Bounded::Undecided(_) => write!(text, "undecided {budget}"),
    }
}

/// The line of an answer, and the text of the trail after it.
pub fn bounded_report(
    alloc: Global,
    answer: &Bounded,
    cycles: u32,
    budget: u32,
    trail: &[u8],
) -> Result<Vec<u8>, AllocError>
    ensures { IfOk result (λ text. text.items
        ≡ (bounded_words cycles budget answer.now ++ 10 ∷ []) ++ trail.now) }
{
    let mut text = String::new(alloc);
    push_words(&mut text, answer, cycles, budget)?;
    lined(text, trail)
}

/// The answer on a design.
fn run_on(alloc: Global, design: &Design, cycles: u32, budget: u32) -> Result<Answer, AllocError>
    requires lawful { IsLawful (design_view design.now) }
    requires few { cycles ≤ most_cycles }
    ensures { IfOk result (λ a.
        IsBoundedReport cycles budget (design_view design.now) a.ended a.report.items) }
{
    let ShownRun { answer, trail } = shown_run(alloc, design, cycles, budget)?;
    let report = bounded_report(alloc, &answer, cycles, budget, trail.as_slice())?;
    Ok(Answer {
        ended: Ended::Bounded(answer),
        report,
    })
}

/// The answer on the design of sources.
fn run_on_sources(
    alloc: Global,
    sources: &Sources,
    cycles: u32,
    budget: u32,
) -> Result<Answer, Fault>
    requires sources { AreFew (sources_view sources.now) }
    requires few { cycles ≤ most_cycles }
    ensures { OnDesign (IsBoundedReport cycles budget) (sources_view sources.now) result }
{
    let design = design(alloc, sources)?;
    let answer = run_on(alloc, &design, cycles, budget)?;
    Ok(answer)
}

/// The answer to `bounded`.
pub fn answer<F: Files>(
    alloc: Global,
    files: &mut F,
    options: BoundedOptions<'_>,
) -> Result<Answer, Fault>
    requires { HasFewCycles options }
    ensures { IsDone (bounded_meaning (bounded_of options.entry))
        (files_seen F.held F.faults F.blame F.calls files.old)
        (files_seen F.held F.faults F.blame F.calls files.new) result }
{
    let names = DesignFiles {
        pipe: options.pipe,
        spec: options.spec,
        premise: Premise::Start,
        third: Some(options.start),
    };
    let sources = load_sources(files, names)?;
    run_on_sources(alloc, &sources, options.cycles, options.budget)
}
