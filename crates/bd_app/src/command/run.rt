//! `run`: the states of a case's run.
ghost use Rattle.std.specs.Prelude.{◌≡◌, ◌++◌, false, IfOk, OnOk, codes};
ghost use Rattle.clap.specs.Words.{found_of, rows_of, rule_of, shape_of};
ghost use Rattle.clap.specs.declared.builder.command.Command.TheViews.{out-Command as fields_of};
ghost use Rattle.bd_model.specs.DesignView.{design_view};
ghost use Rattle.bd_model.specs.Lawful.{IsLawful};
ghost use Rattle.bd_app.specs.Meaning.{files_seen};
ghost use Rattle.bd_app.specs.Run.{cycle_text, cycles_text, run_command, run_meaning, run_of, run_question, run_text, IsTrace};
ghost use Rattle.bd_app.specs.Texts.{case_kind};
ghost use Rattle.bd_app.specs.Words.{in_range, required};
ghost use Rattle.bd_app.specs.inner.Loaded.{AreFew, sources_view};
ghost use Rattle.bd_app.specs.inner.Done.{IsDone, IsSaidOf, IsTextRefused, OnSources, OnText};

use crate::answer::{Answer, Ended};
use crate::fault::Fault;
use crate::load::{DesignFiles, TextBytes, TextFiles, load_text};
use crate::read::{case, design};
use crate::words::{machines_command, required, required_number, required_word, with};
use bd_case::state_text;
use bd_files::Files;
use bd_model::{Case, Design, State};
use bd_sim::trace;
use bd_typer::{Premise, Text};
use clap::{Arg, ArgMatches, Command, value_parser};
use itoa::Buffer;
use std::alloc::{AllocError, Global};

/// The options of `run`.
#[derive(Clone, Copy)]
pub struct RunOptions<'a> {
    pub pipe: &'a str,
    pub spec: &'a str,
    pub case: &'a str,
    pub cycles: u32,
}

/// The number of cycles of a run.
fn cycles<'a>(alloc: Global) -> Arg<'a>
    ensures rule { rule_of result ≡ in_range 0 1000 (required (codes "CYCLES")) }
    ensures local { result.global ≡ false }
{
    Arg::new(alloc, "CYCLES")
        .required(true)
        .value_parser(value_parser!(u32).range(0..=1_000))
}

/// The words that `run` takes.
pub fn command<'a>(alloc: Global) -> Result<Command<'a>, AllocError>
    ensures shape { IfOk result (λ c. shape_of c ≡ run_command) }
    ensures local { IfOk result (λ c. (fields_of c).has_globals ≡ false) }
{
    let command = machines_command(alloc, "run")?;
    let command = with(command, required(alloc, "CASE"))?;
    with(command, cycles(alloc))
}

/// The options that the words of `run` give.
pub fn options<'a>(matches: &ArgMatches<'a>) -> RunOptions<'a>
    ensures { run_of result ≡ run_question (rows_of (found_of matches.now)) }
{
    RunOptions {
        pipe: required_word(matches, "PIPE"),
        spec: required_word(matches, "SPEC"),
        case: required_word(matches, "CASE"),
        cycles: required_number(matches, "CYCLES"),
    }
}

/// Puts the text of a state after those before.
fn push_state(
    alloc: Global,
    text: &mut Vec<u8>,
    design: &Design,
    cycle: usize,
    state: &State,
) -> Result<(), AllocError>
    ensures { OnOk result (text.new.items
        ≡ text.old.items ++ cycle_text (design_view design.now) cycle state.now) }
{
    let mut buffer = Buffer::new();
    text.extend_from_slice(b"cycle ")?;
    text.extend_from_slice(buffer.format(cycle).as_bytes())?;
    text.extend_from_slice(b"\n")?;
    let entries = state_text(alloc, design, state)?;
    text.extend_from_slice(entries.as_slice())?;
    Ok(())
}

/// The text of states.
fn states_text(alloc: Global, design: &Design, states: &[State]) -> Result<Vec<u8>, AllocError>
    ensures { IfOk result (λ text.
        text.items ≡ cycles_text (design_view design.now) 0 states.now) }
{
    let mut text = Vec::new(alloc);
    for (cycle, state) in states.iter().enumerate() {
        push_state(alloc, &mut text, design, cycle, state)?;
    }
    Ok(text)
}

/// The text of a case's run.
fn run_text(alloc: Global, design: &Design, case: &Case, cycles: u32) -> Result<Vec<u8>, AllocError>
    requires lawful { IsLawful (design_view design.now) }
    ensures { IfOk result (λ text.
        text.items ≡ run_text (design_view design.now) case.now cycles) }
{
    let states = trace(alloc, design, case, cycles)?;
    states_text(alloc, design, states.as_slice())
}

/// The run of the case of bytes.
fn ran(alloc: Global, design: &Design, bytes: &[u8], cycles: u32) -> Result<Answer, Fault>
    requires { IsLawful (design_view design.now) }
    ensures { OnText (IsSaidOf case_kind (IsTrace cycles)) (IsTextRefused case_kind)
        (design_view design.now) bytes.now result }
{
    let case = case(alloc, design, bytes)?;
    let report = run_text(alloc, design, &case, cycles)?;
    Ok(Answer {
        ended: Ended::Ran,
        report,
    })
}

/// The run of the case of loaded files.
fn ran_bytes(alloc: Global, bytes: &TextBytes, cycles: u32) -> Result<Answer, Fault>
    requires { AreFew (sources_view bytes.now.sources) }
    ensures { OnSources (IsSaidOf case_kind (IsTrace cycles)) (IsTextRefused case_kind)
        (sources_view bytes.now.sources) bytes.now.text.items result }
{
    let design = design(alloc, &bytes.sources)?;
    ran(alloc, &design, bytes.text.as_slice(), cycles)
}

/// The answer to `run`.
pub fn answer<F: Files>(
    alloc: Global,
    files: &mut F,
    options: RunOptions<'_>,
) -> Result<Answer, Fault>
    ensures { IsDone (run_meaning (run_of options.entry))
        (files_seen F.held F.faults F.blame F.calls files.old)
        (files_seen F.held F.faults F.blame F.calls files.new) result }
{
    let design = DesignFiles {
        pipe: options.pipe,
        spec: options.spec,
        premise: Premise::Invariant,
        third: None,
    };
    let names = TextFiles {
        design,
        text: options.case,
    };
    let bytes = load_text(files, Text::Case, names)?;
    ran_bytes(alloc, &bytes, options.cycles)
}
