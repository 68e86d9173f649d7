//! `check`: the verdict on a pipeline.
//!
//! The verdict's formula and proof are saved, in this order, before anything is printed.
ghost use Rattle.std.specs.Prelude.{◌≡◌, false, IfOk};
ghost use Rattle.clap.specs.Words.{found_of, rows_of, shape_of};
ghost use Rattle.clap.specs.declared.builder.command.Command.TheViews.{out-Command as fields_of};
ghost use Rattle.bd_app.specs.Check.{check_asked, check_command, check_meaning, check_of, check_question};
ghost use Rattle.bd_app.specs.Meaning.{files_seen};
ghost use Rattle.bd_app.specs.inner.Done.{IsDone};

use crate::answer::Answer;
use crate::fault::Fault;
use crate::load::{DesignFiles, load_sources};
use crate::save::save_work;
use crate::verdict::{Asked, verdict_answer, verdict_on, work};
use crate::words::{
    budget, flag, machines_command, mode_at, option, required_number, required_word, with, word_at,
};
use bd_files::Files;
use bd_typer::Premise;
use bd_verify::Mode;
use clap::{Arg, ArgMatches, Command};
use std::alloc::{AllocError, Global};

/// The options of `check`.
#[derive(Clone, Copy)]
pub struct CheckOptions<'a> {
    pub pipe: &'a str,
    pub spec: &'a str,
    pub inv: Option<&'a str>,
    pub budget: u32,
    pub cnf: Option<&'a str>,
    pub lrat: Option<&'a str>,
    pub mode: Mode,
}

/// The words that `check` takes.
pub fn command<'a>(alloc: Global) -> Result<Command<'a>, AllocError>
    ensures shape { IfOk result (λ c. shape_of c ≡ check_command) }
    ensures local { IfOk result (λ c. (fields_of c).has_globals ≡ false) }
{
    let command = machines_command(alloc, "check")?;
    let command = with(command, Arg::new(alloc, "INV"))?;
    let command = with(command, budget(alloc))?;
    let command = with(command, option(alloc, "cnf"))?;
    let command = with(command, option(alloc, "lrat"))?;
    with(command, flag(alloc, "diverse"))
}

/// The options that the words of `check` give.
pub fn options<'a>(matches: &ArgMatches<'a>) -> CheckOptions<'a>
    ensures { check_of result ≡ check_question (rows_of (found_of matches.now)) }
{
    CheckOptions {
        pipe: required_word(matches, "PIPE"),
        spec: required_word(matches, "SPEC"),
        budget: required_number(matches, "budget"),
        inv: word_at(matches, "INV"),
        cnf: word_at(matches, "cnf"),
        lrat: word_at(matches, "lrat"),
        mode: mode_at(matches, "diverse"),
    }
}

/// What is asked of the design.
fn asked(options: CheckOptions<'_>) -> Asked
    ensures { result ≡ check_asked (check_of options.entry) }
{
    Asked {
        budget: options.budget,
        mode: options.mode,
        given: options.inv.is_some(),
    }
}

/// The answer to `check`.
pub fn answer<F: Files>(
    alloc: Global,
    files: &mut F,
    options: CheckOptions<'_>,
) -> Result<Answer, Fault>
    ensures { IsDone (check_meaning (check_of options.entry))
        (files_seen F.held F.faults F.blame F.calls files.old)
        (files_seen F.held F.faults F.blame F.calls files.new) result }
{
    let names = DesignFiles {
        pipe: options.pipe,
        spec: options.spec,
        premise: Premise::Invariant,
        third: options.inv,
    };
    let sources = load_sources(files, names)?;
    let shown = verdict_on(alloc, &sources, asked(options), true)?;
    save_work(
        alloc,
        files,
        work(&shown.verdict),
        options.cnf,
        options.lrat,
    )?;
    let answer = verdict_answer(alloc, "", shown, options.budget)?;
    Ok(answer)
}
