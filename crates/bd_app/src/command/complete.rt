//! `complete`: whether a pipeline is right by a completion function, or whether that agrees with flushing.
ghost use Rattle.std.specs.Prelude.{◌≡◌, ◌≤◌, ◌++◌, [], ◌∷◌, false, length, OnOk, IfOk, string_bytes};
ghost use Rattle.std.specs.Option.{option_map};
ghost use Rattle.clap.specs.Words.{found_of, rows_of, shape_of};
ghost use Rattle.clap.specs.declared.builder.command.Command.TheViews.{out-Command as fields_of};
ghost use Rattle.bd_model.specs.Abstraction.{IsLawfulAbstraction, abstraction_view};
ghost use Rattle.bd_completion.specs.Answer.{HasWork, Says};
ghost use Rattle.bd_model.specs.DesignView.{design_view};
ghost use Rattle.bd_model.specs.Lawful.{IsLawful};
ghost use Rattle.bd_app.specs.Complete.{complete_command, complete_meaning, complete_of, complete_question, complete_words, shown_break, IsCompleteReport};
ghost use Rattle.bd_app.specs.Meaning.{files_seen};
ghost use Rattle.bd_app.specs.inner.Loaded.{AreFew, sources_view};
ghost use Rattle.bd_app.specs.inner.Completed.{IsShownBreak, OnCompletion};
ghost use Rattle.bd_app.specs.inner.Done.{IsDone};
ghost use Rattle.bd_model.specs.Limits.{longest_text};

use crate::answer::{Answer, Ended};
use crate::command::text::text_files;
use crate::fault::Fault;
use crate::load::{TextBytes, TextFiles, load_text};
use crate::read::completion;
use crate::report::lined;
use crate::verdict::text_of;
use crate::words::{budget, flag, flag_at, required_number, text_command, with};
use bd_cdcl::Cdcl;
use bd_completion::{Complete, complete};
use bd_files::Files;
use bd_model::{Abstraction, Case, Condition, Design};
use bd_typer::Text;
use clap::{ArgMatches, Command};
use std::alloc::{AllocError, Global};

/// The options of `complete`.
#[derive(Clone, Copy)]
pub struct CompleteOptions<'a> {
    pub files: TextFiles<'a>,
    pub agree: bool,
    pub budget: u32,
}

/// The words that `complete` takes.
pub fn command<'a>(alloc: Global) -> Result<Command<'a>, AllocError>
    ensures shape { IfOk result (λ c. shape_of c ≡ complete_command) }
    ensures local { IfOk result (λ c. (fields_of c).has_globals ≡ false) }
{
    let command = text_command(alloc, "complete", "COMP")?;
    let command = with(command, flag(alloc, "agree"))?;
    with(command, budget(alloc))
}

/// The options that the words of `complete` give.
pub fn options<'a>(matches: &ArgMatches<'a>) -> CompleteOptions<'a>
    ensures { complete_of result ≡ complete_question (rows_of (found_of matches.now)) }
{
    CompleteOptions {
        files: text_files(matches, "COMP"),
        agree: flag_at(matches, "agree"),
        budget: required_number(matches, "budget"),
    }
}

/// What is found, and the text of the case that is shown with it.
#[derive(Drop)]
pub struct ShownBreak {
    pub answer: Complete,
    pub case: Vec<u8>,
}

/// The case that is printed with an answer.
fn shown(answer: &Complete) -> Option<&Case>
    ensures { option_map (λ c. c.now) result ≡ shown_break answer.now }
{
    match answer {
        Complete::Wrong(_, case, _) | Complete::Differ(case, _) => Some(case),
        Complete::Right(_) | Complete::Agree(_) | Complete::Undecided(_) => None,
    }
}

/// What a design is found to be by an abstraction.
fn decide(
    alloc: Global,
    design: &Design,
    abs: &Abstraction,
    agree: bool,
    budget: u32,
) -> Result<Complete, AllocError>
    requires lawful { IsLawful (design_view design.now) }
    requires given { IsLawfulAbstraction (design_view design.now) abs.now }
    ensures says { IfOk result (Says (design_view design.now) (abstraction_view abs.now) agree) }
    ensures work { IfOk result (HasWork (design_view design.now)
        (abstraction_view abs.now) agree budget) }
{
    let mut solver = Cdcl::new(alloc);
    complete(alloc, &mut solver, design, abs, agree, budget)
}

/// What a design is found to be by an abstraction, with the text of the case that shows it.
fn shown_answer(
    alloc: Global,
    design: &Design,
    abs: &Abstraction,
    agree: bool,
    budget: u32,
) -> Result<ShownBreak, AllocError>
    requires lawful { IsLawful (design_view design.now) }
    requires given { IsLawfulAbstraction (design_view design.now) abs.now }
    ensures { IfOk result (IsShownBreak (design_view design.now)
        (abstraction_view abs.now) agree budget) }
{
    let answer = decide(alloc, design, abs, agree, budget)?;
    let case = text_of(alloc, design, shown(&answer))?;
    Ok(ShownBreak { answer, case })
}

/// Puts an answer in words after a text.
fn push_words(text: &mut String, answer: &Complete, budget: u32) -> Result<(), AllocError>
    ensures { OnOk result (string_bytes text.new
        ≡ string_bytes text.old ++ complete_words budget answer.now) }
{
    match answer {
        Complete::Right(_) => text.push_str("correct"),
        Complete::Wrong(Condition::Invariant, _, _) => text.push_str("wrong invariant"),
        Complete::Wrong(Condition::Commute, _, _) => text.push_str("wrong commute"),
        Complete::Agree(_) => text.push_str("agree"),
        Complete::Differ(_, _) => text.push_str("differ"),
        Complete::Undecided(_) => write!(text, "undecided {budget}"),
    }
}

/// The line of an answer, and the text of the case after it.
fn report(alloc: Global, answer: &Complete, budget: u32, case: &[u8]) -> Result<Vec<u8>, AllocError>
    ensures { IfOk result (λ text. text.items
        ≡ (complete_words budget answer.now ++ 10 ∷ []) ++ case.now) }
{
    let mut text = String::new(alloc);
    push_words(&mut text, answer, budget)?;
    lined(text, case)
}

/// The answer on a design and an abstraction.
fn answer_on(
    alloc: Global,
    design: &Design,
    abs: &Abstraction,
    agree: bool,
    budget: u32,
) -> Result<Answer, AllocError>
    requires lawful { IsLawful (design_view design.now) }
    requires given { IsLawfulAbstraction (design_view design.now) abs.now }
    ensures { IfOk result (λ a. IsCompleteReport agree budget (design_view design.now)
        (abstraction_view abs.now) a.ended a.report.items) }
{
    let ShownBreak { answer, case } = shown_answer(alloc, design, abs, agree, budget)?;
    let report = report(alloc, &answer, budget, case.as_slice())?;
    Ok(Answer {
        ended: Ended::Completed(answer),
        report,
    })
}

/// The answer on the design and the completion function of loaded files.
fn answer_on_bytes(
    alloc: Global,
    bytes: &TextBytes,
    agree: bool,
    budget: u32,
) -> Result<Answer, Fault>
    requires sources { AreFew (sources_view bytes.now.sources) }
    requires text { length bytes.now.text.items ≤ longest_text }
    ensures { OnCompletion (IsCompleteReport agree budget) (sources_view bytes.now.sources)
        bytes.now.text.items result }
{
    let joined = completion(alloc, bytes)?;
    let answer = answer_on(alloc, &joined.design, &joined.abs, agree, budget)?;
    Ok(answer)
}

/// The answer to `complete`.
pub fn answer<F: Files>(
    alloc: Global,
    files: &mut F,
    options: CompleteOptions<'_>,
) -> Result<Answer, Fault>
    ensures { IsDone (complete_meaning (complete_of options.entry))
        (files_seen F.held F.faults F.blame F.calls files.old)
        (files_seen F.held F.faults F.blame F.calls files.new) result }
{
    let bytes = load_text(files, Text::Comp, options.files)?;
    answer_on_bytes(alloc, &bytes, options.agree, options.budget)
}
