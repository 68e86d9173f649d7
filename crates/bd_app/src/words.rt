//! Arguments of commands, and the values that `clap` reads of them.
ghost use Rattle.std.specs.Prelude.{◌≡◌, false, [], IfOk, codes};
ghost use Rattle.std.specs.Option.{option_map};
ghost use Rattle.clap.specs.declared.builder.command.Command.TheViews.{out-Command as fields_of};
ghost use Rattle.clap.specs.Words.{first_of, found_of, rows_of, rule_of, shape_of};
ghost use Rattle.bd_app.specs.Words.{required, option, budget_option, machines_command, number_at, number_of, flag, flag_at, mode_at, text_command, text_of_required};
ghost use Rattle.bd_app.specs.inner.Asked.{and_rule};

use bd_verify::Mode;
use clap::{Arg, ArgAction, ArgMatches, value_parser};
use std::alloc::{AllocError, Global};

/// An argument that must be given.
pub fn required<'a>(alloc: Global, id: &'a str) -> Arg<'a>
    ensures rule { rule_of result ≡ required id.entry.now }
    ensures local { result.global ≡ false }
{
    Arg::new(alloc, id).required(true)
}

/// `--ID VALUE`.
pub fn option<'a>(alloc: Global, id: &'a str) -> Arg<'a>
    ensures rule { rule_of result ≡ option id.entry.now }
    ensures local { result.global ≡ false }
{
    Arg::new(alloc, id).long(id)
}

/// `--ID`.
pub fn flag<'a>(alloc: Global, id: &'a str) -> Arg<'a>
    ensures rule { rule_of result ≡ flag id.entry.now }
    ensures local { result.global ≡ false }
{
    Arg::new(alloc, id).long(id).action(ArgAction::SetTrue)
}

/// The budget of a check.
pub fn budget<'a>(alloc: Global) -> Arg<'a>
    ensures rule { rule_of result ≡ budget_option }
    ensures local { result.global ≡ false }
{
    Arg::new(alloc, "budget")
        .long("budget")
        .value_parser(value_parser!(u32).range(0..=1_000_000_000))
        .default_value("200000")
}

/// The command with one more argument.
pub fn with<'a>(command: clap::Command<'a>, arg: Arg<'a>) -> Result<clap::Command<'a>, AllocError>
    requires local_command { (fields_of command).has_globals ≡ false }
    requires local_arg { arg.global ≡ false }
    ensures shape { IfOk result (λ c.
        shape_of c ≡ and_rule (shape_of command.entry) (rule_of arg.entry)) }
    ensures local { IfOk result (λ c. (fields_of c).has_globals ≡ false) }
{
    command.arg(arg)
}

/// A command on a pipeline and a specification.
pub fn machines_command<'a>(alloc: Global, name: &'a str) -> Result<clap::Command<'a>, AllocError>
    ensures shape { IfOk result (λ c. shape_of c ≡ machines_command name.entry.now []) }
    ensures local { IfOk result (λ c. (fields_of c).has_globals ≡ false) }
{
    let command = with(clap::Command::new(alloc, name), required(alloc, "PIPE"))?;
    with(command, required(alloc, "SPEC"))
}

/// A command on a pipeline, a specification, a text in a file of this name, and maybe an invariant.
pub fn text_command<'a>(
    alloc: Global,
    name: &'a str,
    text: &'a str,
) -> Result<clap::Command<'a>, AllocError>
    ensures shape { IfOk result (λ c.
        shape_of c ≡ text_command name.entry.now text.entry.now []) }
    ensures local { IfOk result (λ c. (fields_of c).has_globals ≡ false) }
{
    let command = machines_command(alloc, name)?;
    let command = with(command, required(alloc, text))?;
    with(command, Arg::new(alloc, "INV"))
}

/// The word given for an argument.
pub fn word_at<'a>(matches: &ArgMatches<'a>, id: &str) -> Option<&'a str>
    ensures { option_map (λ word. word.now) result
        ≡ first_of id.now (rows_of (found_of matches.now)) }
{
    matches.get_str(id)
}

/// The word given for an argument that clap lets no words be without.
pub fn required_word<'a>(matches: &ArgMatches<'a>, id: &str) -> &'a str
    ensures { result.now ≡ text_of_required id.now (rows_of (found_of matches.now)) }
{
    match word_at(matches, id) {
        Some(word) => word,
        None => "",
    }
}

/// The number of an argument that has to be given, or has a default.
pub fn required_number(matches: &ArgMatches<'_>, id: &str) -> u32
    ensures { result ≡ number_of id.now (rows_of (found_of matches.now)) }
{
    number_at(matches, id).unwrap_or(0)
}

/// The number given for an argument.
pub fn number_at(matches: &ArgMatches<'_>, id: &str) -> Option<u32>
    ensures { result ≡ number_at id.now (rows_of (found_of matches.now)) }
{
    matches.get_one::<u32>(id)
}

/// Whether a flag is given.
pub fn flag_at(matches: &ArgMatches<'_>, id: &str) -> bool
    ensures { result ≡ flag_at id.now (rows_of (found_of matches.now)) }
{
    matches.get_one::<bool>(id).unwrap_or(false)
}

/// Positive equality, if its flag is given.
pub fn mode_at(matches: &ArgMatches<'_>, id: &str) -> Mode
    ensures { result ≡ mode_at id.now (rows_of (found_of matches.now)) }
{
    if flag_at(matches, id) {
        Mode::Diverse
    } else {
        Mode::Plain
    }
}
