//! The files of the commands on a text: a case, a proof or a completion function.
ghost use Rattle.std.specs.Prelude.{◌≡◌};
ghost use Rattle.clap.specs.Words.{found_of, rows_of};
ghost use Rattle.bd_app.specs.Files.{text_names, text_question};

use crate::load::{DesignFiles, TextFiles};
use crate::words::{required_word, word_at};
use bd_typer::Premise;
use clap::ArgMatches;

/// The names of the files of a design, maybe with an invariant, and of the text of this word.
pub fn text_files<'a>(matches: &ArgMatches<'a>, text: &str) -> TextFiles<'a>
    ensures { text_names result ≡ text_question text.now (rows_of (found_of matches.now)) }
{
    let design = DesignFiles {
        pipe: required_word(matches, "PIPE"),
        spec: required_word(matches, "SPEC"),
        premise: Premise::Invariant,
        third: word_at(matches, "INV"),
    };
    TextFiles {
        design,
        text: required_word(matches, text),
    }
}
