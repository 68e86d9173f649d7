ghost use Rattle.std.specs.Prelude.{◌≡◌, ◌++◌, OnOk, IfOk, string_bytes};
ghost use Rattle.bd_lrat.specs.Text.{hints_text, ids_text, line_text, lrat};

use crate::hints::Hints;
use crate::line::{Hint, Line};
use crate::log::Log;
use bd_cnf::push_literals;
use std::alloc::{AllocError, Global};
use std::fmt;

/// Writes the hint as textual LRAT does.
impl fmt::Display for Hint {
    ghost use Rattle.std.specs.Prelude.{Some};
    ghost use Rattle.bd_lrat.specs.Text.{hint_text};

    ghost output = { λ h. Some (hint_text h) };

    /// Writes the hint as textual LRAT does.
    fn fmt<W: fmt::Write>(&self, f: &mut fmt::Formatter<W>) -> fmt::Result {
        match self {
            Hint::Unit(id) => write!(f, "{id}"),
            Hint::Rat(id) => write!(f, "-{id}"),
        }
    }
}

/// The log in textual LRAT, a line for each of its lines.
pub fn lrat_text(alloc: Global, log: &Log) -> Result<Vec<u8>, AllocError>
    ensures { IfOk result (λ text. text.items ≡ lrat log.now) }
{
    let mut text = String::new(alloc);
    for line in log.as_slice() {
        push_line(&mut text, line)?;
    }
    Ok(text.into_bytes())
}

/// Adds a line of a log in textual LRAT, with its end of line.
fn push_line(text: &mut String, line: &Line) -> Result<(), AllocError>
    ensures { OnOk result (string_bytes text.new ≡ string_bytes text.old ++ line_text line.now) }
{
    match line {
        Line::Add { id, clause, hints } => {
            write!(text, "{id} ")?;
            push_literals(text, clause.lits())?;
            text.push_str("0 ")?;
            push_hints(text, hints)?;
        }
        Line::Delete { id, ids } => {
            write!(text, "{id} d ")?;
            push_ids(text, ids.as_slice())?;
        }
    }
    text.push_str("0\n")
}

/// Adds hints in textual LRAT, each with a space after it.
fn push_hints(text: &mut String, hints: &Hints) -> Result<(), AllocError>
    ensures { OnOk result (string_bytes text.new ≡ string_bytes text.old ++ hints_text hints.now) }
{
    for hint in hints.iter() {
        write!(text, "{hint} ")?;
    }
    Ok(())
}

/// Adds ids in decimal, each with a space after it.
fn push_ids(text: &mut String, ids: &[u64]) -> Result<(), AllocError>
    ensures { OnOk result (string_bytes text.new ≡ string_bytes text.old ++ ids_text ids.now) }
{
    for id in ids {
        write!(text, "{id} ")?;
    }
    Ok(())
}
