//! The line of a fault of a proof text.
ghost use Rattle.std.specs.Prelude.{◌≡◌, ◌≤◌, ◌++◌, IfOk};
ghost use Rattle.bd_files.specs.Devices.{PutsOrFaults};
ghost use Rattle.bd_files.specs.Pieces.{PutsInPieces};
ghost use Rattle.bd_app.specs.Pieces.{proof_pieces};
ghost use Rattle.bd_app.specs.ProofFaults.{cause_text, proof_line, refused_words, why_code, why_words};
ghost use Rattle.bd_app.specs.inner.ProofLine.{number_text, proof_parts};

use crate::answer::put_text;
use bd_files::Sink;
use bd_lrat::Refused;
use bd_proof_text::Why;
use bd_text::Code;
use itoa::Buffer;
use std::alloc::{AllocError, Global};

/// The code of a cause.
fn code_of(why: Why) -> Code
    ensures { result ≡ why_code why }
{
    match why {
        Why::Byte => Code::ProofByte,
        Why::Number => Code::ProofNumber,
        Why::Form => Code::ProofLine,
        Why::NotAccepted(_) => Code::ProofNotAccepted,
        Why::NoEmpty => Code::NoEmptyClause,
    }
}

/// Why a line isn't accepted: the words, and the number after them.
fn refused_parts(refused: Refused) -> (&'static [u8], Option<u64>)
    ensures { result.0.now ++ number_text result.1 ≡ refused_words refused }
{
    match refused {
        Refused::NotRising => (b", NotRising", None),
        Refused::NoVariable(variable) => (b", NoVariable ", Some(variable)),
        Refused::NoSuch(id) => (b", NoSuch ", Some(id)),
        Refused::NotUnit(id) => (b", NotUnit ", Some(id)),
        Refused::NoConflict => (b", NoConflict", None),
        Refused::Rat => (b", Rat", None),
    }
}

/// What stands after the text of the code: words, and the number after them.
fn why_parts(why: Why) -> (&'static [u8], Option<u64>)
    ensures { result.0.now ++ number_text result.1 ≡ why_words why }
{
    match why {
        Why::NotAccepted(refused) => refused_parts(refused),
        _ => (b"", None),
    }
}

/// The number in digits, if there is one.
fn digits(buffer: &mut Buffer, number: Option<u64>) -> &[u8]
    ensures { result.now ≡ number_text number }
{
    match number {
        Some(number) => buffer.format(number).as_bytes(),
        None => b"",
    }
}

/// `CODE TEXT`, of a cause.
pub fn cause_text(alloc: Global, why: Why) -> Result<Vec<u8>, AllocError>
    ensures { IfOk result (λ text. text.items ≡ cause_text why) }
{
    let mut buffer = Buffer::new();
    let (words, number) = why_parts(why);
    let code = code_of(why);
    let mut text = Vec::from_slice(alloc, code.name().as_bytes())?;
    text.push(b' ')?;
    text.extend_from_slice(code.text().as_bytes())?;
    text.extend_from_slice(words)?;
    text.extend_from_slice(digits(&mut buffer, number))?;
    Ok(text)
}

/// Puts `proof:LINE:COLUMN: CODE TEXT`, in pieces and without memory.
pub(crate) fn put_proof_fault<E: Sink>(err: &mut E, line: u64, column: u64, why: Why)
    ensures line { PutsOrFaults E.written E.faults err.old err.new (proof_line line column why) }
    ensures pieces { PutsInPieces E.written E.faults E.puts err.old err.new
        (proof_line line column why) proof_pieces }
    ensures never_falls { E.faults err.old ≤ E.faults err.new }
{
    let mut line_buffer = Buffer::new();
    let mut column_buffer = Buffer::new();
    let mut number_buffer = Buffer::new();
    let line = line_buffer.format(line).as_bytes();
    let column = column_buffer.format(column).as_bytes();
    let (words, number) = why_parts(why);
    let number = digits(&mut number_buffer, number);
    let code = code_of(why);
    put_parts(
        err,
        line,
        column,
        code.name().as_bytes(),
        code.text().as_bytes(),
        words,
        number,
    );
}

/// Puts the line `proof:LINE:COLUMN: CODE TEXT` of its parts, with the words and the number that
/// stand after the text.
fn put_parts<E: Sink>(
    err: &mut E,
    line: &[u8],
    column: &[u8],
    code: &[u8],
    text: &[u8],
    words: &[u8],
    number: &[u8],
)
    ensures line { PutsOrFaults E.written E.faults err.old err.new
        (proof_parts line.now column.now code.now text.now words.now number.now) }
    ensures pieces { PutsInPieces E.written E.faults E.puts err.old err.new
        (proof_parts line.now column.now code.now text.now words.now number.now) proof_pieces }
    ensures never_falls { E.faults err.old ≤ E.faults err.new }
{
    put_text(
        err,
        &[
            b"proof:", line, b":", column, b": ", code, b" ", text, words, number, b"\n",
        ],
    );
}
