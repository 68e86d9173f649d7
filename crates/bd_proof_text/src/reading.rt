//! Reading a proof text over a formula.
ghost use Rattle.std.specs.Prelude.{◌≡◌, IfOk, IfErr, OnOk, not};
ghost use Rattle.std.specs.List.{position};
ghost use Rattle.bd_lrat.specs.Database.{IsAccepted, line_answer};
ghost use Rattle.bd_lrat.specs.Log.{IsRefutation};
ghost use Rattle.bd_proof_text.specs.ProofText.{Gives, answered, proof_text, step, tokens_step};
ghost use Rattle.bd_proof_text.specs.Tokens.{is_proof_byte};
ghost use Rattle.bd_proof_text.specs.inner.Steps.{Adds, Refuses, Takes};

use crate::fault::{ReadFault, Why, bad};
use crate::line::read_line;
use crate::lines::{Lines, is_passed};
use crate::token::{Place, Tokens, is_separator};
use bd_cnf::Cnf;
use bd_lrat::{AddError, Checker, Line, Log};
use std::alloc::Global;

/// The lines of the text, up to the first that adds the empty clause, each accepted over the formula and those before
/// it; or the text's first fault. A formula of 2,147,483,648 variables or more ends as out of memory.
pub fn read_proof(alloc: Global, cnf: &Cnf, bytes: &[u8]) -> Result<Log, ReadFault>
    ensures read { Gives (λ log. log) result (proof_text cnf.now bytes.now) }
    ensures refutes { IfOk result (IsRefutation cnf.now) }
{
    let mut reader = Reader {
        alloc,
        checker: Checker::new(alloc, cnf)?,
        log: Log::new(alloc),
    };
    let mut lines = Lines::new(bytes);
    let mut number = 0;
    while let Some(text) = lines.next_line() {
        number += 1;
        let ends = reader.step(number, text)?;
        if ends {
            return Ok(reader.log);
        }
    }
    let end = Place {
        line: number,
        column: 1,
    };
    Err(bad(end, Why::NoEmpty))
}

/// What stands after the lines read so far, and those lines.
#[derive(Drop)]
struct Reader {
    alloc: Global,
    checker: Checker,
    log: Log,
}

impl Reader {
    /// Reads the line of that number, and answers whether it ends the proof.
    fn step(&mut self, number: u64, text: &[u8]) -> Result<bool, ReadFault>
        ensures ok { IfOk result (Takes (step self.old.checker number text.now) self.old self.new) }
        ensures err { IfErr result (Refuses (step self.old.checker number text.now)) }
    {
        if is_passed(text) {
            return Ok(false);
        }
        if let Some(at) = bad_byte(text) {
            let column = at as u64 + 1;
            return Err(bad(
                Place {
                    line: number,
                    column,
                },
                Why::Byte,
            ));
        }
        let mut tokens = Tokens::new(number, text);
        self.take(&mut tokens)
    }

    /// Reads the line of those tokens, and takes it where it is accepted.
    fn take(&mut self, tokens: &mut Tokens<'_>) -> Result<bool, ReadFault>
        ensures ok { IfOk result
            (Takes (tokens_step self.old.checker tokens.old) self.old self.new) }
        ensures err { IfErr result (Refuses (tokens_step self.old.checker tokens.old)) }
    {
        let Some(first) = tokens.next_token() else {
            return Ok(false);
        };
        let line = read_line(self.alloc, first, tokens)?;
        let ends = line.adds_empty();
        self.add(first.place, line)?;
        Ok(ends)
    }

    /// Takes the line where it is accepted.
    fn add(&mut self, first: Place, line: Line) -> Result<(), ReadFault>
        ensures accepted { OnOk result (IsAccepted self.old.checker line) }
        ensures ok { OnOk result (Adds line self.old self.new) }
        ensures err { IfErr result
            (Refuses (answered first line (line_answer self.old.checker line))) }
    {
        match self.checker.add_line(&line) {
            Ok(()) => {}
            Err(AddError::Refused(refused)) => return Err(bad(first, Why::NotAccepted(refused))),
            Err(AddError::Memory) => return Err(ReadFault::Memory),
        }
        self.log.push(line)?;
        Ok(())
    }
}

/// The place of the first byte that may not stand in a line.
fn bad_byte(text: &[u8]) -> Option<usize>
    ensures { result ≡ position (λ b. not (is_proof_byte b)) text.now }
{
    text.iter().position(|byte| !is_proof_byte(*byte))
}

/// Whether a byte may stand in a line.
fn is_proof_byte(byte: u8) -> bool
    ensures { result ≡ is_proof_byte byte }
{
    byte.is_ascii_digit() || byte == b'-' || byte == b'd' || is_separator(byte)
}
