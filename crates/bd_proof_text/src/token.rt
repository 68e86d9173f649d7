//! The tokens of a line, with their places.
ghost use Rattle.std.specs.Prelude.{◌≡◌, ◌≤◌, drop, length, not, if◌then◌else◌, IfSome};
ghost use Rattle.std.specs.Iterator.{YieldsFirst};
ghost use Rattle.std.specs.List.{position_or_len};
ghost use Rattle.bd_proof_text.specs.ProofText.{begins_deletion};
ghost use Rattle.bd_proof_text.specs.Tokens.{is_separator, tokens_from, word_of};
ghost use Rattle.bd_proof_text.specs.inner.Words.{IsCounted};

use crate::number::size_of;
use std::marker::Model;

/// A place in a text. Lines and columns count from 1, columns in bytes.
#[derive(Clone, Copy, PartialEq, Eq)]
pub struct Place {
    pub line: u64,
    pub column: u64,
}

/// What a token says.
#[derive(Clone, Copy)]
pub(crate) enum Word {
    /// `0`.
    Zero,
    /// A number from 1 to 2^64 - 1.
    Positive(u64),
    /// A number from 1 to 2^64 - 1 with a minus sign.
    Negative(u64),
    /// `d`.
    Delete,
    /// Anything else.
    Other,
}

/// A token, and where it begins.
#[derive(Clone, Copy)]
pub(crate) struct Token {
    pub place: Place,
    pub word: Word,
}

/// What a token says.
fn word_of(text: &[u8]) -> Word
    ensures word { result ≡ word_of text.now }
    ensures counted { IsCounted result }
{
    match text.split_first() {
        Some((b'-', digits)) => match size_of(digits) {
            Some(0) | None => Word::Other,
            Some(size) => Word::Negative(size),
        },
        Some((b'd', rest)) => if rest.is_empty() {
            Word::Delete
        } else {
            Word::Other
        },
        Some(_) => match size_of(text) {
            Some(0) => Word::Zero,
            Some(size) => Word::Positive(size),
            None => Word::Other,
        },
        None => Word::Other,
    }
}

/// Whether a byte parts tokens.
pub(crate) fn is_separator(byte: u8) -> bool
    ensures { result ≡ is_separator byte }
{
    matches!(byte, b' ' | b'\t' | b'\r')
}

/// How many separators come first.
fn blank_len(text: &[u8]) -> usize
    ensures first { result ≡ position_or_len (λ b. not (is_separator b)) text.now }
    ensures within { result ≤ length text.now }
{
    for (at, byte) in text.iter().enumerate() {
        if !is_separator(*byte) {
            return at;
        }
    }
    text.len()
}

/// How many bytes come before a separator.
fn run_len(text: &[u8]) -> usize
    ensures first { result ≡ position_or_len is_separator text.now }
    ensures within { result ≤ length text.now }
{
    for (at, byte) in text.iter().enumerate() {
        if is_separator(*byte) {
            return at;
        }
    }
    text.len()
}

/// What is left of a line.
#[derive(Drop)]
pub(crate) struct Tokens<'a> {
    line: u64,
    /// The column of the first byte that is left.
    column: u64,
    rest: &'a [u8],
}

impl<'a> Model for Tokens<'a> {
    ghost use Rattle.std.specs.Prelude.{List, length, ◌+◌, ◌<◌, ◌^◌};
    ghost use Rattle.bd_proof_text.specs.declared.token.Token.{Token};
    ghost use Rattle.bd_proof_text.specs.Tokens.{tokens_from};

    ghost Value = { List Token };

    ghost view = { λ t. tokens_from t.line t.column t.rest.now };

    ghost invariant = { λ t. t.column + length t.rest.now < 2 ^ 64 };
}

impl<'a> Tokens<'a> {
    /// The tokens of a line.
    pub(crate) fn new(line: u64, text: &'a [u8]) -> Tokens<'a>
        ensures { result ≡ tokens_from line 1 text.now }
    {
        Tokens {
            line,
            column: 1,
            rest: text,
        }
    }

    /// The next token.
    pub(crate) fn next_token(&mut self) -> Option<Token>
        ensures first { YieldsFirst (λ tokens. tokens) self.old result self.new }
        ensures counted { IfSome result (λ token. IsCounted token.word) }
    {
        let begin = blank_len(self.rest);
        let (_, rest) = self.rest.split_at(begin);
        let (text, rest) = rest.split_at(run_len(rest));
        if text.is_empty() {
            return None;
        }
        let place = Place {
            line: self.line,
            column: self.column + begin as u64,
        };
        self.column = place.column + text.len() as u64;
        self.rest = rest;
        Some(Token {
            place,
            word: word_of(text),
        })
    }

    /// Goes over a `d`, where that comes next.
    pub(crate) fn skip_delete(&mut self) -> bool
        ensures answer { result ≡ begins_deletion self.old }
        ensures rest { self.new ≡ (if result then drop 1 self.old else self.old) }
    {
        let mut ahead = Tokens {
            line: self.line,
            column: self.column,
            rest: self.rest,
        };
        match ahead.next_token() {
            Some(
                Token {
                    word: Word::Delete,
                    ..
                },
            ) => {
                *self = ahead;
                true
            }
            _ => false,
        }
    }
}
