//! The lines of a text.
ghost use Rattle.std.specs.Prelude.{◌≡◌, ◌≤◌, length, option_copied};
ghost use Rattle.std.specs.Iterator.{YieldsFirstRef};
ghost use Rattle.std.specs.List.{position_or_len};
ghost use Rattle.bd_proof_text.specs.Tokens.{is_feed, is_passed, lines};
ghost use Rattle.bd_proof_text.specs.inner.Words.{after_feed, lines_left};

use crate::token::is_separator;
use std::marker::Model;

/// The lines that are left.
#[derive(Drop)]
pub(crate) struct Lines<'a> {
    rest: Option<&'a [u8]>,
}

impl<'a> Model for Lines<'a> {
    ghost use Rattle.std.specs.Prelude.{List, ℕ, option_copied};
    ghost use Rattle.bd_proof_text.specs.inner.Words.{lines_left};

    ghost Value = { List (List ℕ) };

    ghost view = { λ l. lines_left (option_copied l.rest) };
}

impl<'a> Lines<'a> {
    /// The lines of a text.
    pub(crate) fn new(bytes: &'a [u8]) -> Lines<'a>
        ensures { result ≡ lines bytes.now }
    {
        Lines { rest: Some(bytes) }
    }

    /// The next line, without its line feed.
    pub(crate) fn next_line(&mut self) -> Option<&'a [u8]>
        ensures { YieldsFirstRef (λ lines. lines) self.old result self.new }
    {
        let bytes = self.rest?;
        let (line, rest) = bytes.split_at(line_len(bytes));
        self.rest = after_feed(rest);
        Some(line)
    }
}

/// How many bytes come before a line feed.
fn line_len(bytes: &[u8]) -> usize
    ensures first { result ≡ position_or_len is_feed bytes.now }
    ensures within { result ≤ length bytes.now }
{
    for (at, byte) in bytes.iter().enumerate() {
        if *byte == b'\n' {
            return at;
        }
    }
    bytes.len()
}

/// What comes after a line feed, if one comes first.
fn after_feed(bytes: &[u8]) -> Option<&[u8]>
    ensures { lines_left (option_copied result) ≡ after_feed bytes.now }
{
    let (_, rest) = bytes.split_first()?;
    Some(rest)
}

/// Whether a line has no token, or begins a comment.
pub(crate) fn is_passed(line: &[u8]) -> bool
    ensures { result ≡ is_passed line.now }
{
    for byte in line {
        if !is_separator(*byte) {
            return *byte == b'c';
        }
    }
    true
}
