//! Rows of texts, and lists of numbers.
//!
//! What a function owns is dropped at each of its ways out, and each drop is proved. So a function of these tests owns
//! little and hands it on by reference, and where memory is wanting, it ends the test at once.
use std::process::Abort;

/// What a line of a row says after this beginning; nothing where no line begins so.
pub(crate) fn field<'a>(row: &'a str, beginning: &str) -> &'a str {
    for line in row.lines() {
        if let Some(rest) = line.strip_prefix(beginning) {
            return rest;
        }
    }
    ""
}

/// The number that a word spells, and 0 for another word.
pub(crate) fn number(word: &str) -> u32 {
    word.parse::<u32>().unwrap_or(0)
}

/// The numbers of a text.
pub(crate) fn numbers(rt: &(impl Abort + AllocGlobal), text: &str) -> Vec<u32> {
    let mut found = Vec::new(rt.alloc());
    for word in text.split_whitespace() {
        found.push(number(word)).expect(rt, "memory");
    }
    found
}
