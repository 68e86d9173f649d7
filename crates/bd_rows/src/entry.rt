//! What the lines of a row say.

use std::alloc::Global;

/// What a line of a row is for.
#[derive(Clone, Copy, PartialEq, Eq)]
pub enum Key {
    /// The words of the first run.
    Run,
    /// The words of a further run, over the files as the one before left them.
    Then,
    /// A file and its text.
    File,
    /// A file that is a copy of one in the folder of data.
    Copy,
    /// The number of a call on the files that fails.
    Fail,
    /// The row once more, with these words after those of its first run.
    Again,
    /// The row once more for each call on the files that can fail, and for each length of what a failing output keeps.
    Failing,
    /// The row once more for each shorter text of a file, which is refused.
    Cut,
    /// The row once more for each byte of a file, which isn't allowed in its place.
    Spoil,
    /// The row once more with a file that is a byte too long.
    Long,
    /// The status that the run ends with.
    Status,
    /// All of its output.
    Out,
    /// What its output begins with.
    Starts,
    /// What its output has somewhere.
    Has,
    /// All of its error output.
    Err,
    /// In how many puts the error output comes.
    Puts,
    /// A file that gets the output.
    Keep,
    /// The calls on the files, a line each.
    Calls,
    /// A file that is saved, and its text.
    Saved,
    /// A file that is saved, whatever its text.
    Saves,
    /// A file that isn't there after the run.
    Absent,
    /// Two files that have the same text after the run.
    Same,
}

const KEYS: [(&str, Key); 22] = [
    ("run", Key::Run),
    ("then", Key::Then),
    ("file", Key::File),
    ("copy", Key::Copy),
    ("fail", Key::Fail),
    ("again", Key::Again),
    ("failing", Key::Failing),
    ("cut", Key::Cut),
    ("spoil", Key::Spoil),
    ("long", Key::Long),
    ("status", Key::Status),
    ("out", Key::Out),
    ("starts", Key::Starts),
    ("has", Key::Has),
    ("err", Key::Err),
    ("puts", Key::Puts),
    ("keep", Key::Keep),
    ("calls", Key::Calls),
    ("saved", Key::Saved),
    ("saves", Key::Saves),
    ("absent", Key::Absent),
    ("same", Key::Same),
];

impl Key {
    /// The key that a word is.
    pub fn from_word(word: &str) -> Option<Key> {
        for (text, key) in &KEYS {
            if *text == word {
                return Some(*key);
            }
        }
        None
    }

    /// Whether a file's name follows it.
    pub fn has_name(self) -> bool {
        matches!(
            self,
            Key::File
                | Key::Copy
                | Key::Cut
                | Key::Spoil
                | Key::Long
                | Key::Keep
                | Key::Saved
                | Key::Saves
                | Key::Absent
                | Key::Same
        )
    }

    /// Whether a number follows it.
    pub fn has_number(self) -> bool {
        matches!(self, Key::Fail | Key::Status | Key::Puts)
    }

    /// Whether it may stand among what several rows are given.
    pub fn is_given(self) -> bool {
        matches!(self, Key::Run | Key::File | Key::Copy | Key::Again)
    }
}

/// A line of a row, with the lines of text below it.
#[derive(Drop)]
pub struct RowLine<'a> {
    /// The number of the line in its file, from 1.
    pub line: usize,
    pub key: Key,
    /// The number of the run that it speaks of: 0 for the first.
    pub step: usize,
    /// The name of the file that it speaks of.
    pub name: &'a str,
    /// The rest of the line as it stands.
    pub rest: &'a str,
    pub number: u64,
    /// The rest of the line and the lines of text below it, as the bytes that they stand for.
    pub text: Vec<u8>,
}

/// A row, and what it and others are given.
#[derive(Drop)]
pub struct TestRow<'a> {
    pub name: &'a str,
    /// The number of its first line.
    pub line: usize,
    /// How many further runs it has.
    pub steps: usize,
    pub own: Vec<RowLine<'a>>,
    pub given: Vec<RowLine<'a>>,
}

impl<'a> TestRow<'a> {
    /// No row yet.
    pub fn new(alloc: Global) -> TestRow<'a> {
        TestRow {
            name: "",
            line: 0,
            steps: 0,
            own: Vec::new(alloc),
            given: Vec::new(alloc),
        }
    }

    /// Whether a row has begun.
    pub fn is_begun(&self) -> bool {
        self.line != 0
    }

    /// Begins a row, with what was given before.
    pub fn begin(&mut self, name: &'a str, line: usize) {
        self.name = name;
        self.line = line;
        self.steps = 0;
        self.own.clear();
    }

    /// Begins what the rows after it are given.
    pub fn begin_given(&mut self) {
        self.begin("", 0);
        self.given.clear();
    }

    /// The entry of the row, or of what it is given, whose text goes on.
    pub fn last(&mut self) -> Option<&mut RowLine<'a>> {
        if self.line == 0 {
            self.given.last_mut()
        } else {
            self.own.last_mut()
        }
    }

    /// The words of the first run: the row's own, or those that it is given.
    pub fn words(&self) -> Option<&'a str> {
        first_words(self.own.as_slice()).or(first_words(self.given.as_slice()))
    }

    /// The number of the call on the files that fails, or 0.
    pub fn failing(&self) -> u64 {
        for entry in &self.own {
            if entry.key == Key::Fail {
                return entry.number;
            }
        }
        0
    }

    /// The calls on the files that the first run is to make.
    pub fn calls(&self) -> &[u8] {
        for entry in &self.own {
            if entry.key == Key::Calls && entry.step == 0 {
                return entry.text.as_slice();
            }
        }
        &[]
    }

    /// How many bytes the first run puts on its output, if the row says all of them.
    pub fn out_len(&self) -> Option<usize> {
        for entry in &self.own {
            if entry.key == Key::Out && entry.step == 0 {
                return Some(entry.text.len());
            }
        }
        None
    }

    /// How many bytes the file of that name has.
    pub fn file_len(&self, name: &str) -> usize {
        first_len(self.own.as_slice(), name)
            .or(first_len(self.given.as_slice(), name))
            .unwrap_or(0)
    }
}

/// How many bytes the first file of that name among these has.
fn first_len(entries: &[RowLine<'_>], name: &str) -> Option<usize> {
    for entry in entries {
        if matches!(entry.key, Key::File | Key::Copy) && entry.name == name {
            return Some(entry.text.len());
        }
    }
    None
}

/// The words of the first run.
fn first_words<'a>(entries: &[RowLine<'a>]) -> Option<&'a str> {
    for entry in entries {
        if entry.key == Key::Run {
            return Some(entry.rest);
        }
    }
    None
}
