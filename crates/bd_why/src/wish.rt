//! Which of the values behind a wrong value may be wrong themselves, and what they would be if they weren't.
//!
//! A wrong value that is copied was wrong before. Where it's the result of a function that the other side applies too,
//! those arguments may be wrong that differ from the other side's. Where it was read, the address may be wrong: the
//! other side has the right word at another one.

use crate::decided::value_path;
use bd_model::Scalar;
use bd_slice::{Finding, Reason, Reasons, Subject};
use std::alloc::{AllocError, Global};

/// A value that may be wrong, and the word that it would be if it weren't, where the other side tells.
#[derive(Clone, Copy)]
pub struct Wish {
    pub subject: Subject,
    pub word: Option<u64>,
}

/// A part of an item's expression that may be wrong: the way down to it, and the word that it should have.
#[derive(Drop)]
struct Part {
    path: Vec<u64>,
    word: Option<u64>,
}

/// The parts of an item that may be wrong and aren't looked at yet, and the values found so far.
#[derive(Drop)]
struct WishSearch<'a> {
    alloc: Global,
    reason: &'a Reason,
    other: &'a Reasons,
    parts: Vec<Part>,
    wishes: Vec<Wish>,
}

/// The values behind a wrong word that may be wrong themselves. `word` is what it should be, where that is known, and
/// `other` are the reasons of the other side.
pub fn wishes_of(
    alloc: Global,
    reason: &Reason,
    word: Option<u64>,
    other: &Reasons,
) -> Result<Vec<Wish>, AllocError> {
    let mut search = WishSearch {
        alloc,
        reason,
        other,
        parts: Vec::new(alloc),
        wishes: Vec::new(alloc),
    };
    if matches!(reason.value, Scalar::Word(_)) {
        search.writes()?;
        search.add(Vec::new(alloc), word)?;
        search.run()?;
    }
    let WishSearch { wishes, .. } = search;
    Ok(wishes)
}

impl WishSearch<'_> {
    /// Adds a part that may be wrong.
    fn add(&mut self, path: Vec<u64>, word: Option<u64>) -> Result<(), AllocError> {
        self.parts.push(Part { path, word })?;
        Ok(())
    }

    /// Adds the part of this number of the part at the end of a way down.
    fn add_below(&mut self, path: &[u64], part: u64, word: Option<u64>) -> Result<(), AllocError> {
        let mut below = Vec::from_slice(self.alloc, path)?;
        below.push(part)?;
        self.add(below, word)
    }

    /// Adds the addresses of writes: of one that the other side makes at another address, and of one that passes the
    /// address at which the other side writes.
    fn writes(&mut self) -> Result<(), AllocError> {
        let reason = self.reason;
        for fact in &reason.facts {
            let wanted = match fact.finding {
                Finding::Met(address) => passing(self.other, address),
                Finding::Passed(address, _) if meets(self.other, address) => Some(address),
                _ => None,
            };
            if wanted.is_some() {
                self.add_below(fact.path.as_slice(), 1, wanted)?;
            }
        }
        Ok(())
    }

    /// Looks at parts until none is left.
    fn run(&mut self) -> Result<(), AllocError> {
        for _part in 0..usize::MAX {
            let Some(Part { path, word }) = self.parts.pop() else {
                return Ok(());
            };
            let end = value_path(self.alloc, self.reason, path.as_slice())?;
            self.part(end.as_slice(), word)?;
        }
        Ok(())
    }

    /// Looks at the part at the end of a way down: an application, a name, or a read.
    fn part(&mut self, path: &[u64], word: Option<u64>) -> Result<(), AllocError> {
        if let Some((symbol, ours, value)) = applied_at(self.reason, path) {
            return self.arguments(path, symbol, ours, value, word);
        }
        match rests_at(self.reason, path) {
            Some(subject) => {
                self.wishes.push(Wish { subject, word })?;
                Ok(())
            }
            None => self.read(path, word),
        }
    }

    /// Adds the arguments of an application that differ from the other side's.
    fn arguments(
        &mut self,
        path: &[u64],
        symbol: u32,
        ours: &[u64],
        value: Scalar,
        word: Option<u64>,
    ) -> Result<(), AllocError> {
        let Some(theirs) = nearest(self.other, symbol, ours, value, word) else {
            return Ok(());
        };
        let mut part = 0u64;
        for (our, their) in ours.iter().zip(theirs) {
            if our != their {
                self.add_below(path, part, Some(*their))?;
            }
            part = part.saturating_add(1);
        }
        Ok(())
    }

    /// Adds the word that is read, and the address where the other side has the right word at another one.
    fn read(&mut self, path: &[u64], word: Option<u64>) -> Result<(), AllocError> {
        let mut memory = Vec::from_slice(self.alloc, path)?;
        memory.push(0)?;
        let end = value_path(self.alloc, self.reason, memory.as_slice())?;
        if end.len() == memory.len() && rests_at(self.reason, end.as_slice()).is_none() {
            return Ok(());
        }
        let address = read_address(self.reason, end.as_slice());
        if let (Some(address), Some(word)) = (address, word) {
            if let Some(wanted) = other_address(self.other, address, word) {
                self.add_below(path, 1, Some(wanted))?;
            }
        }
        self.add(end, word)
    }
}

/// The name at the end of a way down.
fn rests_at(reason: &Reason, path: &[u64]) -> Option<Subject> {
    let mut facts = reason.facts.iter();
    facts.find_map(|fact| match fact.finding {
        Finding::Rests(subject, _) if fact.path.as_slice() == path => Some(subject),
        _ => None,
    })
}

/// The application that stands at the end of a way down: its symbol, its arguments and its value.
fn applied_at<'a>(reason: &'a Reason, path: &[u64]) -> Option<(u32, &'a [u64], Scalar)> {
    let mut facts = reason.facts.iter();
    facts.find_map(|fact| match &fact.finding {
        Finding::Applied(symbol, arguments, value) if fact.path.as_slice() == path => {
            Some((*symbol, arguments.as_slice(), *value))
        }
        _ => None,
    })
}

/// The address of the word of a memory at the end of a way down.
fn read_address(reason: &Reason, path: &[u64]) -> Option<u64> {
    match rests_at(reason, path)? {
        Subject::Cell(_, _, address) | Subject::LetCell(_, _, address) => Some(address),
        _ => None,
    }
}

/// Another address than this one at which the other side has a word in a memory.
fn other_address(other: &Reasons, ours: u64, word: u64) -> Option<u64> {
    let mut reasons = other.as_slice().iter();
    reasons.find_map(|reason| match reason.subject {
        Subject::Cell(_, _, address) if address != ours && reason.value == Scalar::Word(word) => {
            Some(address)
        }
        _ => None,
    })
}

/// Where the other side writes, if that isn't this address.
fn passing(other: &Reasons, address: u64) -> Option<u64> {
    for reason in other.as_slice() {
        for fact in &reason.facts {
            match fact.finding {
                Finding::Passed(passed, written) if passed == address => return Some(written),
                _ => {}
            }
        }
    }
    None
}

/// Whether the other side writes at an address.
fn meets(other: &Reasons, address: u64) -> bool {
    let mut reasons = other.as_slice().iter();
    reasons.any(|reason| writes_at(reason, address))
}

/// Whether a value is of a write at an address.
fn writes_at(reason: &Reason, address: u64) -> bool {
    let mut facts = reason.facts.iter();
    facts.any(|fact| matches!(fact.finding, Finding::Met(met) if met == address))
}

/// The arguments of the application of a symbol on the other side that gives the word that is wanted, else of one that
/// gives another value than ours; of several those that have most in common with ours.
fn nearest<'a>(
    other: &'a Reasons,
    symbol: u32,
    ours: &[u64],
    value: Scalar,
    word: Option<u64>,
) -> Option<&'a [u64]> {
    let mut nearest = None;
    let mut best = 0usize;
    for reason in other.as_slice() {
        for fact in &reason.facts {
            match &fact.finding {
                Finding::Applied(its, theirs, result) if *its == symbol && *result != value => {
                    let rank = likeness(ours, theirs.as_slice(), *result, word);
                    if rank > best {
                        best = rank;
                        nearest = Some(theirs.as_slice());
                    }
                }
                _ => {}
            }
        }
    }
    nearest
}

/// How much speaks for an application: that its value is the one that is wanted, and then how many arguments are ours.
fn likeness(ours: &[u64], theirs: &[u64], found: Scalar, word: Option<u64>) -> usize {
    let pairs = ours.iter().zip(theirs);
    let same = pairs.filter(|(our, their)| our == their).count();
    let is_wanted = word.is_some_and(|word| found == Scalar::Word(word));
    let wanted = if is_wanted { WANTED } else { 0 };
    same.saturating_add(wanted).saturating_add(1)
}

/// More than a function has arguments.
const WANTED: usize = 1_000_000;
