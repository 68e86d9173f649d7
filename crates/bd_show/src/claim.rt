//! The line before a case, and what is said where the case shows something else.
ghost use Rattle.std.specs.Prelude.{◌≡◌, ◌++◌, OnOk};
ghost use Rattle.bd_app.specs.Loading.{bytes_of};
ghost use Rattle.bd_show.specs.Claims.{claim_in, claim_note, claim_of, compared_note, completed_note, note_of};

use bd_model::{Condition, Judged};
use std::alloc::AllocError;

/// What the line says: that a condition is broken, or that a completion function gives something else than flushing.
#[derive(Clone, Copy, PartialEq, Eq)]
pub enum Claim {
    Commute,
    Invariant,
    Differ,
}

/// What the line says.
fn claim_of(text: &[u8]) -> Option<Claim>
    ensures { result ≡ claim_of text.now }
{
    if text.starts_with(b"wrong commute") {
        Some(Claim::Commute)
    } else if text.starts_with(b"wrong invariant") {
        Some(Claim::Invariant)
    } else if text.starts_with(b"differ") {
        Some(Claim::Differ)
    } else {
        None
    }
}

/// What the line before a case says, if there is one.
pub fn claim_in(case: &Option<Vec<u8>>) -> Option<Claim>
    ensures { result ≡ claim_in (bytes_of case.now) }
{
    match case {
        Some(text) => claim_of(text.as_slice()),
        None => None,
    }
}

/// What is said of a line that is another than what the case shows.
fn note_of(claim: Claim) -> &'static str
    ensures { result.now ≡ note_of claim }
{
    match claim {
        Claim::Commute => COMMUTE,
        Claim::Invariant => INVARIANT,
        Claim::Differ => DIFFER,
    }
}

const COMMUTE: &str =
    "\nnote: the text says `wrong commute`: was it found with another invariant, or other files?\n";

const INVARIANT: &str =
    "\nnote: the text says `wrong invariant`: was it found with another invariant, or other files?\n";

const DIFFER: &str =
    "\nnote: the text says `differ`: was it found with another invariant, or other files?\n";

const WITHOUT: &str =
    "\nnote: the text says `differ`: --comp COMP shows it beside the completion function\n";

/// What is said of the line beside what a case shows by a completion function.
pub fn completed_note(claim: Option<Claim>, judged: Judged) -> &'static str
    ensures { result.now ≡ completed_note claim judged }
{
    match (claim, judged) {
        (None, _) => "",
        (Some(Claim::Commute), Judged::Broken(Condition::Commute)) => "",
        (Some(Claim::Invariant), Judged::Broken(Condition::Invariant)) => "",
        (Some(claim), _) => note_of(claim),
    }
}

/// What is said of the line beside what a case shows where the pipeline is flushed.
fn claim_note(claim: Option<Claim>, judged: Judged) -> &'static str
    ensures { result.now ≡ claim_note claim judged }
{
    match claim {
        Some(Claim::Differ) => WITHOUT,
        _ => completed_note(claim, judged),
    }
}

/// What is said of `differ` where nothing does.
pub fn compared_note(same: bool) -> &'static str
    ensures { result.now ≡ compared_note same }
{
    if same { note_of(Claim::Differ) } else { "" }
}

/// Puts the note after a text, where the line before a case says otherwise than the case shows.
pub fn push_note(
    out: &mut Vec<u8>,
    case: &Option<Vec<u8>>,
    judged: Judged,
) -> Result<(), AllocError>
    ensures { OnOk result (out.new.items
        ≡ out.old.items ++ claim_note (claim_in (bytes_of case.now)) judged) }
{
    out.extend_from_slice(claim_note(claim_in(case), judged).as_bytes())
}
