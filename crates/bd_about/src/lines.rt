//! What is found, as lines that a designer reads.
ghost use Rattle.std.specs.Prelude.{◌≡◌, ◌++◌, OnOk};
ghost use Rattle.bd_about.specs.Lines.{asked_line, finding_line, finding_lines, finding_words, is_right, less_flushed_line, reset_line, same_verdict};

use crate::asking::{Finding, Findings};
use crate::unread_lines::push_parts;
use bd_model::Condition;
use std::alloc::AllocError;

/// A finding in words.
fn finding_words(found: Finding) -> &'static str
    ensures { result.now ≡ finding_words found }
{
    match found {
        Finding::Right => "right",
        Finding::Wrong(Condition::Commute) => "wrong: commute is broken",
        Finding::Wrong(Condition::Invariant) => "wrong: the invariant is broken",
        Finding::Void => "no state meets the invariant",
        Finding::Undecided => "undecided: the budget is 200000",
    }
}

/// Whether the pipeline was found to be right.
pub fn is_right(found: Finding) -> bool
    ensures { result ≡ is_right found }
{
    matches!(found, Finding::Right)
}

/// Whether two findings are the same verdict. An undecided one is no verdict.
fn same_verdict(one: Finding, other: Finding) -> bool
    ensures { result ≡ same_verdict one other }
{
    match (one, other) {
        (Finding::Right, Finding::Right) | (Finding::Void, Finding::Void) => true,
        (Finding::Wrong(Condition::Commute), Finding::Wrong(Condition::Commute)) => true,
        (Finding::Wrong(Condition::Invariant), Finding::Wrong(Condition::Invariant)) => true,
        _ => false,
    }
}

/// Puts the line of a question after a text: what was found, and what that means besides.
pub fn push_line(
    out: &mut Vec<u8>,
    question: &str,
    found: Finding,
    meaning: &str,
) -> Result<(), AllocError>
    ensures { OnOk result (out.new.items
        ≡ out.old.items ++ finding_line question.now found meaning.now) }
{
    push_parts(out, question, finding_words(found), meaning.as_bytes())
}

/// Puts the line on one flush cycle less after a text, if that was asked.
fn push_less_flushed(
    out: &mut Vec<u8>,
    own: Finding,
    less_flushed: Option<Finding>,
) -> Result<(), AllocError>
    ensures { OnOk result (out.new.items ≡ out.old.items ++ less_flushed_line own less_flushed) }
{
    let Some(found) = less_flushed else {
        return Ok(());
    };
    let meaning = if same_verdict(own, found) {
        ", the same verdict"
    } else {
        ""
    };
    push_line(out, "one flush less   ", found, meaning)
}

/// Puts the line of a question that was asked or not; where the answer is `right`, with what that means.
fn push_asked(
    out: &mut Vec<u8>,
    question: &str,
    found: Option<Finding>,
    meaning: &str,
) -> Result<(), AllocError>
    ensures { OnOk result (out.new.items
        ≡ out.old.items ++ asked_line question.now found meaning.now) }
{
    let Some(found) = found else {
        return Ok(());
    };
    let meaning = if is_right(found) { meaning } else { "" };
    push_line(out, question, found, meaning)
}

/// Puts the line on whether reset meets the invariant after a text, if one is given.
fn push_reset(out: &mut Vec<u8>, reset: Option<bool>) -> Result<(), AllocError>
    ensures { OnOk result (out.new.items ≡ out.old.items ++ reset_line reset) }
{
    let Some(meets) = reset else {
        return Ok(());
    };
    let verb = if meets { "meets" } else { "doesn't meet" };
    let what = b" the invariant, where functions give 0 and predicates false";
    push_parts(out, "reset (all 0)    ", verb, what)
}

/// Puts the lines of what is found after a text.
pub fn push_findings(out: &mut Vec<u8>, findings: &Findings) -> Result<(), AllocError>
    ensures { OnOk result (out.new.items ≡ out.old.items ++ finding_lines findings.now) }
{
    push_line(out, "as it is         ", findings.own, "")?;
    push_less_flushed(out, findings.own, findings.less_flushed)?;
    let meaning = ", so the flush is too short";
    push_asked(out, "one flush more   ", findings.more_flushed, meaning)?;
    let meaning = ", so the steps are too few";
    push_asked(out, "one step more    ", findings.more_steps, meaning)?;
    let meaning = ", so the invariant can be left out";
    push_asked(
        out,
        "no invariant     ",
        findings.without_invariant,
        meaning,
    )?;
    push_reset(out, findings.reset)?;
    let meaning = ", so this pipeline may never fetch";
    push_asked(out, "(exact 0 true)   ", findings.without_steps, meaning)
}
