//! `show` with a completion function (Hosabettu, Srivas and Gopalakrishnan 1998): what a case shows by it, in place of
//! flushing; and where the line before the case says `differ`, what both give in the case's state.
ghost use Rattle.std.specs.Prelude.{◌≡◌, ◌++◌, ℕ, List, Some, Ok, true, is_some, IfOk, IsTrue, MatchOption};
ghost use Rattle.bd_model.specs.Abstraction.{IsLawfulAbstraction, abstraction_of};
ghost use Rattle.bd_app.specs.Loading.{bytes_of};
ghost use Rattle.bd_diagram.specs.Diagrams.{IsDiagramBy};
ghost use Rattle.bd_model.specs.Conditions.{JudgedBy, MeetsInvariant};
ghost use Rattle.bd_model.specs.DesignView.{design_view};
ghost use Rattle.bd_model.specs.Lawful.{IsLawful};
ghost use Rattle.bd_picture.specs.Page.{IsPage};
ghost use Rattle.bd_picture.specs.Seen.{IsSeen};
ghost use Rattle.bd_picture.specs.Sentence.{outcome_sentence};
ghost use Rattle.bd_syntax.specs.declared.ast.Kind.TheVariants.{Pipeline};
ghost use Rattle.bd_typer.specs.Joined.{joined_view};
ghost use Rattle.bd_show.specs.Claims.{claim_in};
ghost use Rattle.bd_show.specs.Files.{AreJoined};
ghost use Rattle.bd_show.specs.LetNames.{IsMachineText};
ghost use Rattle.bd_show.specs.declared.claim.Claim.TheVariants.{Differ};
ghost use Rattle.bd_show.specs.inner.Answered.{HasAnswer, HasDrawn, IsOfJoined};
ghost use Rattle.bd_show.specs.inner.Loaded.{AreFew, texts_view};

use crate::answer::{Answer, Ended};
use crate::claim::{Claim, claim_in, compared_note, completed_note};
use crate::claim_names::claim_names;
use crate::fault::refused_joined;
use crate::load::Texts;
use crate::names::machine_lets;
use crate::read::{joined, joined_case};
use crate::show::{ShowOptions, Showing, unseen};
use bd_completion::{judge_by, values_given};
use bd_diagram::{Diagram, contrast_with, diagram_between};
use bd_model::{Abstraction, Case, Design, Judged, State};
use bd_picture::{Outcome, Picture, ShownCase, ShownNames, page_of, picture_of, text_of};
use bd_sim::{flushed, meets_invariant, same, step};
use bd_syntax::Kind;
use bd_typer::Joined;
use std::alloc::{AllocError, Global};

/// The text of a case, with the line before it, and names.
#[derive(Clone, Copy)]
struct Shown<'a> {
    text: &'a Option<Vec<u8>>,
    names: ShownNames<'a>,
}

/// What a state stands for by the completion function.
fn stands_for(
    alloc: Global,
    joined: &Joined,
    case: &Case,
    state: &State,
) -> Result<State, AllocError>
    requires lawful { IsLawful (design_view joined.now.design) }
    requires abstraction { IsLawfulAbstraction (design_view joined.now.design) joined.now.abs }
    ensures { IfOk result (λ visible. visible
        ≡ abstraction_of (design_view joined.now.design) joined.now.abs case.now.interp state.now) }
{
    match &joined.abs {
        Abstraction::Flushing => flushed(alloc, &joined.design, &case.interp, state),
        Abstraction::Given { lets, parts } => {
            values_given(alloc, lets, parts, &case.interp, state)
        }
    }
}

/// The diagram of a case by the completion function.
fn diagram_by(alloc: Global, joined: &Joined, case: &Case) -> Result<Diagram, AllocError>
    requires lawful { IsLawful (design_view joined.now.design) }
    requires abstraction { IsLawfulAbstraction (design_view joined.now.design) joined.now.abs }
    ensures { IfOk result (IsDiagramBy (design_view joined.now.design)
        (abstraction_of (design_view joined.now.design) joined.now.abs) case.now) }
{
    let design = &joined.design;
    let next = step(alloc, design, &case.interp, &case.state, &case.inputs)?;
    let first = stands_for(alloc, joined, case, &case.state)?;
    let stands = stands_for(alloc, joined, case, &next)?;
    diagram_between(alloc, design, case, &first, stands)
}

/// What is printed of an outcome.
fn drawn(
    alloc: Global,
    design: &Design,
    case: &Case,
    outcome: Outcome,
    diagram: &Diagram,
    names: ShownNames<'_>,
) -> Result<Picture, AllocError>
    requires lawful { IsLawful (design_view design.now) }
    requires seen { IsSeen (design_view design.now) case.now outcome diagram.now }
    ensures { IfOk result (λ p.
        p.sentence.items ≡ outcome_sentence (design_view design.now) outcome) }
{
    let view = ShownCase {
        design,
        case,
        outcome,
        diagram,
        names,
        whole: true,
    };
    picture_of(alloc, &view)
}

/// The answer with a picture, and a note after its text.
fn showing(
    alloc: Global,
    ended: Ended,
    picture: &Picture,
    note: &str,
) -> Result<Showing, AllocError>
    ensures ended { IfOk result (λ r. r.answer.ended ≡ ended) }
    ensures text { IfOk result (λ r. (rest : List ℕ) × (r.answer.text.items
        ≡ (picture.now.sentence.items ++ rest) ++ note.now)) }
    ensures page { IfOk result (λ r.
        MatchOption (bytes_of r.page) ⊥ (IsPage picture.now.sentence.items)) }
{
    let mut text = text_of(alloc, picture)?;
    text.extend_from_slice(note.as_bytes())?;
    Ok(Showing {
        answer: Answer { ended, text },
        page: Some(page_of(alloc, picture)?),
    })
}

/// The answer on a case that shows this by the completion function.
fn completed(
    alloc: Global,
    joined: &Joined,
    case: &Case,
    judged: Judged,
    shown: Shown<'_>,
) -> Result<Showing, AllocError>
    requires lawful { IsLawful (design_view joined.now.design) }
    requires abstraction { IsLawfulAbstraction (design_view joined.now.design) joined.now.abs }
    requires judged { JudgedBy (design_view joined.now.design)
        (abstraction_of (design_view joined.now.design) joined.now.abs) case.now judged }
    requires asked { claim_in (bytes_of shown.text.now) ≡ Some Differ → judged ≡ Judged.Outside }
    ensures { IfOk result (λ r. IsOfJoined (bytes_of shown.entry.text.now)
        (design_view joined.now.design)
        (abstraction_of (design_view joined.now.design) joined.now.abs) case.now
        r.answer.ended r.answer.text.items (bytes_of r.page)) }
{
    let outcome = Outcome::Completed(judged);
    let diagram = diagram_by(alloc, joined, case)?;
    let picture = drawn(alloc, &joined.design, case, outcome, &diagram, shown.names)?;
    let note = completed_note(claim_in(shown.text), judged);
    showing(alloc, Ended::Completed(judged), &picture, note)
}

/// The answer on a case in whose state the completion function is compared with flushing.
fn compared(
    alloc: Global,
    joined: &Joined,
    case: &Case,
    shown: Shown<'_>,
) -> Result<Showing, AllocError>
    requires lawful { IsLawful (design_view joined.now.design) }
    requires abstraction { IsLawfulAbstraction (design_view joined.now.design) joined.now.abs }
    requires asked { claim_in (bytes_of shown.text.now) ≡ Some Differ }
    requires inside { MeetsInvariant (design_view joined.now.design)
        case.now.interp case.now.state }
    ensures { IfOk result (λ r. IsOfJoined (bytes_of shown.entry.text.now)
        (design_view joined.now.design)
        (abstraction_of (design_view joined.now.design) joined.now.abs) case.now
        r.answer.ended r.answer.text.items (bytes_of r.page)) }
{
    let design = &joined.design;
    let other = stands_for(alloc, joined, case, &case.state)?;
    let flushed = flushed(alloc, design, &case.interp, &case.state)?;
    let agrees = same(flushed.as_slice(), other.as_slice());
    let outcome = Outcome::Compared(agrees);
    let diagram = contrast_with(alloc, design, case, other)?;
    let picture = drawn(alloc, design, case, outcome, &diagram, shown.names)?;
    showing(
        alloc,
        Ended::Compared(agrees),
        &picture,
        compared_note(agrees),
    )
}

/// Whether the completion function is compared with flushing: the line before the case says `differ`, and the invariant
/// is true in its state.
fn is_compared(
    alloc: Global,
    design: &Design,
    case: &Case,
    text: &Option<Vec<u8>>,
) -> Result<bool, AllocError>
    requires lawful { IsLawful (design_view design.now) }
    ensures asked { IfOk result (λ b. IsTrue b → claim_in (bytes_of text.now) ≡ Some Differ) }
    ensures inside { IfOk result (λ b. IsTrue b
        → MeetsInvariant (design_view design.now) case.now.interp case.now.state) }
    ensures outside { IfOk result (λ b. claim_in (bytes_of text.now) ≡ Some Differ
        → MeetsInvariant (design_view design.now) case.now.interp case.now.state → IsTrue b) }
{
    match claim_in(text) {
        Some(Claim::Differ) => meets_invariant(alloc, design, &case.interp, &case.state),
        _ => Ok(false),
    }
}

/// The answer on a case.
fn on_case(
    alloc: Global,
    joined: &Joined,
    case: &Case,
    shown: Shown<'_>,
) -> Result<Showing, AllocError>
    requires lawful { IsLawful (design_view joined.now.design) }
    requires abstraction { IsLawfulAbstraction (design_view joined.now.design) joined.now.abs }
    ensures { IfOk result (λ r. IsOfJoined (bytes_of shown.entry.text.now)
        (design_view joined.now.design)
        (abstraction_of (design_view joined.now.design) joined.now.abs) case.now
        r.answer.ended r.answer.text.items (bytes_of r.page)) }
{
    if is_compared(alloc, &joined.design, case, shown.text)? {
        compared(alloc, joined, case, shown)
    } else {
        let judged = judge_by(alloc, &joined.design, &joined.abs, case)?;
        completed(alloc, joined, case, judged, shown)
    }
}

/// The answer on texts, of which these are the design and the completion function.
fn on_design(
    alloc: Global,
    options: ShowOptions<'_>,
    texts: &Texts,
    joined: &Joined,
) -> Result<Showing, AllocError>
    requires joined { AreJoined (texts_view texts.now) (Ok (joined_view joined.now)) }
    requires given { is_some (texts_view texts.now).comp ≡ true }
    requires text { is_some (texts_view texts.now).case ≡ true }
    requires lawful { IsLawful (design_view joined.now.design) }
    requires abstraction { IsLawfulAbstraction (design_view joined.now.design) joined.now.abs }
    requires readable { IsMachineText Pipeline (texts_view texts.now).pipe }
    ensures says { IfOk result (HasAnswer options.entry (texts_view texts.now)) }
    ensures drawn { IfOk result (HasDrawn (texts_view texts.now)) }
{
    let lets = machine_lets(alloc, texts.pipe.as_slice(), Kind::Pipeline)?;
    let claims = claim_names(alloc, &texts.inv)?;
    match joined_case(alloc, joined, texts) {
        Ok(case) => {
            let shown = Shown {
                text: &texts.case,
                names: ShownNames {
                    lets: lets.as_slice(),
                    steps: &[],
                    claims: claims.as_slice(),
                },
            };
            on_case(alloc, joined, &case, shown)
        }
        Err(fault) => unseen(refused_joined(alloc, options.names, texts, fault)),
    }
}

/// The answer on texts with a completion function, whose bytes these are.
pub fn on_joined(
    alloc: Global,
    options: ShowOptions<'_>,
    texts: &Texts,
    comp: &[u8],
) -> Result<Showing, AllocError>
    requires few { AreFew (texts_view texts.now) }
    requires comp { (texts_view texts.now).comp ≡ Some comp.now }
    requires text { is_some (texts_view texts.now).case ≡ true }
    ensures says { IfOk result (HasAnswer options.entry (texts_view texts.now)) }
    ensures drawn { IfOk result (HasDrawn (texts_view texts.now)) }
{
    match joined(alloc, texts, comp) {
        Ok(joined) => on_design(alloc, options, texts, &joined),
        Err(fault) => unseen(refused_joined(alloc, options.names, texts, fault)),
    }
}
