//! `check --start`: whether a pipeline is right for so many cycles from a start, and where it isn't, what a trail shows.
ghost use Rattle.std.specs.Prelude.{◌≡◌, ◌≤◌, IfOk};
ghost use Rattle.bd_model.specs.DesignView.{design_view};
ghost use Rattle.bd_model.specs.Lawful.{IsLawful};
ghost use Rattle.bd_model.specs.Limits.{most_cycles};
ghost use Rattle.bd_app.specs.Loading.{bytes_of};
ghost use Rattle.bd_app.specs.Meaning.{files_seen};
ghost use Rattle.bd_app.specs.Texts.{IsTextOf, TrailFitsShort, trail_kind};
ghost use Rattle.bd_bounded.specs.Answer.{HasWorkIn, Says as SaysOfRuns};
ghost use Rattle.bd_syntax.specs.declared.ast.Kind.TheVariants.{Pipeline, Specification};
ghost use Rattle.bd_show.specs.LetNames.{IsMachineText};
ghost use Rattle.bd_show.specs.Meaning.{IsRunShown, Question, Says, run_finding};
ghost use Rattle.bd_show.specs.inner.Answered.{HasFewCycles, IsBreakingRun, IsDoneOn, IsOfRun, IsRunText, IsTrailKept, IsTrailSaved, bounded_of};
ghost use Rattle.bd_show.specs.inner.Loaded.{AreFew, texts_view};

use crate::answer::{Answer, Ended};
use crate::fault::{refused_start, unloaded};
use crate::load::{FileNames, Texts, load_texts};
use crate::next::push_next;
use crate::read::started;
use crate::show::{Showing, saved, unseen};
use crate::trail::{broken_text, unstarted};
use bd_about::Finding;
use bd_app::bounded_report;
use bd_bounded::{Bounded, bounded_by};
use bd_case::trail_text;
use bd_cdcl::Cdcl;
use bd_files::Files;
use bd_model::{Condition, Design, Trail};
use bd_verify::Mode;
use std::alloc::{AllocError, Global};

/// Its options: the files, with a start in the place of an invariant; how many cycles, how equations become edges, how
/// many clauses the solver may add, and where the trail is saved.
#[derive(Clone, Copy)]
pub struct BoundedOptions<'a> {
    pub names: FileNames<'a>,
    pub cycles: u32,
    pub mode: Mode,
    pub budget: u32,
    pub trail: Option<&'a str>,
}

/// What a design is found to be over so many cycles.
fn decide(
    alloc: Global,
    design: &Design,
    options: BoundedOptions<'_>,
) -> Result<Bounded, AllocError>
    requires lawful { IsLawful (design_view design.now) }
    requires few { HasFewCycles options }
    ensures says { IfOk result (SaysOfRuns (design_view design.now) options.entry.cycles) }
    ensures work { IfOk result (HasWorkIn (design_view design.now) options.entry.cycles
        options.entry.mode options.entry.budget) }
{
    let mut solver = Cdcl::new(alloc);
    let BoundedOptions {
        cycles,
        budget,
        mode,
        ..
    } = options;
    bounded_by(alloc, &mut solver, design, cycles, budget, mode)
}

/// What was found, without its trail and its work.
fn finding_of(found: &Bounded) -> Finding
    ensures { result ≡ run_finding found.now }
{
    match found {
        Bounded::Kept(_) => Finding::Right,
        Bounded::Broken(_, _, _) => Finding::Wrong(Condition::Commute),
        Bounded::Undecided(_) => Finding::Undecided,
    }
}

/// What is shown of the trail that breaks, of a design without its start. Another answer has none to show.
fn shown_trail(
    alloc: Global,
    texts: &Texts,
    design: &Design,
    found: &Bounded,
) -> Result<Vec<u8>, AllocError>
    requires lawful { IsLawful (design_view design.now) }
    requires readable { IsMachineText Pipeline (texts_view texts.now).pipe }
    requires spec_readable { IsMachineText Specification (texts_view texts.now).spec }
    requires breaking { IsBreakingRun (design_view design.now) found.now }
    ensures { IfOk result (λ text.
        IsRunShown (design_view design.now) found.now text.items) }
{
    match found {
        Bounded::Broken(cycle, trail, _) => broken_text(alloc, texts, design, trail, *cycle),
        Bounded::Kept(_) | Bounded::Undecided(_) => Ok(Vec::new(alloc)),
    }
}

/// The text of a trail, which reads back as that trail.
fn printed(alloc: Global, design: &Design, trail: &Trail) -> Result<Vec<u8>, AllocError>
    requires lawful { IsLawful (design_view design.now) }
    requires fits { TrailFitsShort (design_view design.now) trail.now }
    ensures { IfOk result (λ text.
        IsTextOf trail_kind (design_view design.now) trail.now text.items) }
{
    trail_text(alloc, design, trail)
}

/// What is saved of an answer: the text of the trail that breaks.
#[tactic(auto, using(crate::proofs::Runs::broken_fits, crate::proofs::Runs::broken_saved))]
fn saved_trail(
    alloc: Global,
    options: BoundedOptions<'_>,
    design: &Design,
    answer: &Bounded,
) -> Result<Option<Vec<u8>>, AllocError>
    requires lawful { IsLawful (design_view design.now) }
    requires few { HasFewCycles options }
    requires says { SaysOfRuns (design_view design.now) options.cycles answer.now }
    ensures { IfOk result (λ text. IsTrailSaved options.entry.cycles (design_view design.now)
        (Ended.Checked (run_finding answer.now)) (bytes_of text)) }
{
    match answer {
        Bounded::Broken(_, trail, _) => Ok(Some(printed(alloc, design, trail)?)),
        Bounded::Kept(_) | Bounded::Undecided(_) => Ok(None),
    }
}

/// What a design is found to be over so many cycles, and the text of the trail that breaks.
#[derive(Drop)]
struct FoundRun {
    answer: Bounded,
    trail: Option<Vec<u8>>,
}

/// What a design is found to be, with the text of its trail.
fn find_run(
    alloc: Global,
    options: BoundedOptions<'_>,
    design: &Design,
) -> Result<FoundRun, AllocError>
    requires lawful { IsLawful (design_view design.now) }
    requires few { HasFewCycles options }
    ensures says { IfOk result (λ f.
        SaysOfRuns (design_view design.now) options.entry.cycles f.answer) }
    ensures work { IfOk result (λ f. HasWorkIn (design_view design.now) options.entry.cycles
        options.entry.mode options.entry.budget f.answer) }
    ensures trail { IfOk result (λ f. IsTrailSaved options.entry.cycles (design_view design.now)
        (Ended.Checked (run_finding f.answer)) (bytes_of f.trail)) }
{
    let answer = decide(alloc, design, options)?;
    let trail = saved_trail(alloc, options, design, &answer)?;
    Ok(FoundRun { answer, trail })
}

/// The text of an answer, on a design without its start.
fn report(
    alloc: Global,
    options: BoundedOptions<'_>,
    texts: &Texts,
    design: &Design,
    answer: &Bounded,
) -> Result<Vec<u8>, AllocError>
    requires lawful { IsLawful (design_view design.now) }
    requires readable { IsMachineText Pipeline (texts_view texts.now).pipe }
    requires spec_readable { IsMachineText Specification (texts_view texts.now).spec }
    requires breaking { IsBreakingRun (design_view design.now) answer.now }
    ensures { IfOk result (λ text. IsRunText (bounded_of options.entry)
        (design_view design.now) answer.now text.items) }
{
    let shown = shown_trail(alloc, texts, design, answer)?;
    let BoundedOptions { cycles, budget, .. } = options;
    let mut text = bounded_report(alloc, answer, cycles, budget, shown.as_slice())?;
    let found = finding_of(answer);
    push_next(&mut text, "show", options.names, options.trail, found)?;
    Ok(text)
}

/// The answer that was found, on a design without its start, and what is saved of it.
fn answered(
    alloc: Global,
    options: BoundedOptions<'_>,
    texts: &Texts,
    design: &Design,
    found: FoundRun,
) -> Result<Showing, AllocError>
    requires lawful { IsLawful (design_view design.now) }
    requires readable { IsMachineText Pipeline (texts_view texts.now).pipe }
    requires spec_readable { IsMachineText Specification (texts_view texts.now).spec }
    requires breaking { IsBreakingRun (design_view design.now) found.answer }
    ensures ended { IfOk result (λ r.
        r.answer.ended ≡ Ended.Checked (run_finding found.answer)) }
    ensures text { IfOk result (λ r. IsRunText (bounded_of options.entry)
        (design_view design.now) found.answer r.answer.text.items) }
    ensures trail { IfOk result (λ r. r.page ≡ found.trail) }
{
    let FoundRun { answer, trail } = found;
    let text = report(alloc, options, texts, design, &answer)?;
    let ended = Ended::Checked(finding_of(&answer));
    Ok(Showing {
        answer: Answer { ended, text },
        page: trail,
    })
}

/// The answer on a design.
fn on_design(
    alloc: Global,
    options: BoundedOptions<'_>,
    texts: &Texts,
    design: Design,
) -> Result<Showing, AllocError>
    requires lawful { IsLawful (design_view design) }
    requires few { HasFewCycles options }
    requires readable { IsMachineText Pipeline (texts_view texts.now).pipe }
    requires spec_readable { IsMachineText Specification (texts_view texts.now).spec }
    ensures says { IfOk result (λ r. IsOfRun (bounded_of options.entry) (design_view design)
        r.answer.ended r.answer.text.items) }
    ensures saved { IfOk result (λ r. IsTrailSaved options.entry.cycles (design_view design)
        r.answer.ended (bytes_of r.page)) }
{
    match find_run(alloc, options, &design) {
        Ok(found) => {
            let design = unstarted(alloc, design);
            answered(alloc, options, texts, &design, found)
        }
        Err(error) => Err(error),
    }
}

/// The answer on texts.
fn on_texts(
    alloc: Global,
    options: BoundedOptions<'_>,
    texts: &Texts,
) -> Result<Showing, AllocError>
    requires texts { AreFew (texts_view texts.now) }
    requires few { HasFewCycles options }
    ensures says { IfOk result (λ r. Says (Question.bounded (bounded_of options.entry))
        (texts_view texts.now) r.answer.ended r.answer.text.items) }
    ensures saved { IfOk result (λ r. IsTrailKept options.entry.cycles (texts_view texts.now)
        r.answer.ended (bytes_of r.page)) }
{
    match started(alloc, texts) {
        Ok(design) => on_design(alloc, options, texts, design),
        Err(fault) => unseen(refused_start(alloc, options.names, texts, fault)),
    }
}

/// The answer of `check` from a start on the files of these names, with its trail saved where a name is given.
pub fn answer<F: Files>(
    alloc: Global,
    files: &mut F,
    options: BoundedOptions<'_>,
) -> Result<Answer, AllocError>
    requires { HasFewCycles options }
    ensures { IsDoneOn (Question.bounded (bounded_of options.entry))
        (files_seen F.held F.faults F.blame F.calls files.old)
        (files_seen F.held F.faults F.blame F.calls files.new) result }
{
    let texts = match load_texts(files, options.names) {
        Ok(texts) => texts,
        Err(fault) => return unloaded(alloc, options.names, fault),
    };
    let found = on_texts(alloc, options, &texts)?;
    saved(alloc, files, options.trail, found)
}
