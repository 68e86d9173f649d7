//! The program's one call.
//!
//! It has three parts, in this order: the answer, which comes of the words and of what the files
//! gave; its report, for which a failing output puts another answer in its place; and its line.
//! Each part's clauses say what it leaves alone, so that what the first one told of the files still
//! holds at the end. Everything that the program does to the world goes through the three objects
//! that it is given, so the clauses speak of all of it.
ghost use Rattle.std.specs.Prelude.{◌≡◌, ◌≢◌, ◌≤◌, ◌⊎◌, ℕ, Option, Some, None, IfOk, IfErr, IsErrOf};
ghost use Rattle.bd_files.specs.Devices.{Rose, Appends, AppendsPrefix, Counts};
ghost use Rattle.bd_files.specs.Pieces.{PutsInPieces};
ghost use Rattle.bd_model.specs.Fits.{Fits, TrailFits};
ghost use Rattle.bd_goal.specs.Laws.{Differs};
ghost use Rattle.bd_model.specs.Conditions.{IsJudged, JudgedBy, SomeCaseMeetsInvariant};
ghost use Rattle.bd_model.specs.Right.{Agrees, BoundedRight, IsRight, RightBy};
ghost use Rattle.bd_model.specs.TrailJudged.{IsTrailJudged};
ghost use Rattle.bd_verify.specs.declared.verdict.Work.{Work};
ghost use Rattle.bd_app.specs.Answer.{HasReport, fault_line_of};
ghost use Rattle.bd_app.specs.Commands.{Question, meaning_of, taken};
ghost use Rattle.bd_app.specs.Completions.{abstraction_by};
ghost use Rattle.bd_app.specs.Meaning.{files_seen, IsCalled};
ghost use Rattle.bd_app.specs.Pieces.{line_pieces_of};
ghost use Rattle.bd_app.specs.Program.{ForBounded, ForCompletion, ForDesign, IsRun, sink_seen};
ghost use Rattle.bd_app.specs.Words.{texts_of};
ghost use Rattle.bd_app.specs.inner.Asked.{asked, IsInRange};
ghost use Rattle.bd_app.specs.inner.Done.{IsDone};
ghost use Rattle.bd_app.specs.inner.Faults.{ended_by_fault, ended_of};

use crate::answer::{Answer, Ended, Which};
use crate::command::{
    Command, bounded, check, command_of, complete, generate, recheck, replay, retrace,
    run as run_cycles,
};
use crate::fault::Fault;
use bd_bounded::Bounded;
use bd_completion::Complete;
use bd_files::{Files, Sink};
use bd_model::{Case, Condition, Judged, Trail, TrailJudged};
use std::alloc::Global;

/// The answer to the question that the words ask.
fn answered<F: Files>(alloc: Global, files: &mut F, command: Command<'_>) -> Result<Answer, Fault>
    requires { IsInRange command }
    ensures { IsDone (meaning_of (asked command.entry))
        (files_seen F.held F.faults F.blame F.calls files.old)
        (files_seen F.held F.faults F.blame F.calls files.new) result }
{
    match command {
        Command::Check(options) => check::answer(alloc, files, options),
        Command::Replay(options) => replay::answer(alloc, files, options),
        Command::Run(options) => run_cycles::answer(alloc, files, options),
        Command::Gen(options) => generate::answer(alloc, options),
        Command::Recheck(options) => recheck::answer(alloc, files, options),
        Command::Bounded(options) => bounded::answer(alloc, files, options),
        Command::Retrace(options) => retrace::answer(alloc, files, options),
        Command::Complete(options) => complete::answer(alloc, files, options),
    }
}

/// The answer, before anything is printed.
fn answer_of<F: Files>(alloc: Global, words: &[String], files: &mut F) -> Result<Answer, Fault>
    ensures usage_only { ended_of result ≡ Ended.Usage → taken (texts_of words.now) ≡ None }
    ensures usage { taken (texts_of words.now) ≡ None →
        IsErrOf result Fault.Usage ⊎ IsErrOf result Fault.Memory }
    ensures untouched { taken (texts_of words.now) ≡ None → files.new ≡ files.old }
    ensures report { IfOk result (λ a. HasReport a.ended) }
    ensures done { (q : Question) → taken (texts_of words.now) ≡ Some q →
        IsDone (meaning_of q) (files_seen F.held F.faults F.blame F.calls files.old)
        (files_seen F.held F.faults F.blame F.calls files.new) result }
    ensures never_falls { F.faults files.old ≤ F.faults files.new }
{
    let command = command_of(alloc, words)?;
    answered(alloc, files, command)
}

/// Puts the report on the output, if there is one.
fn put_report<O: Sink>(answer: Result<Answer, Fault>, out: &mut O) -> Ended
    ensures fault { IfErr answer (λ fault.
        (result ≡ ended_by_fault fault) × (out.new ≡ out.old)) }
    ensures report { IfOk answer (λ a. ((result ≡ a.ended)
        × Appends (O.written out.old) (O.written out.new) a.report.items)
        ⊎ ((result ≡ Ended.Device Which.Out) × Rose (O.faults out.old) (O.faults out.new)
        × AppendsPrefix (O.written out.old) (O.written out.new) a.report.items)) }
    ensures once { IfOk answer (λ a. Counts (O.puts out.old) (O.puts out.new) 1) }
    ensures never_falls { O.faults out.old ≤ O.faults out.new }
{
    let answer = match answer {
        Ok(answer) => answer,
        Err(fault) => return Ended::from_fault(fault),
    };
    match out.put(answer.report.as_slice()) {
        Ok(()) => answer.ended,
        Err(_) => Ended::Device(Which::Out),
    }
}

/// All that the program does. `words` are the command line, the program's name first. The answer
/// says how the program ends: with an answer to the question that the words ask, which is printed on
/// `out`, or with a fault, whose line is printed on `err`.
pub fn run<F: Files, O: Sink, E: Sink>(
    alloc: Global,
    words: &[String],
    files: &mut F,
    out: &mut O,
    err: &mut E,
) -> Ended
    // The headline: under every interpretation, from every state that meets the invariant, and for
    // every list of inputs.
    ensures correct { (c : Option Case) (work : Work) → result ≡ Ended.Correct c work →
        ForDesign (F.held files.old) (texts_of words.now) IsRight }
    ensures wrong { (k : Condition) (c : Case) (work : Work) → result ≡ Ended.Wrong k c work →
        ForDesign (F.held files.old) (texts_of words.now) (λ d.
        Fits d c × IsJudged d c (Judged.Broken k)) }
    ensures void { (work : Work) → result ≡ Ended.Void work →
        ForDesign (F.held files.old) (texts_of words.now) (λ d. ¬ SomeCaseMeetsInvariant d) }
    ensures proved { (work : Work) → result ≡ Ended.Proved work →
        ForDesign (F.held files.old) (texts_of words.now) IsRight }
    // The same for so many cycles, from each state in which the start is true.
    ensures kept { (work : Work) → result ≡ Ended.Bounded (Bounded.Kept work) →
        ForBounded (F.held files.old) (texts_of words.now) (λ q d. BoundedRight d q.cycles) }
    ensures broken { (cycle : ℕ) (t : Trail) (work : Work) →
        result ≡ Ended.Bounded (Bounded.Broken cycle t work) →
        ForBounded (F.held files.old) (texts_of words.now) (λ q d.
        TrailFits d t × IsTrailJudged d t (TrailJudged.Broken cycle)) }

    // The same where a completion function stands in the place of flushing, and whether it agrees with
    // flushing.
    ensures right_by { (work : Work) → result ≡ Ended.Completed (Complete.Right work) →
        ForCompletion (F.held files.old) (texts_of words.now) (λ q d abs.
        RightBy d (abstraction_by d abs)) }
    ensures wrong_by { (k : Condition) (c : Case) (work : Work) →
        result ≡ Ended.Completed (Complete.Wrong k c work) →
        ForCompletion (F.held files.old) (texts_of words.now) (λ q d abs.
        Fits d c × JudgedBy d (abstraction_by d abs) c (Judged.Broken k)) }
    ensures agrees { (work : Work) → result ≡ Ended.Completed (Complete.Agree work) →
        ForCompletion (F.held files.old) (texts_of words.now) (λ q d abs.
        Agrees d (abstraction_by d abs)) }
    ensures differs { (c : Case) (work : Work) → result ≡ Ended.Completed (Complete.Differ c work) →
        ForCompletion (F.held files.old) (texts_of words.now) (λ q d abs.
        Fits d c × Differs d (abstraction_by d abs) c) }

    // All of it: what each answer means and what causes it, what is saved and what is printed.
    ensures run { IsRun (texts_of words.now) result
        (files_seen F.held F.faults F.blame F.calls files.old)
        (files_seen F.held F.faults F.blame F.calls files.new)
        (sink_seen O.written O.faults O.puts out.old)
        (sink_seen O.written O.faults O.puts out.new)
        (sink_seen E.written E.faults E.puts err.old)
        (sink_seen E.written E.faults E.puts err.new) }

    // The calls: each file is loaded once and each part saved once, in the order of the words, up to
    // the call that a fault comes of; a report is put at once; and the line of a fault is put piece by
    // piece, up to the first put that fails.
    ensures calls { (q : Question) → taken (texts_of words.now) ≡ Some q →
        IsCalled (meaning_of q) (files_seen F.held F.faults F.blame F.calls files.old)
        (files_seen F.held F.faults F.blame F.calls files.new) result }
    ensures one_put { HasReport result ⊎ (result ≡ Ended.Device Which.Out) →
        Counts (O.puts out.old) (O.puts out.new) 1 }
    ensures line_puts { PutsInPieces E.written E.faults E.puts err.old err.new
        (fault_line_of result) (line_pieces_of result) }

    // What is left alone.
    ensures untouched { taken (texts_of words.now) ≡ None → files.new ≡ files.old }
    ensures silent { ¬ HasReport result → result ≢ Ended.Device Which.Out → out.new ≡ out.old }
    ensures no_line { HasReport result → err.new ≡ err.old }
{
    let answer = answer_of(alloc, words, files);
    let ended = put_report(answer, out);
    ended.put_line(err);
    ended
}
