//! The companion program: real files, standard output and standard error for the one call that does its work.
//!
//! What is proved ends at `program`: whatever the files and the two streams are, the exit status is that of the answer,
//! and the answer's clauses hold of these very objects. `main` makes the real ones, and calls it once.
#![tactic(auto)]

ghost use Rattle.std.specs.Prelude.{◌≡◌, [], codes, IfOk, IsErrOf};
ghost use Rattle.std.specs.Process.{exit_status};
ghost use Rattle.bd_files.specs.Devices.{Counts, PutsOrFaults};
ghost use Rattle.bd_app.specs.Meaning.{files_seen};
ghost use Rattle.bd_app.specs.Program.{sink_seen};
ghost use Rattle.bd_app.specs.Words.{texts_of};
ghost use Rattle.bd_show.specs.Answer.{status_of};
ghost use Rattle.bd_view.specs.Program.{EndsWith};

use bd_files::{Files, Sink};
use bd_host::{RealFiles, Stream, WordsError, command_line};
use bd_show::{Ended, put_ignoring_fault, run};
use std::alloc::Global;
use std::process::ExitCode;

/// The status of an answer, as the system takes it.
fn exit_code(ended: Ended) -> ExitCode
    ensures { exit_status result ≡ status_of ended }
{
    ExitCode::from(ended.status())
}

/// The program on any files and sinks. `words` are the command line, unless one of them isn't text or memory ran out.
/// Words that aren't text aren't taken, as no words are.
fn program<F: Files, O: Sink, E: Sink>(
    alloc: Global,
    words: Result<Vec<String>, WordsError>,
    files: &mut F,
    out: &mut O,
    err: &mut E,
) -> ExitCode
    ensures run { IfOk words (λ words. EndsWith (texts_of words.items) (exit_status result)
        (files_seen F.held F.faults F.blame F.calls files.old)
        (files_seen F.held F.faults F.blame F.calls files.new)
        (sink_seen O.written O.faults O.puts out.old) (sink_seen O.written O.faults O.puts out.new)
        (sink_seen E.written E.faults E.puts err.old)
        (sink_seen E.written E.faults E.puts err.new)) }

    ensures not_text { IsErrOf words WordsError.NotText → EndsWith [] (exit_status result)
        (files_seen F.held F.faults F.blame F.calls files.old)
        (files_seen F.held F.faults F.blame F.calls files.new)
        (sink_seen O.written O.faults O.puts out.old) (sink_seen O.written O.faults O.puts out.new)
        (sink_seen E.written E.faults E.puts err.old)
        (sink_seen E.written E.faults E.puts err.new) }

    // Where there is no memory for the words, only the line of that is put.
    ensures no_words { IsErrOf words WordsError.Memory →
        exit_status result ≡ status_of Ended.Memory }
    ensures no_words_line { IsErrOf words WordsError.Memory →
        PutsOrFaults E.written E.faults err.old err.new (codes "out of memory\n") }
    ensures no_words_once { IsErrOf words WordsError.Memory →
        Counts (E.puts err.old) (E.puts err.new) 1 }
    ensures no_words_files { IsErrOf words WordsError.Memory → files.new ≡ files.old }
    ensures no_words_out { IsErrOf words WordsError.Memory → out.new ≡ out.old }
{
    match words {
        Ok(words) => exit_code(run(alloc, words.as_slice(), files, out, err)),
        Err(WordsError::NotText) => exit_code(run(alloc, &[], files, out, err)),
        Err(WordsError::Memory) => {
            put_ignoring_fault(err, b"out of memory\n");
            exit_code(Ended::Memory)
        }
    }
}

/// The companion on the host's command line, files, standard output and standard error.
fn main(rt: HostRuntime) -> ExitCode {
    program(
        rt.alloc(),
        command_line(rt.alloc(), &rt),
        &mut RealFiles::new(rt.alloc(), &rt),
        &mut Stream::new(rt.stdout()),
        &mut Stream::new(rt.stderr()),
    )
}
