//! The run on the words and the files that are handed in.
ghost use Rattle.std.specs.Prelude.{◌≡◌, Some};
ghost use Rattle.bd_app.specs.Meaning.{files_seen};
ghost use Rattle.bd_app.specs.Program.{sink_seen};
ghost use Rattle.bd_app.specs.Words.{texts_of};
ghost use Rattle.bd_web.specs.Ran.{Ends, EndsCompanion, EndsProgram, asks_companion};

use bd_files::{Files, Sink};
use std::alloc::Global;

/// Whether the first word names the companion.
fn asks_companion(words: &[String]) -> bool
    ensures { result ≡ asks_companion (texts_of words.now) }
{
    match words.split_first() {
        Some((word, _)) => word.as_str() == "bd_view",
        None => false,
    }
}

/// The status of a run of the program.
fn run_program<F: Files, O: Sink, E: Sink>(
    alloc: Global,
    words: &[String],
    files: &mut F,
    out: &mut O,
    err: &mut E,
) -> u8
    ensures { EndsProgram (texts_of words.now) result
        (files_seen F.held F.faults F.blame F.calls files.old)
        (files_seen F.held F.faults F.blame F.calls files.new)
        (sink_seen O.written O.faults O.puts out.old) (sink_seen O.written O.faults O.puts out.new)
        (sink_seen E.written E.faults E.puts err.old)
        (sink_seen E.written E.faults E.puts err.new) }
{
    bd_app::run(alloc, words, files, out, err).status()
}

/// The status of a run of the companion.
fn run_companion<F: Files, O: Sink, E: Sink>(
    alloc: Global,
    words: &[String],
    files: &mut F,
    out: &mut O,
    err: &mut E,
) -> u8
    ensures { EndsCompanion (texts_of words.now) result
        (files_seen F.held F.faults F.blame F.calls files.old)
        (files_seen F.held F.faults F.blame F.calls files.new)
        (sink_seen O.written O.faults O.puts out.old) (sink_seen O.written O.faults O.puts out.new)
        (sink_seen E.written E.faults E.puts err.old)
        (sink_seen E.written E.faults E.puts err.new) }
{
    bd_show::run(alloc, words, files, out, err).status()
}

/// The status of a run of the program, or of the companion where the words name it.
pub fn run<F: Files, O: Sink, E: Sink>(
    alloc: Global,
    words: &[String],
    files: &mut F,
    out: &mut O,
    err: &mut E,
) -> u8
    ensures { Ends (texts_of words.now) result
        (files_seen F.held F.faults F.blame F.calls files.old)
        (files_seen F.held F.faults F.blame F.calls files.new)
        (sink_seen O.written O.faults O.puts out.old) (sink_seen O.written O.faults O.puts out.new)
        (sink_seen E.written E.faults E.puts err.old)
        (sink_seen E.written E.faults E.puts err.new) }
{
    if asks_companion(words) {
        run_companion(alloc, words, files, out, err)
    } else {
        run_program(alloc, words, files, out, err)
    }
}
