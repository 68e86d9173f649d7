//! The page's call.
ghost use Rattle.std.specs.Prelude.{◌≡◌, ◌≤◌, ◌<◌, ℕ, List, [], None, IfOk, IfErr, IsErrOf};
ghost use Rattle.bd_app.specs.Words.{texts_of};
ghost use Rattle.bd_files.specs.Page.{new_page};
ghost use Rattle.bd_files.specs.Shelf.{File, files_of};
ghost use Rattle.bd_web.specs.Handed.{AreHanded, HasNoText};
ghost use Rattle.bd_web.specs.Ran.{ComesBack, IsCutOff};
ghost use Rattle.bd_web.specs.inner.Laid.{HasCome, IsLaidRun};
ghost use Rattle.bd_web.specs.Statuses.{status_of};

use crate::back::{Parts, back, hand_back};
use crate::fault::Fault;
use crate::folder::Folder;
use crate::handed::{Handed, read_handed};
use crate::program::run;
use bd_files::Page;
use std::alloc::Global;

/// How many bytes the output takes.
const OUT_ROOM: usize = 4_000_000;

/// How many bytes the error output takes.
const ERR_ROOM: usize = 1_000_000;

/// A run's status, and what comes back of it.
#[derive(Drop)]
struct Came {
    status: u8,
    back: Parts,
}

/// An empty output.
fn empty_page(alloc: Global, room: usize) -> Result<Page, Fault>
    ensures empty { IfOk result (λ page. page ≡ new_page room []) }
    ensures fault { IfErr result (λ fault. fault ≡ Fault.Memory) }
{
    Page::new(alloc, room, Vec::new(alloc)).map_err(|_| Fault::Memory)
}

/// The run between these files and outputs.
fn run_between(
    alloc: Global,
    words: &[String],
    folder: &mut Folder,
    out: &mut Page,
    err: &mut Page,
) -> Result<Came, Fault>
    requires out { out.old ≡ new_page OUT_ROOM [] }
    requires err { err.old ≡ new_page ERR_ROOM [] }
    requires folder { folder.old.faults ≡ record { count = 0; blame = None } }
    ensures ran { IfOk result (λ came. IsLaidRun (texts_of words.now) folder.old.files came.status
        came.back.bytes.items came.back.lengths.items) }
    ensures fault { IfErr result (λ fault. fault ≡ Fault.Memory) }
{
    let status = run(alloc, words, folder, out, err);
    match back(alloc, out.written(), err.written(), folder.files()) {
        Ok(back) => Ok(Came { status, back }),
        Err(_) => Err(Fault::Memory),
    }
}

/// The run on what is handed in.
fn run_handed(alloc: Global, handed: Handed) -> Result<Came, Fault>
    ensures ran { IfOk result (λ came. IsLaidRun (texts_of handed.words.items)
        (files_of handed.files.items) came.status came.back.bytes.items came.back.lengths.items) }
    ensures fault { IfErr result (λ fault. fault ≡ Fault.Memory) }
{
    let mut out = empty_page(alloc, OUT_ROOM)?;
    let mut err = empty_page(alloc, ERR_ROOM)?;
    let mut folder = Folder::new(alloc, handed.files);
    run_between(
        alloc,
        handed.words.as_slice(),
        &mut folder,
        &mut out,
        &mut err,
    )
}

/// The run on the words and the files that these bytes are.
fn run_bytes(alloc: Global, bytes: &[u8], lengths: &[usize], words: usize) -> Result<Came, Fault>
    ensures ran { IfOk result (λ came. HasCome bytes.now lengths.now words came.status
        came.back.bytes.items came.back.lengths.items) }
    ensures not_parts { IsErrOf result Fault.NotParts →
        (texts : List (List ℕ)) (files : List File) →
        ¬ AreHanded bytes.now lengths.now words texts files }
    ensures not_text { IsErrOf result Fault.NotText → HasNoText bytes.now lengths.now words }
    ensures no_cut { ¬ IsErrOf result Fault.CutOff }
{
    run_handed(alloc, read_handed(alloc, bytes, lengths, words)?)
}

/// Runs the program, or its companion where the first word is `bd_view`.
///
/// The bytes are parts one after another, whose lengths are given: first so many words, the
/// program's name first, and then files, each as its name and its bytes. What comes back is laid out
/// in the same way: the output, the error output, and the files that stand then, of which the first
/// of a name counts; `back_count` says how many parts there are. The result is the status that the
/// program ends with, or says that there was no run, or that there is no room for what comes back.
#[unsafe(no_mangle)]
pub extern "C" fn bd_web_run(
    alloc: Global,
    bytes: &[u8],
    lengths: &[usize],
    words: usize,
    back: &mut [u8],
    back_lengths: &mut [usize],
    back_count: &mut usize,
) -> u32
    // A run, and what comes back of it.
    ensures ran { result < status_of Fault.NotParts →
        ComesBack bytes.now lengths.now words result back.new back_lengths.new back_count.new }

    // Why none comes back.
    ensures not_parts { result ≡ status_of Fault.NotParts →
        (texts : List (List ℕ)) (files : List File) →
        ¬ AreHanded bytes.now lengths.now words texts files }
    ensures not_text { result ≡ status_of Fault.NotText →
        HasNoText bytes.now lengths.now words }
    ensures cut_off { result ≡ status_of Fault.CutOff →
        IsCutOff bytes.now lengths.now words back.old back_lengths.old }
    ensures known { result ≤ status_of Fault.Memory }
    ensures stands { status_of Fault.NotParts ≤ result → back.new ≡ back.old }
{
    let came = match run_bytes(alloc, bytes, lengths, words) {
        Ok(came) => came,
        Err(fault) => return fault.status(),
    };
    match hand_back(&came.back, back, back_lengths, back_count) {
        Ok(()) => u32::from(came.status),
        Err(fault) => fault.status(),
    }
}
