//! A sink over a writer, such as standard output.
//!
//! A writer may take a part of what it is given, and a signal may interrupt it, so a put goes on
//! until the writer has all. A real stream doesn't tell what it holds; over one that does, the
//! clauses say that it grew by exactly the bytes, or by a prefix of them where the put failed.
ghost use Rattle.std.specs.Prelude.{◌≡◌, ◌≤◌, ℕ, None, OnOk, OnErr, IfOk, length, take};
ghost use Rattle.std.specs.Io.KnownBytes.{Appends, Keeps, WriteAppends};
ghost use Rattle.bd_files.specs.Devices.{count_after};

use bd_files::{PutError, Sink};
use std::io;
use std::io::{Error, ErrorKind, Write};

/// A sink that writes to a writer, and counts each put that failed there. It tells nothing of what
/// was written.
#[derive(Debug, Drop)]
pub struct Stream<W> {
    writer: W,
    faults: u64,
}

impl<W: Write> Stream<W> {
    /// The sink, with no fault yet.
    pub fn new(writer: W) -> Stream<W>
        ensures { result ≡ record { writer = writer; faults = 0 } }
    {
        Stream { writer, faults: 0 }
    }

    /// How many puts failed.
    pub fn faults(&self) -> u64
        ensures { result ≡ self.now.faults }
    {
        self.faults
    }
}

impl<W: Write> Sink for Stream<W> {
    ghost written = { λ _. None };

    ghost faults = { λ stream. stream.faults };

    ghost puts = { λ _. None };

    /// Writes the bytes to the writer, and counts a fault where that fails.
    fn put(&mut self, bytes: &[u8]) -> Result<(), PutError>
        ensures whole { OnOk result
            (Appends (W.contents self.old.writer) (W.contents self.new.writer) bytes.now) }
        ensures prefix { OnErr result ((kept : ℕ) ×
            Appends (W.contents self.old.writer) (W.contents self.new.writer)
            (take kept bytes.now)) }
        ensures uncounted { OnOk result (self.new.faults ≡ self.old.faults) }
        ensures counted { OnErr result (self.new.faults ≡ count_after self.old.faults) }
    {
        match write_whole(&mut self.writer, bytes) {
            Ok(()) => Ok(()),
            Err(_) => {
                self.faults = self.faults.saturating_add(1);
                Err(PutError::Failed)
            }
        }
    }
}

/// Writes the bytes one after another, and what the writer holds back after them. It fails at the
/// first call that answers an `Err` other than that a signal interrupted it, and at a write that
/// takes nothing.
pub fn write_whole<W: Write>(writer: &mut W, bytes: &[u8]) -> io::Result<()>
    ensures whole { OnOk result
        (Appends (W.contents writer.old) (W.contents writer.new) bytes.now) }
    ensures prefix { OnErr result ((kept : ℕ) ×
        Appends (W.contents writer.old) (W.contents writer.new) (take kept bytes.now)) }
{
    let mut done = 0;
    while done < bytes.len() {
        match write_some(writer, &bytes[done..]) {
            Ok(0) => return Err(Error::from(ErrorKind::WriteZero)),
            Ok(count) => done += count,
            Err(e) => return Err(e),
        }
    }
    flush_all(writer)
}

/// One write, made again where a signal interrupted it, up to 2^64 - 1 times.
fn write_some<W: Write>(writer: &mut W, bytes: &[u8]) -> io::Result<usize>
    ensures fits { IfOk result (λ count. count ≤ length bytes.now) }
    ensures bytes { WriteAppends (W.contents writer.old) (W.contents writer.new) result bytes.now }
{
    for _ in 0..u64::MAX {
        match writer.write(bytes) {
            Ok(count) => return Ok(count),
            Err(e) if e.kind() == ErrorKind::Interrupted => {}
            Err(e) => return Err(e),
        }
    }
    Err(Error::from(ErrorKind::Interrupted))
}

/// One flush, made again where a signal interrupted it, up to 2^64 - 1 times.
fn flush_all<W: Write>(writer: &mut W) -> io::Result<()>
    ensures { Keeps (W.contents writer.old) (W.contents writer.new) }
{
    for _ in 0..u64::MAX {
        match writer.flush() {
            Ok(()) => return Ok(()),
            Err(e) if e.kind() == ErrorKind::Interrupted => {}
            Err(e) => return Err(e),
        }
    }
    Err(Error::from(ErrorKind::Interrupted))
}
