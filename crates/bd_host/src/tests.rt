//! Examples: the adapters over readers and writers that fail.

use crate::real_files::{RealFiles, read_bytes};
use crate::stream::Stream;
use bd_files::{Files, LoadError, PutError, Sink};
use std::alloc::Global;
use std::io::{ErrorKind, Read, Write};
use std::test::Fail;
use std::{env, fs, io, process};

/// A file gives back the first bytes of what was saved under its name, and is missing once it is removed.
#[test]
fn real_files_give_what_was_saved(rt: HostRuntime) -> Result<(), Fail> {
    let alloc = rt.alloc();
    let name = format!(in alloc; "bd_host_{}", process::id(rt.process()))?;
    let path = env::temp_dir(&rt)?.join(alloc, name.as_str())?;
    let name = path.to_string_lossy();
    let mut files = RealFiles::new(alloc, &rt);
    assert_eq!(rt; files.save(name, b"four"), Ok(()));
    for (most, text) in [(9, "four"), (4, "four"), (3, "four"), (2, "fou"), (0, "f")] {
        match files.load(name, most) {
            Ok(bytes) => assert_eq!(rt; bytes.as_slice(), text.as_bytes(), "{most}"),
            Err(e) => panic!(rt; "{e}"),
        }
    }
    fs::remove_file(&rt, name)?;
    assert!(rt;
        matches!(files.load(name, 9), Err(LoadError::Failed)),
        "no such file"
    );
    assert_eq!(rt; files.faults(), 1);
    Ok(())
}

/// A reader that gives one byte at a time, each after an interrupted read, and fails where its
/// bytes end.
#[derive(Drop)]
struct Broken {
    left: usize,
    is_interrupted: bool,
    end: ErrorKind,
}

impl Read for Broken {
    /// Is interrupted at every other call; else it gives one byte, and fails where none is left.
    fn read(&mut self, buf: &mut [u8]) -> io::Result<usize> {
        self.is_interrupted = !self.is_interrupted;
        if self.is_interrupted {
            return Err(io::Error::from(ErrorKind::Interrupted));
        }
        if self.left == 0 {
            return Err(io::Error::from(self.end));
        }
        if buf.is_empty() {
            return Ok(0);
        }
        buf[0] = b'a';
        self.left -= 1;
        Ok(1)
    }
}

/// How many bytes are read of a reader that has three and then ends so.
fn read_count(alloc: Global, end: ErrorKind, most: usize) -> Result<usize, LoadError> {
    let mut source = Broken {
        left: 3,
        is_interrupted: false,
        end,
    };
    let bytes = read_bytes(alloc, &mut source, most)?;
    Ok(bytes.len())
}

/// A read goes on after an interruption, stops past the most bytes, and tells running out of memory from a failure.
#[test]
fn reads_on_after_an_interruption(rt: HostRuntime) {
    for (end, most, want) in [
        (ErrorKind::Other, 2, Ok(3)),
        (ErrorKind::Other, 3, Err(LoadError::Failed)),
        (ErrorKind::OutOfMemory, 3, Err(LoadError::Memory)),
    ] {
        assert_eq!(rt; read_count(rt.alloc(), end, most), want, "{most}");
    }
}

/// A writer that takes one byte at a time, each after an interrupted write, while there is room,
/// and then nothing.
#[derive(Drop)]
struct Narrow {
    room: usize,
    is_interrupted: bool,
    can_flush: bool,
}

impl Write for Narrow {
    /// Is interrupted at every other call; else it takes one byte while there is room, and then none.
    fn write(&mut self, buf: &[u8]) -> io::Result<usize> {
        self.is_interrupted = !self.is_interrupted;
        if self.is_interrupted {
            return Err(io::Error::from(ErrorKind::Interrupted));
        }
        if self.room == 0 || buf.is_empty() {
            return Ok(0);
        }
        self.room -= 1;
        Ok(1)
    }

    /// Is interrupted at every other call; else it fails unless the writer can flush.
    fn flush(&mut self) -> io::Result<()> {
        self.is_interrupted = !self.is_interrupted;
        if self.is_interrupted {
            Err(io::Error::from(ErrorKind::Interrupted))
        } else if self.can_flush {
            Ok(())
        } else {
            Err(io::Error::from(ErrorKind::Other))
        }
    }
}

/// A put goes on after interruptions, and each that the writer doesn't take whole and flush is counted.
#[test]
fn a_stream_counts_what_its_writer_refuses(rt: HostRuntime) {
    for (room, can_flush, text, answer, faults) in [
        (3, true, "abc", Ok(()), 0),
        (0, true, "", Ok(()), 0),
        (2, true, "abc", Err(PutError::Failed), 1),
        (0, true, "a", Err(PutError::Failed), 1),
        (9, false, "abc", Err(PutError::Failed), 1),
    ] {
        let mut stream = Stream::new(Narrow {
            room,
            is_interrupted: false,
            can_flush,
        });
        assert_eq!(rt; stream.put(text.as_bytes()), answer, "{text} {room}");
        assert_eq!(rt; stream.faults(), faults, "{text} {room}");
    }
}

/// A stream over standard output and one over standard error each take a line.
#[test]
fn standard_output_and_error_take_a_line(rt: HostRuntime) {
    assert_eq!(rt; Stream::new(rt.stdout()).put(b"a line\n"), Ok(()));
    assert_eq!(rt; Stream::new(rt.stderr()).put(b"a line\n"), Ok(()));
}
