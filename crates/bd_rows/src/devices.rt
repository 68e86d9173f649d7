//! Devices in memory that keep which calls were made on them.

ghost use Rattle.std.specs.Prelude.{None};

use bd_files::{Files, LoadError, PutError, SaveError, Sink};
use std::alloc::Global;

/// Files that keep the calls on them, a line each: `load NAME MOST`, or `save NAME`.
#[derive(Drop)]
pub struct Watched<F> {
    pub files: F,
    calls: String,
}

impl<F: Files> Watched<F> {
    /// The files, of which no call was made yet.
    pub fn new(alloc: Global, files: F) -> Watched<F> {
        Watched {
            files,
            calls: String::new(alloc),
        }
    }

    /// The calls since they were forgotten.
    pub fn calls(&self) -> &str {
        self.calls.as_str()
    }

    /// Forgets the calls.
    pub fn forget(&mut self) {
        self.calls.clear();
    }
}

impl<F: Files> Files for Watched<F> {
    ghost held = { λ watched. F.held watched.files };

    ghost faults = { λ watched. F.faults watched.files };

    ghost blame = { λ watched. F.blame watched.files };

    ghost calls = { λ _. None };

    /// Notes the call, and passes it on.
    fn load(&mut self, name: &str, most: usize) -> Result<Vec<u8>, LoadError> {
        if write!(self.calls, "load {name} {most}\n").is_err() {
            return Err(LoadError::Memory);
        }
        self.files.load(name, most)
    }

    /// Notes the call, and passes it on.
    fn save(&mut self, name: &str, bytes: &[u8]) -> Result<(), SaveError> {
        if write!(self.calls, "save {name}\n").is_err() {
            return Err(SaveError::Memory);
        }
        self.files.save(name, bytes)
    }
}

/// A sink that counts the puts on it.
#[derive(Drop)]
pub struct Counted<S> {
    pub sink: S,
    pub puts: u64,
}

impl<S: Sink> Sink for Counted<S> {
    ghost written = { λ counted. S.written counted.sink };

    ghost faults = { λ counted. S.faults counted.sink };

    ghost puts = { λ counted. S.puts counted.sink };

    /// Counts the put, and passes it on.
    fn put(&mut self, bytes: &[u8]) -> Result<(), PutError> {
        self.puts = self.puts.saturating_add(1);
        self.sink.put(bytes)
    }
}
