//! Where files lie. The file system tells nothing of what it holds, and its calls promise nothing; over a disk that
//! tells, clauses can say what a load gives and where a save writes.
ghost use Rattle.std.specs.Prelude.{◌≡◌, ℕ, Option, None, IfOk, IfSome};
ghost use Rattle.bd_files.specs.Devices.{Held, Holds, KeepsOthers, Counts};
ghost use Rattle.bd_host.specs.Disk.{Opens, IsEmptied};

use std::io::{Read, Write};
use std::rt::Files as FileSystem;
use std::{fs, io};

/// What opens a file to be read, and makes one anew to be written. A disk may tell what it holds, as one in memory
/// does; a call never changes whether it tells. What is written to a file is held once the file is closed.
pub trait Disk {
    type Opened: Read + Drop;

    type Created: Write + Drop;

    /// What is held under each name; none where it isn't told.
    ghost held: { Self → Option Held } = { λ _. None };

    /// How often a file was made anew, calls that failed with them; none where it isn't told.
    ghost creates: { Self → Option ℕ } = { λ _. None };

    /// The file of that name, to be read from its beginning.
    fn open(&mut self, name: &str) -> io::Result<Self::Opened>
        ensures told { IfOk result (λ file.
            Opens (held self.old) name.now (Self.Opened.remaining file)) }
        ensures holds_the_same { held self.new ≡ held self.old }
        ensures creates_none { creates self.new ≡ creates self.old };

    /// An empty file of that name, to be written.
    fn create(&mut self, name: &str) -> io::Result<Self::Created>
        ensures empty { IfOk result (λ file.
            IsEmptied (held self.old) (Self.Created.contents file)) }
        ensures keeps_others { KeepsOthers (held self.old) (held self.new) name.now }
        ensures counted { Counts (creates self.old) (creates self.new) 1 };

    /// Ends the writing of that file, which was made under that name.
    fn close(&mut self, name: &str, file: Self::Created)
        ensures closed { IfSome (Self.Created.contents file) (λ bytes.
            Holds (held self.new) name.now bytes) }
        ensures keeps_others { KeepsOthers (held self.old) (held self.new) name.now }
        ensures creates_none { creates self.new ≡ creates self.old };
}

/// The file that a name means: `-` is the standard input.
fn file_named(name: &str) -> &str {
    if name == "-" { "/dev/stdin" } else { name }
}

impl<'s, S: FileSystem> Disk for &'s S {
    type Opened = S::File;

    type Created = S::File;

    /// The file of that name, to be read from its beginning; the standard input is read on from where it stands.
    fn open(&mut self, name: &str) -> io::Result<S::File> {
        fs::open(*self, file_named(name))
    }

    /// An empty file of that name, to be written.
    fn create(&mut self, name: &str) -> io::Result<S::File> {
        fs::create(*self, name)
    }

    /// The file is closed as it is let go.
    fn close(&mut self, _name: &str, _file: S::File) {}
}
