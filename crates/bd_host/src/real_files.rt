//! The files of the system.
//!
//! The name is copied before the file is touched, so that a call that failed can be blamed without
//! taking memory. A file is read piece by piece, one byte past the limit at most, so that a longer
//! one is known as such and never read whole. Over a reader that tells what it has left, the
//! clauses say that the bytes are its first ones. The files tell what their disk tells: so over a
//! disk that tells, a load gives what is held under its name, and a save puts its bytes there.
ghost use Rattle.std.specs.Prelude.{◌≡◌, ◌≢◌, ℕ, ◌+◌, ◌<◌, ◌≤◌, ◌++◌, List, length, take, vec_len, None, Some, OnOk, IfSome, IfOk, IsErrOf};
ghost use Rattle.std.specs.Io.{ReadsAtMost};
ghost use Rattle.std.specs.Io.KnownBytes.{Consumes, IsAtEnd, ReadConsumes};
ghost use Rattle.std.specs.IoError.{error_kind};
ghost use Rattle.bd_files.specs.Devices.{IsLoaded, Holds, KeepsOthers, Counts, Rose};

use crate::disk::Disk;
use crate::stream::write_whole;
use bd_files::{FaultLog, FileCall, Files, LoadError, SaveError};
use std::alloc::Global;
use std::io;
use std::io::{Error, ErrorKind, Read};

/// The files of a disk, under the names that they have there. Each call that fails is counted, and
/// blamed with its name. They hold what the disk holds, and tell it where the disk does.
#[derive(Drop)]
pub struct RealFiles<D> {
    alloc: Global,
    disk: D,
    faults: FaultLog,
}

impl<D: Disk> RealFiles<D> {
    /// The files of that disk, with no fault yet.
    pub fn new(alloc: Global, disk: D) -> RealFiles<D>
        ensures disk { result.disk ≡ disk }
        ensures faultless { result.faults ≡ record { count = 0; blame = None } }
    {
        RealFiles {
            alloc,
            disk,
            faults: FaultLog::new(),
        }
    }

    /// How many calls answered `Failed`.
    pub fn faults(&self) -> u64
        ensures { result ≡ self.now.faults.count }
    {
        self.faults.count()
    }
}

impl<D: Disk> Files for RealFiles<D> {
    ghost held = { λ files. D.held files.disk };

    ghost faults = { λ files. files.faults.count };

    ghost blame = { λ files. files.faults.blame };

    ghost calls = { λ _. None };

    /// The first bytes of the file, at most `most + 1`; a call that fails is counted and blamed.
    fn load(&mut self, name: &str, most: usize) -> Result<Vec<u8>, LoadError> {
        let blamed = String::from_str(self.alloc, name).map_err(|_| LoadError::Memory)?;
        let result = load_file(self.alloc, &mut self.disk, name, most);
        if let Err(LoadError::Failed) = result {
            self.faults.add(FileCall::Load, blamed);
        }
        result
    }

    /// Makes the file anew, once, and writes these bytes to it; a call that fails is counted and
    /// blamed.
    fn save(&mut self, name: &str, bytes: &[u8]) -> Result<(), SaveError>
        ensures saved { OnOk result (Holds (D.held self.new.disk) name.now bytes.now) }
        ensures keeps_others { KeepsOthers (D.held self.old.disk) (D.held self.new.disk) name.now }
        ensures once { OnOk result
            (Counts (D.creates self.old.disk) (D.creates self.new.disk) 1) }

        ensures never_falls { self.old.faults.count ≤ self.new.faults.count }
        ensures failed_rose { IsErrOf result SaveError.Failed →
            Rose self.old.faults.count self.new.faults.count }
        ensures failed_blames { IsErrOf result SaveError.Failed →
            self.new.faults.blame ≡ Some (FileCall.Save, name.now) }
        ensures else_keeps_blame { ¬ IsErrOf result SaveError.Failed →
            self.new.faults.blame ≡ self.old.faults.blame }
    {
        let blamed = String::from_str(self.alloc, name).map_err(|_| SaveError::Memory)?;
        let result = save_file(&mut self.disk, name, bytes);
        if let Err(SaveError::Failed) = result {
            self.faults.add(FileCall::Save, blamed);
        }
        result
    }
}

/// Opens the file and reads it, of more than `most` bytes the first `most + 1`.
fn load_file<D: Disk>(
    alloc: Global,
    disk: &mut D,
    name: &str,
    most: usize,
) -> Result<Vec<u8>, LoadError>
    ensures bounded { IfOk result (λ bytes. vec_len bytes ≤ most + 1) }
    ensures loaded { IfOk result (λ bytes.
        IsLoaded (D.held disk.old) name.now most bytes.items) }
    ensures holds_the_same { D.held disk.new ≡ D.held disk.old }
{
    let mut file = match disk.open(name) {
        Ok(file) => file,
        Err(e) => return Err(load_error(&e)),
    };
    read_bytes(alloc, &mut file, most)
}

/// Writes the file anew.
fn save_file<D: Disk>(disk: &mut D, name: &str, bytes: &[u8]) -> Result<(), SaveError>
    ensures saved { OnOk result (Holds (D.held disk.new) name.now bytes.now) }
    ensures keeps_others { KeepsOthers (D.held disk.old) (D.held disk.new) name.now }
    ensures once { Counts (D.creates disk.old) (D.creates disk.new) 1 }
{
    let mut file = match disk.create(name) {
        Ok(file) => file,
        Err(e) => return Err(save_error(&e)),
    };
    match write_whole(&mut file, bytes) {
        Ok(()) => {
            disk.close(name, file);
            Ok(())
        }
        Err(e) => Err(save_error(&e)),
    }
}

/// The fault of a load that failed so: running out of memory is no fault of the device.
fn load_error(error: &Error) -> LoadError
    ensures memory { error_kind error.now ≡ ErrorKind.OutOfMemory → result ≡ LoadError.Memory }
    ensures failed { error_kind error.now ≢ ErrorKind.OutOfMemory → result ≡ LoadError.Failed }
{
    match error.kind() {
        ErrorKind::OutOfMemory => LoadError::Memory,
        _ => LoadError::Failed,
    }
}

/// The fault of a save that failed so: running out of memory is no fault of the device.
fn save_error(error: &Error) -> SaveError
    ensures memory { error_kind error.now ≡ ErrorKind.OutOfMemory → result ≡ SaveError.Memory }
    ensures failed { error_kind error.now ≢ ErrorKind.OutOfMemory → result ≡ SaveError.Failed }
{
    match error.kind() {
        ErrorKind::OutOfMemory => SaveError::Memory,
        _ => SaveError::Failed,
    }
}

/// How many bytes are read at once, at most.
const PIECE: usize = 4096;

/// Reads to the end of the input, or past `most` bytes: then the first `most + 1`. It fails at the
/// first read that answers an `Err` other than that a signal interrupted it.
pub fn read_bytes<R: Read>(alloc: Global, source: &mut R, most: usize) -> Result<Vec<u8>, LoadError>
    ensures bounded { IfOk result (λ bytes. vec_len bytes ≤ most + 1) }
    ensures first { IfSome (R.remaining source.old) (λ input. IfOk result (λ bytes.
        bytes.items ≡ take (most + 1) input)) }
{
    let mut bytes = Vec::new(alloc);
    while bytes.len() <= most {
        let room = (most - bytes.len()).min(PIECE - 1) + 1;
        if read_piece(source, room, &mut bytes)? == 0 {
            break;
        }
    }
    Ok(bytes)
}

/// Reads once, at most `room` bytes, and puts them after those that were read before. None came
/// only at the end of the input.
fn read_piece<R: Read>(source: &mut R, room: usize, bytes: &mut Vec<u8>) -> Result<usize, LoadError>
    requires some { 0 < room }
    requires few { room ≤ PIECE }
    ensures piece { IfOk result (λ count. (piece : List ℕ) × (length piece ≡ count)
        × (bytes.new.items ≡ bytes.old.items ++ piece)
        × Consumes (R.remaining source.old) (R.remaining source.new) piece) }
    ensures len { IfOk result (λ count. vec_len bytes.new ≡ vec_len bytes.old + count) }
    ensures fits { IfOk result (λ count. count ≤ room) }
    ensures end { IfOk result (λ count. count ≡ 0 → IsAtEnd (R.remaining source.new)) }
{
    let mut buffer = [0u8; PIECE];
    let piece = &mut buffer[..room];
    let count = match read_some(source, piece) {
        Ok(count) => count,
        Err(e) => return Err(load_error(&e)),
    };
    let piece = &piece[..count];
    bytes
        .extend_from_slice(piece)
        .map_err(|_| LoadError::Memory)?;
    Ok(count)
}

/// One read, made again where a signal interrupted it, up to 2^64 - 1 times.
fn read_some<R: Read>(source: &mut R, piece: &mut [u8]) -> io::Result<usize>
    ensures fits { ReadsAtMost result piece.new }
    ensures bytes { ReadConsumes (R.remaining source.old) (R.remaining source.new)
        result piece.new }
{
    for _ in 0..u64::MAX {
        match source.read(piece) {
            Ok(count) => return Ok(count),
            Err(e) if e.kind() == ErrorKind::Interrupted => {}
            Err(e) => return Err(e),
        }
    }
    Err(Error::from(ErrorKind::Interrupted))
}
