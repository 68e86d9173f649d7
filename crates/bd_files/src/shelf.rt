//! Files in memory that fail where they are told to.
//!
//! A shelf keeps its files in a list, the first of a name counting. Each call takes the next
//! number before it does anything else, so a call that runs out of memory is numbered too.
ghost use Rattle.std.specs.Prelude.{◌≡◌, ◌+◌, [], ◌∷◌, true, false, Some, None, OnOk, OnErr, IfOk, IsErrOf, IsOkAnd, position, find, take, option_map};
ghost use Rattle.std.specs.Option.{option_copied};
ghost use Rattle.std.specs.String.{string_bytes};
ghost use Rattle.std.specs.Str.{bytes_eq};
ghost use Rattle.bd_files.specs.Devices.{Makes, loading, saving};
ghost use Rattle.bd_files.specs.Numbers.{number_after};
ghost use Rattle.bd_files.specs.Shelf.{files_of, bytes_of, put_file, is_due, load_of, new_shelf, numbered, failed, saved, telling};

use super::calls::take_number;
use super::noted::{NotedCall, note_load, note_save};
use super::{FaultLog, FileCall, Files, LoadError, SaveError};
use std::alloc::{AllocError, Global};
use std::marker::Model;

/// Files in memory, of which calls with given numbers fail. The calls on a shelf, loads and saves
/// together, have the numbers 1, 2, 3, .. The shelf tells them, until memory runs out for it.
#[derive(Drop)]
pub struct Shelf {
    alloc: Global,
    held: Vec<(String, Vec<u8>)>,
    fails: Vec<u64>,
    next: Option<u64>,
    faults: FaultLog,
    calls: Option<Vec<NotedCall>>,
}

impl Model for Shelf {
    ghost use Rattle.bd_files.specs.Noted.{calls_of};
    ghost use Rattle.bd_files.specs.Shelf.{ShelfState, files_of};

    ghost Value = { ShelfState };

    ghost view = { λ shelf. record {
      held = files_of shelf.held.items;
      fails = shelf.fails.items;
      next = shelf.next;
      faults = shelf.faults;
      calls = calls_of shelf.calls;
    } };
}

impl Shelf {
    /// A shelf that holds these files, each with its name, and whose calls with the numbers `fails`
    /// fail. Of several files with one name the first counts.
    pub fn new(
        alloc: Global,
        held: Vec<(String, Vec<u8>)>,
        fails: Vec<u64>,
    ) -> Result<Shelf, AllocError>
        ensures { IsOkAnd result (λ shelf. shelf ≡ new_shelf (files_of held.items) fails.items) }
    {
        Ok(Shelf {
            alloc,
            held,
            fails,
            next: Some(1),
            faults: FaultLog::new(),
            calls: Some(Vec::new(alloc)),
        })
    }

    /// How many calls answered `Failed`.
    pub fn faults(&self) -> u64
        ensures { result ≡ self.now.faults.count }
    {
        self.faults.count()
    }
}

#[tactic(auto, using(crate::proofs::Lookups::lookups))]
impl Files for Shelf {
    ghost held = { λ shelf. Some (bytes_of shelf.held) };

    ghost faults = { λ shelf. shelf.faults.count };

    ghost blame = { λ shelf. shelf.faults.blame };

    ghost calls = { λ shelf. shelf.calls };

    /// The first bytes of a file that the shelf holds; it fails where it is told to, and where there is no such file.
    fn load(&mut self, name: &str, most: usize) -> Result<Vec<u8>, LoadError>
        ensures given { IfOk result (λ bytes.
            load_of self.old name.now most ≡ Some bytes.items) }
        ensures called { Makes self.old.calls self.new.calls (loading name.now most ∷ []) }
        ensures ok { OnOk result (self.new ≡ telling self.new.calls (numbered self.old)) }
        ensures fails { IsErrOf result LoadError.Failed → load_of self.old name.now most ≡ None }
        ensures failed { IsErrOf result LoadError.Failed →
            self.new ≡ telling self.new.calls (failed self.old FileCall.Load name.now) }
        ensures memory { IsErrOf result LoadError.Memory →
            self.new ≡ telling self.new.calls (numbered self.old) }
    {
        let due = is_due_now(&self.fails, &mut self.next);
        note_load(self.alloc, &mut self.calls, name, most);
        let blamed = String::from_str(self.alloc, name).map_err(|_| LoadError::Memory)?;
        let found = if due {
            None
        } else {
            first_bytes(&self.held, name, most)
        };
        match found {
            Some(bytes) => Vec::from_slice(self.alloc, bytes).map_err(|_| LoadError::Memory),
            None => {
                self.faults.add(FileCall::Load, blamed);
                Err(LoadError::Failed)
            }
        }
    }

    /// Holds the bytes under that name; it fails where it is told to.
    fn save(&mut self, name: &str, bytes: &[u8]) -> Result<(), SaveError>
        ensures called { Makes self.old.calls self.new.calls (saving name.now bytes.now ∷ []) }
        ensures ok { OnOk result
            (self.new ≡ telling self.new.calls (saved self.old name.now bytes.now)) }
        ensures ok_unless_due { OnOk result (is_due self.old.fails self.old.next ≡ false) }
        ensures fails_if_due { IsErrOf result SaveError.Failed →
            is_due self.old.fails self.old.next ≡ true }
        ensures failed { IsErrOf result SaveError.Failed →
            self.new ≡ telling self.new.calls (failed self.old FileCall.Save name.now) }
        ensures memory { IsErrOf result SaveError.Memory →
            self.new ≡ telling self.new.calls (numbered self.old) }
    {
        let due = is_due_now(&self.fails, &mut self.next);
        note_save(self.alloc, &mut self.calls, name, bytes);
        let name = String::from_str(self.alloc, name).map_err(|_| SaveError::Memory)?;
        if due {
            self.faults.add(FileCall::Save, name);
            return Err(SaveError::Failed);
        }
        let bytes = Vec::from_slice(self.alloc, bytes).map_err(|_| SaveError::Memory)?;
        put_file(&mut self.held, name, bytes).map_err(|_| SaveError::Memory)
    }
}

/// Numbers the call that begins, and answers whether it is to fail.
fn is_due_now(fails: &[u64], next: &mut Option<u64>) -> bool
    ensures due { result ≡ is_due fails.now next.old }
    ensures numbered { next.new ≡ number_after next.old }
{
    take_number(next).is_some_and(|number| fails.contains(&number))
}

/// The bytes of the first file with that name, of more than `most` the first `most + 1`.
#[tactic(auto, using(crate::proofs::Lookups::lookups))]
pub fn first_bytes<'a>(held: &'a [(String, Vec<u8>)], name: &str, most: usize) -> Option<&'a [u8]>
    ensures { option_copied result
        ≡ option_map (take (most + 1)) (bytes_of (files_of held.now) name.now) }
{
    let file = file_under(held, name)?;
    let bytes = file.1.as_slice();
    if most < bytes.len() {
        Some(&bytes[..most + 1])
    } else {
        Some(bytes)
    }
}

/// The first file with that name.
fn file_under<'a>(held: &'a [(String, Vec<u8>)], name: &str) -> Option<&'a (String, Vec<u8>)>
    ensures { option_copied result
        ≡ find (λ file. bytes_eq (string_bytes file.0) name.now) held.now }
{
    held.iter().find(|file| file.0.as_str() == name)
}

/// The place of the first file with that name.
fn place_of(held: &[(String, Vec<u8>)], name: &str) -> Option<usize>
    ensures { result ≡ position (λ file. bytes_eq (string_bytes file.0) name.now) held.now }
{
    held.iter().position(|file| file.0.as_str() == name)
}

/// Puts the bytes under the name, in place of those of the first file with that name if there is
/// one.
#[tactic(auto, using(crate::proofs::Lookups::lookups))]
fn put_file(
    held: &mut Vec<(String, Vec<u8>)>,
    name: String,
    bytes: Vec<u8>,
) -> Result<(), AllocError>
    ensures ok { OnOk result (files_of held.new.items
        ≡ put_file (files_of held.old.items) (string_bytes name) bytes.items) }
    ensures err { OnErr result (held.new.items ≡ held.old.items) }
{
    match place_of(held, name.as_str()) {
        Some(place) => {
            let file = &mut held[place];
            file.1 = bytes;
        }
        None => held.push((name, bytes))?,
    }
    Ok(())
}
