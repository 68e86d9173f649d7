//! What comes back, laid out as parts.
ghost use Rattle.std.specs.Prelude.{◌≡◌, ◌≤◌, ◌<◌, ◌⊎◌, ◌++◌, [], ◌∷◌, List, ℕ, length, map, take, IfOk, OnOk, OnErr, IsErrOf};
ghost use Rattle.std.specs.List.{concat};
ghost use Rattle.bd_files.specs.Shelf.{files_of};
ghost use Rattle.bd_web.specs.Handed.{AreParts, back_parts, file_parts};

use crate::fault::Fault;
use std::alloc::{AllocError, Global};

/// Parts, one after another, and the length of each.
#[derive(Drop)]
pub struct Parts {
    pub bytes: Vec<u8>,
    pub lengths: Vec<usize>,
}

impl Parts {
    /// The list of no part. It takes no memory.
    fn new(alloc: Global) -> Parts
        ensures { AreParts result.bytes.items result.lengths.items [] }
    {
        Parts {
            bytes: Vec::new(alloc),
            lengths: Vec::new(alloc),
        }
    }

    /// Adds a part.
    fn add(&mut self, part: &[u8]) -> Result<(), AllocError>
        ensures bytes { OnOk result (self.new.bytes.items ≡ self.old.bytes.items ++ part.now) }
        ensures lengths { OnOk result
            (self.new.lengths.items ≡ self.old.lengths.items ++ length part.now ∷ []) }
    {
        self.bytes.extend_from_slice(part)?;
        self.lengths.push(part.len())?;
        Ok(())
    }

    /// Adds files, each as its name and its bytes.
    #[tactic(auto, using(crate::proofs::Parts::parts))]
    fn add_files(&mut self, files: &[(String, Vec<u8>)]) -> Result<(), AllocError>
        ensures bytes { OnOk result (self.new.bytes.items
            ≡ self.old.bytes.items ++ concat (file_parts (files_of files.now))) }
        ensures lengths { OnOk result (self.new.lengths.items
            ≡ self.old.lengths.items ++ map length (file_parts (files_of files.now))) }
    {
        for file in files {
            self.add(file.0.as_str().as_bytes())?;
            self.add(file.1.as_slice())?;
        }
        Ok(())
    }
}

/// The outputs and the files as parts.
#[tactic(auto, using(crate::proofs::Parts::parts))]
pub fn back(
    alloc: Global,
    out: &[u8],
    err: &[u8],
    files: &[(String, Vec<u8>)],
) -> Result<Parts, AllocError>
    ensures { IfOk result (λ parts. AreParts parts.bytes.items parts.lengths.items
        (back_parts out.now err.now (files_of files.now))) }
{
    let mut parts = Parts::new(alloc);
    parts.add(out)?;
    parts.add(err)?;
    parts.add_files(files)?;
    Ok(parts)
}

/// Copies values to the front of a room that is no shorter.
fn copy_to<T: Copy>(room: &mut [T], values: &[T])
    requires { length values.now ≤ length room.old }
    ensures copied { take (length values.now) room.new ≡ values.now }
    ensures length { length room.new ≡ length room.old }
{
    room[..values.len()].copy_from_slice(values);
}

/// Hands the parts back, where they have room.
pub fn hand_back(
    parts: &Parts,
    bytes: &mut [u8],
    lengths: &mut [usize],
    count: &mut usize,
) -> Result<(), Fault>
    ensures bytes { OnOk result (let all = parts.now.bytes.items in
        take (length all) bytes.new ≡ all) }
    ensures lengths { OnOk result (take count.new lengths.new ≡ parts.now.lengths.items) }
    ensures cut_off { OnErr result ((length bytes.old < length parts.now.bytes.items)
        ⊎ (length lengths.old < length parts.now.lengths.items)) }
    ensures fault { OnErr result (IsErrOf result Fault.CutOff) }
    ensures bytes_stand { OnErr result (bytes.new ≡ bytes.old) }
    ensures lengths_stand { OnErr result (lengths.new ≡ lengths.old) }
{
    if bytes.len() < parts.bytes.len() || lengths.len() < parts.lengths.len() {
        return Err(Fault::CutOff);
    }
    copy_to(bytes, parts.bytes.as_slice());
    copy_to(lengths, parts.lengths.as_slice());
    *count = parts.lengths.len();
    Ok(())
}
