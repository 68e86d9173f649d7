//! Files in memory, which can be taken out again.
ghost use Rattle.std.specs.Prelude.{◌≡◌, ◌+◌, [], Some, None, OnOk, OnErr, IfOk, IsErrOf, take, option_map};
ghost use Rattle.bd_files.specs.Shelf.{files_of, bytes_of};
ghost use Rattle.bd_web.specs.Folder.{failed, saved};

use bd_files::{FaultLog, FileCall, Files, LoadError, SaveError, first_bytes};
use std::alloc::Global;
use std::marker::Model;

/// Files in memory, of which the first of a name counts. A save puts its file before the others.
#[derive(Drop)]
pub struct Folder {
    alloc: Global,
    files: Vec<(String, Vec<u8>)>,
    faults: FaultLog,
}

impl Model for Folder {
    ghost use Rattle.bd_files.specs.Shelf.{files_of};
    ghost use Rattle.bd_web.specs.Folder.{FolderState};

    ghost Value = { FolderState };

    ghost view = { λ folder. record {
      files = files_of folder.files.items;
      faults = folder.faults;
    } };
}

impl Folder {
    /// A folder of these files, each with its name.
    pub fn new(alloc: Global, files: Vec<(String, Vec<u8>)>) -> Folder
        ensures { result ≡ record {
          files = files_of files.items;
          faults = record { count = 0; blame = None };
        } }
    {
        Folder {
            alloc,
            files,
            faults: FaultLog::new(),
        }
    }

    /// The files of the folder, each with its name.
    pub fn files(&self) -> &[(String, Vec<u8>)]
        ensures { files_of result.now ≡ self.now.files }
    {
        self.files.as_slice()
    }
}

#[tactic(auto, using(bd_files::proofs::Lookups::lookups))]
impl Files for Folder {
    ghost held = { λ folder. Some (bytes_of folder.files) };

    ghost faults = { λ folder. folder.faults.count };

    ghost blame = { λ folder. folder.faults.blame };

    ghost calls = { λ _. None };

    /// The first bytes of a file of the folder; it fails where there is no file of that name.
    fn load(&mut self, name: &str, most: usize) -> Result<Vec<u8>, LoadError>
        ensures given { IfOk result (λ bytes.
            option_map (take (most + 1)) (bytes_of self.old.files name.now) ≡ Some bytes.items) }
        ensures ok { OnOk result (self.new ≡ self.old) }
        ensures fails { IsErrOf result LoadError.Failed → bytes_of self.old.files name.now ≡ None }
        ensures failed { IsErrOf result LoadError.Failed →
            self.new ≡ failed self.old FileCall.Load name.now }
        ensures memory { IsErrOf result LoadError.Memory → self.new ≡ self.old }
    {
        let blamed = String::from_str(self.alloc, name).map_err(|_| LoadError::Memory)?;
        match first_bytes(&self.files, name, most) {
            Some(bytes) => Vec::from_slice(self.alloc, bytes).map_err(|_| LoadError::Memory),
            None => {
                self.faults.add(FileCall::Load, blamed);
                Err(LoadError::Failed)
            }
        }
    }

    /// Puts a file of that name in front of the others; it fails only when out of memory.
    fn save(&mut self, name: &str, bytes: &[u8]) -> Result<(), SaveError>
        ensures ok { OnOk result (self.new ≡ saved self.old name.now bytes.now) }
        ensures never_fails { ¬ IsErrOf result SaveError.Failed }
        ensures memory { OnErr result (self.new ≡ self.old) }
    {
        let name = String::from_str(self.alloc, name).map_err(|_| SaveError::Memory)?;
        let bytes = Vec::from_slice(self.alloc, bytes).map_err(|_| SaveError::Memory)?;
        self.files
            .insert(0, (name, bytes))
            .map_err(|_| SaveError::Memory)
    }
}
