//! The count of faults, and the blame, for objects with files.
ghost use Rattle.std.specs.Prelude.{◌≡◌, None};
ghost use Rattle.std.specs.String.{string_bytes};
ghost use Rattle.bd_files.specs.Devices.{faulted};

use super::FileCall;
use std::marker::Model;

/// How many faults an object with files had, and which call the last one came from.
#[derive(Default, Drop)]
pub struct FaultLog {
    count: u64,
    blame: Option<Blame>,
}

#[derive(Drop)]
struct Blame {
    call: FileCall,
    name: String,
}

impl Model for FaultLog {
    ghost use Rattle.std.specs.Option.{option_map};
    ghost use Rattle.std.specs.String.{string_bytes};
    ghost use Rattle.bd_files.specs.Devices.{FaultRecord};

    ghost Value = { FaultRecord };

    ghost view = { λ log. record {
      count = log.count;
      blame = option_map (λ blame. (blame.call, string_bytes blame.name)) log.blame;
    } };
}

impl FaultLog {
    /// The log of no fault yet.
    pub fn new() -> Self
        ensures { result ≡ record { count = 0; blame = None } }
    {
        FaultLog {
            count: 0,
            blame: None,
        }
    }

    /// Counts one more fault, and blames it on the call of that name. At the largest `u64` the
    /// count stays.
    pub fn add(&mut self, call: FileCall, name: String)
        ensures { self.new ≡ faulted self.old call (string_bytes name) }
    {
        self.count = self.count.saturating_add(1);
        self.blame = Some(Blame { call, name });
    }

    /// How many faults came.
    pub fn count(&self) -> u64
        ensures { result ≡ self.now.count }
    {
        self.count
    }
}
