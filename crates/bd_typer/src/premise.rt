//! What the third file of a design says of states.

ghost use Rattle.std.specs.Prelude.{◌≡◌, Result};
ghost use Rattle.bd_model.specs.DesignView.{DesignView, design_view};
ghost use Rattle.bd_typer.specs.Denotes.{premise_file, with_premise};
ghost use Rattle.bd_typer.specs.Faults.{FileFault, GivesIn};

use crate::fault::{Text, TypeFault};
use bd_model::Design;

/// What the third file of a design says of states.
#[derive(Clone, Copy, PartialEq, Eq)]
pub enum Premise {
    /// An invariant, which is to hold in each state of a run.
    Invariant,
    /// A start, which holds in the first state of a run.
    Start,
}

impl Premise {
    /// The file that says this of states.
    pub fn file(self) -> Text
        ensures { result ≡ premise_file self }
    {
        match self {
            Premise::Invariant => Text::Inv,
            Premise::Start => Text::Start,
        }
    }
}

/// What joining gave, where a fault of the invariant is one of this premise's file.
pub fn with_premise(
    premise: Premise,
    joined: Result<Design, TypeFault>,
) -> Result<Design, TypeFault>
    ensures { (given : Result DesignView FileFault) → GivesIn design_view joined given →
        GivesIn design_view result (with_premise premise given) }
{
    match joined {
        Err(
            TypeFault::Bad {
                file: Text::Inv,
                offset,
                code,
            },
        ) => Err(TypeFault::Bad {
            file: premise.file(),
            offset,
            code,
        }),
        other => other,
    }
}
