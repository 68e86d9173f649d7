//! What holds of all texts: laws that are proved, and have no code. Three texts denote exactly one thing. An expression
//! is accepted exactly where what its form says has the wanted sort. Some texts denote a lawful design.

ghost use Rattle.std.specs.Prelude.{◌≡◌, ℕ, List, None, Ok, Option, Result};
ghost use Rattle.bd_model.specs.DesignView.{DesignView};
ghost use Rattle.bd_model.specs.Lawful.{IsLawful};
ghost use Rattle.bd_typer.specs.Complete.{TypingComplete, TypingSound};
ghost use Rattle.bd_typer.specs.Denotes.{Denotes, DenotesWith};
ghost use Rattle.bd_typer.specs.Faults.{FileFault};
ghost use Rattle.bd_typer.specs.declared.premise.Premise.{Premise};

/// Three texts denote at most one thing: one design, or one first fault, and never both.
pub fn denotes_once()
    ensures { (premise : Premise) (pipe spec : List ℕ) (third : Option (List ℕ))
        (r q : Result DesignView FileFault) →
        DenotesWith premise pipe spec third r → DenotesWith premise pipe spec third q → r ≡ q }
{}

/// Three texts denote something: a design, or a first fault.
pub fn some_result()
    ensures { (premise : Premise) (pipe spec : List ℕ) (third : Option (List ℕ)) →
        (r : Result DesignView FileFault) × DenotesWith premise pipe spec third r }
{}

/// Typing is complete: a form that says an expression of the wanted sort is accepted.
pub fn typing_complete()
    ensures { TypingComplete }
{}

/// Typing is sound: what is accepted is what the form says, and has the wanted sort.
pub fn typing_sound()
    ensures { TypingSound }
{}

/// Two texts denote a lawful design.
pub fn lawful_design_exists()
    ensures { (pipe : List ℕ) × (spec : List ℕ) × (d : DesignView) ×
        Denotes pipe spec None (Ok d) × IsLawful d }
{}
