//! What holds of every text: laws that are proved, and have no code.

ghost use Rattle.std.specs.Prelude.{ℕ, ◌≤◌, List, length};
ghost use Rattle.bd_text.specs.Faults.{HasNoFault};
ghost use Rattle.bd_text.specs.Grammar.{Spells};
ghost use Rattle.bd_text.specs.Nodes.{Nodes};
ghost use Rattle.bd_syntax.specs.WellFormed.{AreWithinLimits};
ghost use Rattle.bd_model.specs.Limits.{longest_text};

/// The trees of a text of at most 1,048,576 bytes without a fault are within the limits: at most 200 lists are
/// open at once, and none has more parts than the text may have bytes.
pub fn reads_within_limits()
    ensures { (source : List ℕ) (trees : Nodes) → length source ≤ longest_text →
        HasNoFault source → Spells source trees → AreWithinLimits trees }
{}
