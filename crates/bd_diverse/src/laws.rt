//! Why diverse worlds are enough: laws that are proved, and have no code.
ghost use Rattle.bd_diverse.specs.Laws.{DiverseDecides};

/// A root that reaches no memory is valid exactly where it is true in every diverse world that keeps the design's
/// constants apart.
pub fn diverse_decides()
    ensures { DiverseDecides }
{}
