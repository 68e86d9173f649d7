//! Laws about designs, cases and runs, which callers cite as facts.
//!
//! One cycle is enough for every run (Burch and Dill 1994). Where no fitting case breaks a condition, a cycle from a
//! state that meets the invariant ends in such a state, and stands for some number of steps of the specification.
//! Steps of the specification take states that can't be told apart to such states, so the numbers of steps of two
//! cycles add up, and by induction over the inputs those of a whole run follow it. Nothing of this rests on what the
//! abstraction is: flushing is one, and completion functions are another.
ghost use Rattle.bd_model.specs.Laws.{CyclesCompose, CyclesComposeBy, AgreementKeepsRight, TrailsDecide, JudgedOnce, AlwaysJudged, BrokenBreaks};

/// Cycles compose: a lawful pipeline is right over every run exactly where no single fitting case breaks a
/// condition (Burch and Dill 1994, over finite tables and every list of inputs).
pub fn cycles_compose()
    ensures { CyclesCompose }
{}

/// Cycles compose by any abstraction.
pub fn cycles_compose_by()
    ensures { CyclesComposeBy }
{}

/// A right pipeline is right by each abstraction that agrees with flushing.
pub fn agreement_keeps_right()
    ensures { AgreementKeepsRight }
{}

/// A pipeline is right over a bounded number of cycles exactly where no fitting trail of at most so many is judged
/// broken.
pub fn trails_decide()
    ensures { TrailsDecide }
{}

/// No two judgements are true of one case.
pub fn judged_once()
    ensures { JudgedOnce }
{}

/// Some judgement is true of each case.
pub fn always_judged()
    ensures { AlwaysJudged }
{}

/// A fitting case that is judged to break a condition breaks it.
pub fn broken_breaks()
    ensures { BrokenBreaks }
{}
