//! What holds of every case: a law that is proved, and has no code.
ghost use Rattle.bd_shrink.specs.Part.{RemnantIsPart};

/// What is left of a case is a part of it. Each latch and input has the value that it had, or 0 or false. Each table
/// and memory has some of its rows in their order, with the same arguments or address; each row's value and the
/// default are as they were, or 0 or false.
pub fn remnant_is_part()
    ensures { RemnantIsPart }
{}
