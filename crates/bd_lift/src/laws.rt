//! What holds of decoded values and lifted cases: laws that are proved, and have no code.
ghost use Rattle.bd_lift.specs.Decoded.{DecodedEdgesTell, DecodedHaveSorts, DecodedOthersDiffer};
ghost use Rattle.bd_lift.specs.Lifted.{LiftedDenotes};

/// Two word variables at the ends of an edge are equal exactly where the edge is true.
pub fn decoded_edges_tell()
    ensures { DecodedEdgesTell }
{}

/// A word variable in no edge differs from every other word variable.
pub fn decoded_others_differ()
    ensures { DecodedOthersDiffer }
{}

/// Decoded values are of their variables' sorts.
pub fn decoded_have_sorts()
    ensures { DecodedHaveSorts }
{}

/// In the world of a lifted case the formula that was flattened denotes what the flat one denotes under the decoded
/// values.
pub fn lifted_denotes()
    ensures { LiftedDenotes }
{}
