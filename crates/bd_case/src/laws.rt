//! What holds of every text of a case or a trail.

ghost use Rattle.std.specs.Prelude.{◌≡◌, ◌≤◌, ℕ, List, length, Result, Ok};
ghost use Rattle.bd_syntax.specs.Reading.{Fault};
ghost use Rattle.bd_model.specs.DesignView.{DesignView};
ghost use Rattle.bd_model.specs.Fits.{Fits, TrailFits};
ghost use Rattle.bd_model.specs.Lawful.{IsLawful};
ghost use Rattle.bd_model.specs.declared.case.Case.{Case as TheCase};
ghost use Rattle.bd_model.specs.declared.case.Trail.{Trail as TheTrail};
ghost use Rattle.bd_case.specs.Content.{Has64Bits, HasShortWords};
ghost use Rattle.bd_case.specs.Reads.{IsReading, IsTrailReading};
ghost use Rattle.bd_case.specs.Text.{text_of, trail_text_of};
ghost use Rattle.bd_model.specs.Limits.{most_cycles};

/// A text has at most one reading as a case.
pub fn one_case()
    ensures { (d : DesignView) (source : List ℕ) (r s : Result TheCase Fault) →
        IsReading d source r → IsReading d source s → r ≡ s }
{}

/// What is written of a case reads as that case.
pub fn reads_back()
    ensures { (d : DesignView) (c : TheCase) → IsLawful d → Fits d c → Has64Bits c →
        IsReading d (text_of d c) (Ok c) }
{}

/// A text has at most one reading as a trail.
pub fn one_trail()
    ensures { (d : DesignView) (source : List ℕ) (r s : Result TheTrail Fault) →
        IsTrailReading d source r → IsTrailReading d source s → r ≡ s }
{}

/// What is written of a trail of at most 16 cycles reads as that trail.
pub fn trail_reads_back()
    ensures { (d : DesignView) (t : TheTrail) → IsLawful d → TrailFits d t → HasShortWords t →
        length t.inputs ≤ most_cycles → IsTrailReading d (trail_text_of d t) (Ok t) }
{}
