//! What becomes of the rows and values of a case.
ghost use Rattle.std.specs.Prelude.{◌≡◌, drop};
ghost use Rattle.bd_shrink.specs.Remnant.{first_fate, zero_of, scalar_left, word_left};

use bd_model::Scalar;

/// What becomes of a row or of another value: it stays, its value becomes 0 or false, or it goes. A value that
/// isn't a row's can't go: it becomes 0 or false.
#[derive(Clone, Copy, PartialEq, Eq)]
pub enum Fate {
    Stays,
    Zero,
    Gone,
}

impl Fate {
    /// What this fate leaves of a scalar.
    pub fn scalar(self, scalar: Scalar) -> Scalar
        ensures { result ≡ scalar_left self scalar }
    {
        match self {
            Fate::Stays => scalar,
            Fate::Zero | Fate::Gone => zero(scalar),
        }
    }

    /// What this fate leaves of a word.
    pub fn word(self, word: u64) -> u64
        ensures { result ≡ word_left self word }
    {
        match self {
            Fate::Stays => word,
            Fate::Zero | Fate::Gone => 0,
        }
    }
}

/// 0, or false for a truth value.
pub fn zero(scalar: Scalar) -> Scalar
    ensures { result ≡ zero_of scalar }
{
    match scalar {
        Scalar::Bool(_) => Scalar::Bool(false),
        Scalar::Word(_) => Scalar::Word(0),
    }
}

/// The fate at this place, which moves on to the next. What has no fate goes.
pub fn next_fate(fates: &[Fate], at: &mut usize) -> Fate
    ensures fate { result ≡ first_fate (drop at.old fates.now) }
    ensures rest { drop at.new fates.now ≡ drop 1 (drop at.old fates.now) }
{
    match fates.get(*at) {
        Some(fate) => {
            *at += 1;
            *fate
        }
        None => Fate::Gone,
    }
}
