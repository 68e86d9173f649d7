//! What a term denotes as a scalar, in a list of what each term of a graph does. False stands for a term past its end.
ghost use Rattle.std.specs.Prelude.{◌≡◌};
ghost use Rattle.bd_function.specs.inner.Scalars.{scalar_at, truth_at, word_at};

use bd_model::Scalar;
use bd_terms::Id;

/// What a term denotes, by a list of what each denotes.
pub fn scalar_at(done: &[Scalar], id: Id) -> Scalar
    ensures { result ≡ scalar_at done.now id }
{
    done.get(id.index()).copied().unwrap_or(Scalar::Bool(false))
}

/// The truth value that a term denotes, false where it is a word.
pub fn truth_at(done: &[Scalar], id: Id) -> bool
    ensures { result ≡ truth_at done.now id }
{
    scalar_at(done, id).truth()
}

/// The word that a term denotes, 0 where it is a truth value.
pub fn word_at(done: &[Scalar], id: Id) -> u64
    ensures { result ≡ word_at done.now id }
{
    scalar_at(done, id).word()
}
