//! The operators of expressions.

ghost use Rattle.std.specs.Prelude.{◌≡◌};
ghost use Rattle.bd_syntax.specs.Words.{operator_of, operator_takes, operator_text};

/// An operator of expressions.
#[derive(Clone, Copy, PartialEq, Eq)]
pub enum Operator {
    Not,
    And,
    Or,
    Implies,
    Iff,
    Equal,
    Ite,
    Read,
    Write,
}

const OPERATORS: [Operator; 9] = [
    Operator::Not,
    Operator::And,
    Operator::Or,
    Operator::Implies,
    Operator::Iff,
    Operator::Equal,
    Operator::Ite,
    Operator::Read,
    Operator::Write,
];

impl Operator {
    /// The word that applications of this operator begin with.
    fn text(self) -> &'static [u8]
        ensures { result.now ≡ operator_text self }
    {
        match self {
            Operator::Not => b"not",
            Operator::And => b"and",
            Operator::Or => b"or",
            Operator::Implies => b"implies",
            Operator::Iff => b"iff",
            Operator::Equal => b"=",
            Operator::Ite => b"ite",
            Operator::Read => b"read",
            Operator::Write => b"write",
        }
    }

    /// The operator that a text is.
    #[tactic(auto, unfolding(crate::specs::Words::operator_of))]
    pub fn from_text(text: &[u8]) -> Option<Operator>
        ensures { result ≡ operator_of text.now }
    {
        OPERATORS
            .iter()
            .copied()
            .find(|operator| text == operator.text())
    }

    /// Whether this operator may have so many parts.
    pub fn takes(self, parts: usize) -> bool
        ensures { result ≡ operator_takes self parts }
    {
        match self {
            Operator::Not => parts == 1,
            Operator::And | Operator::Or => parts >= 2,
            Operator::Implies | Operator::Iff | Operator::Equal | Operator::Read => parts == 2,
            Operator::Ite | Operator::Write => parts == 3,
        }
    }
}
