//! The heads of items.

ghost use Rattle.std.specs.Prelude.{◌≡◌};
ghost use Rattle.bd_syntax.specs.Words.{head_of, head_takes, head_text, is_item_of};

/// What an item begins with.
#[derive(Clone, Copy, PartialEq, Eq)]
pub enum Head {
    Latch,
    Memory,
    Input,
    Function,
    Predicate,
    Let,
    Next,
    Flush,
    Steps,
    Exact,
    Distinct,
}

/// Where an item stands.
#[derive(Clone, Copy, PartialEq, Eq)]
pub enum Place {
    /// In a pipeline.
    Pipeline,
    /// In a specification.
    Specification,
    /// Before the expression of an invariant.
    Invariant,
}

const HEADS: [Head; 11] = [
    Head::Latch,
    Head::Memory,
    Head::Input,
    Head::Function,
    Head::Predicate,
    Head::Let,
    Head::Next,
    Head::Flush,
    Head::Steps,
    Head::Exact,
    Head::Distinct,
];

impl Head {
    /// The word that items with this head begin with.
    fn text(self) -> &'static [u8]
        ensures { result.now ≡ head_text self }
    {
        match self {
            Head::Latch => b"latch",
            Head::Memory => b"memory",
            Head::Input => b"input",
            Head::Function => b"function",
            Head::Predicate => b"predicate",
            Head::Let => b"let",
            Head::Next => b"next",
            Head::Flush => b"flush",
            Head::Steps => b"steps",
            Head::Exact => b"exact",
            Head::Distinct => b"distinct",
        }
    }

    /// The head that a text is.
    #[tactic(auto, unfolding(crate::specs::Words::head_of))]
    pub fn from_text(text: &[u8]) -> Option<Head>
        ensures { result ≡ head_of text.now }
    {
        HEADS.iter().copied().find(|head| text == head.text())
    }

    /// Whether an item may have so many parts after this head.
    pub fn takes(self, parts: usize) -> bool
        ensures { result ≡ head_takes self parts }
    {
        match self {
            Head::Memory | Head::Flush | Head::Steps => parts == 1,
            Head::Latch | Head::Function | Head::Predicate | Head::Next | Head::Exact => parts == 2,
            Head::Input | Head::Let => parts == 3,
            Head::Distinct => parts >= 2,
        }
    }

    /// Whether such items may stand there.
    pub fn is_item_of(self, place: Place) -> bool
        ensures { result ≡ is_item_of place self }
    {
        match place {
            Place::Pipeline => true,
            Place::Specification => {
                !matches!(self, Head::Input | Head::Flush | Head::Steps | Head::Exact)
            }
            Place::Invariant => self == Head::Let,
        }
    }
}
