//! What a case or a trail has an entry for.

ghost use Rattle.std.specs.Prelude.{◌≡◌};
ghost use Rattle.bd_model.specs.DesignView.{port_view};
ghost use Rattle.bd_case.specs.Kinds.{head_of, head_takes, head_text, heads_of, is_input, may_lack, entry_kind, input_kind, sort_kind, subject_text, symbol_head, symbol_kind};
ghost use Rattle.bd_case.specs.Reading.{is_head};

use bd_model::{Sort, Symbol};

/// What a text is of.
#[derive(Clone, Copy, PartialEq, Eq)]
pub enum Subject {
    Case,
    Trail,
}

/// The version of a case text: the second has an entry for constants that are kept apart.
#[derive(Clone, Copy, PartialEq, Eq)]
pub enum Version {
    One,
    Two,
}

/// How a text gives its entries: in which version, and over how many cycles an input has values.
#[derive(Clone, Copy, PartialEq, Eq)]
pub struct Layout {
    pub version: Version,
    pub cycles: u32,
}

/// What an entry begins with.
#[derive(Clone, Copy, PartialEq, Eq)]
pub enum EntryHead {
    Function,
    Predicate,
    Constant,
    Memory,
    Latch,
    Input,
}

/// What an entry gives: a table of a sort and an arity, and whether it's a constant that is kept apart.
#[derive(Clone, Copy, PartialEq, Eq)]
pub struct EntryKind {
    pub head: EntryHead,
    pub sort: Sort,
    pub arity: u32,
    pub apart: bool,
}

const FIRST_HEADS: [EntryHead; 5] = [
    EntryHead::Function,
    EntryHead::Predicate,
    EntryHead::Memory,
    EntryHead::Latch,
    EntryHead::Input,
];

const SECOND_HEADS: [EntryHead; 6] = [
    EntryHead::Constant,
    EntryHead::Function,
    EntryHead::Predicate,
    EntryHead::Memory,
    EntryHead::Latch,
    EntryHead::Input,
];

impl Subject {
    /// The word that a case's or a trail's text begins with.
    pub fn text(self) -> &'static [u8]
        ensures { result.now ≡ subject_text self }
    {
        match self {
            Subject::Case => b"case",
            Subject::Trail => b"trail",
        }
    }
}

impl EntryHead {
    /// The word that entries with this head begin with.
    pub fn text(self) -> &'static [u8]
        ensures { result.now ≡ head_text self }
    {
        match self {
            EntryHead::Function => b"function",
            EntryHead::Predicate => b"predicate",
            EntryHead::Constant => b"constant",
            EntryHead::Memory => b"memory",
            EntryHead::Latch => b"latch",
            EntryHead::Input => b"input",
        }
    }

    /// The head of that version that a text is.
    #[tactic(auto, unfolding(crate::specs::Kinds::head_of))]
    pub fn from_text(version: Version, text: &[u8]) -> Option<EntryHead>
        ensures { result ≡ head_of version text.now }
    {
        match version {
            Version::One => FIRST_HEADS.iter().copied().find(|head| text == head.text()),
            Version::Two => SECOND_HEADS
                .iter()
                .copied()
                .find(|head| text == head.text()),
        }
    }

    /// Whether two heads are the same.
    pub fn is(self, other: EntryHead) -> bool
        ensures { result ≡ is_head self other }
    {
        self.text() == other.text()
    }

    /// Whether an entry may have so many parts after this head; an input's has one for its name and one for each cycle.
    pub fn takes(self, cycles: u32, parts: usize) -> bool
        ensures { result ≡ head_takes cycles self parts }
    {
        match self {
            EntryHead::Function | EntryHead::Predicate | EntryHead::Memory => parts >= 2,
            EntryHead::Constant | EntryHead::Latch => parts == 2,
            EntryHead::Input => parts == cycles as usize + 1,
        }
    }

    /// Whether entries with this head give an input's values.
    pub fn is_input(self) -> bool
        ensures { result ≡ is_input self }
    {
        matches!(self, EntryHead::Input)
    }

    /// Whether a text may lack an entry with this head for what the design declares.
    pub fn may_lack(self) -> bool
        ensures { result ≡ may_lack self }
    {
        matches!(self, EntryHead::Function | EntryHead::Predicate)
    }
}

/// The head of a function or predicate.
fn symbol_head(version: Version, apart: bool, predicate: bool) -> EntryHead
    ensures { result ≡ symbol_head version apart predicate }
{
    if apart && version == Version::Two {
        EntryHead::Constant
    } else if predicate {
        EntryHead::Predicate
    } else {
        EntryHead::Function
    }
}

impl EntryKind {
    /// What the entry of a function or predicate gives.
    pub fn of_symbol(version: Version, apart: bool, symbol: &Symbol) -> EntryKind
        ensures { result ≡ symbol_kind version apart symbol.now }
    {
        EntryKind {
            head: symbol_head(version, apart, symbol.predicate),
            sort: symbol.result_sort(),
            arity: symbol.arity,
            apart,
        }
    }

    /// What the entry of a latch or memory gives.
    pub fn of_entry(sort: Sort) -> EntryKind
        ensures { result ≡ sort_kind sort }
    {
        match sort {
            Sort::Memory => EntryKind {
                head: EntryHead::Memory,
                sort: Sort::Word,
                arity: 1,
                apart: false,
            },
            Sort::Bool | Sort::Word => EntryKind {
                head: EntryHead::Latch,
                sort,
                arity: 0,
                apart: false,
            },
        }
    }

    /// What the entry of an input gives.
    pub fn of_input(sort: Sort) -> EntryKind
        ensures { result ≡ input_kind sort }
    {
        EntryKind {
            head: EntryHead::Input,
            sort,
            arity: 0,
            apart: false,
        }
    }
}
