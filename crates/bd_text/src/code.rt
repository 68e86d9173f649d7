//! The codes of refusals.

ghost use Rattle.std.specs.Prelude.{◌≡◌, ◌++◌, ◌∷◌, Some};
ghost use Rattle.bd_text.specs.CodeText.{code_name, code_text};

use std::fmt;

/// Why a text is refused. Each code has a name and a text, as they are printed.
#[derive(Clone, Copy, Debug, PartialEq, Eq)]
pub enum Code {
    /// The file has more bytes than allowed.
    TooLong,
    /// A byte that may not stand in a file, in a comment neither.
    ByteNotAllowed,
    /// A `)` with no list open, or a list that is open at the end.
    Unbalanced,
    /// One list too many is open.
    TooDeep,
    /// There is no tree, or its head isn't that of this kind of file, or a second tree follows.
    WrongHead,
    /// A form with the wrong parts.
    Malformed,
    /// An atom that isn't a name where a name must stand.
    NotName,
    /// A name that was declared before.
    DeclaredTwice,
    /// A name that isn't declared.
    UnknownName,
    /// A value or expression of another sort than is wanted.
    WrongSort,
    /// Too many or too few arguments.
    WrongArity,
    /// An atom that isn't a number in the range.
    NotNumber,
    /// What must stand once is missing or stands twice.
    MissingOrTwice,
    /// `flush` or `steps` is missing or stands twice.
    FlushOrSteps,
    /// An item that doesn't belong to this kind of file.
    NotOfThisFile,
    /// What the specification declares isn't in the pipeline.
    NotInPipeline,
    /// A function that the two files declare differently.
    FunctionDiffers,
    /// An input where none may be used.
    InputNotAllowed,
    /// A name that isn't that of a function of no arguments.
    NotConstant,
    /// Constants that are to be distinct have equal values.
    NotDistinct,
    /// A byte that may not stand in a line of a proof.
    ProofByte,
    /// A number in a line of a proof that is none, or out of range.
    ProofNumber,
    /// A line of a proof with the wrong parts.
    ProofLine,
    /// A line of a proof that isn't accepted; the cause follows the text.
    ProofNotAccepted,
    /// A proof that ends without the empty clause.
    NoEmptyClause,
}

impl Code {
    /// The code as it is printed.
    pub fn name(self) -> &'static str
        ensures { result.now ≡ code_name self }
    {
        match self {
            Code::TooLong => "E00",
            Code::ByteNotAllowed => "E01",
            Code::Unbalanced => "E02",
            Code::TooDeep => "E03",
            Code::WrongHead => "E04",
            Code::Malformed => "E05",
            Code::NotName => "E06",
            Code::DeclaredTwice => "E07",
            Code::UnknownName => "E08",
            Code::WrongSort => "E09",
            Code::WrongArity => "E10",
            Code::NotNumber => "E11",
            Code::MissingOrTwice => "E12",
            Code::FlushOrSteps => "E13",
            Code::NotOfThisFile => "E14",
            Code::NotInPipeline => "E15",
            Code::FunctionDiffers => "E16",
            Code::InputNotAllowed => "E17",
            Code::NotConstant => "E18",
            Code::NotDistinct => "E19",
            Code::ProofByte => "E20",
            Code::ProofNumber => "E21",
            Code::ProofLine => "E22",
            Code::ProofNotAccepted => "E23",
            Code::NoEmptyClause => "E24",
        }
    }

    /// The text that is printed after the code.
    pub fn text(self) -> &'static str
        ensures { result.now ≡ code_text self }
    {
        match self {
            Code::TooLong => "file too long",
            Code::ByteNotAllowed => "byte not allowed",
            Code::Unbalanced => "unbalanced parenthesis",
            Code::TooDeep => "nested too deep",
            Code::WrongHead => "wrong or missing head",
            Code::Malformed => "malformed form",
            Code::NotName => "not a name",
            Code::DeclaredTwice => "declared twice",
            Code::UnknownName => "unknown name",
            Code::WrongSort => "wrong sort",
            Code::WrongArity => "wrong number of arguments",
            Code::NotNumber => "not a number in range",
            Code::MissingOrTwice => "missing or given twice",
            Code::FlushOrSteps => "flush or steps missing or given twice",
            Code::NotOfThisFile => "item not of this file",
            Code::NotInPipeline => "not in the pipeline",
            Code::FunctionDiffers => "function differs between the files",
            Code::InputNotAllowed => "input not allowed here",
            Code::NotConstant => "not a constant",
            Code::NotDistinct => "constants not distinct",
            Code::ProofByte => "byte not allowed",
            Code::ProofNumber => "not a number in range",
            Code::ProofLine => "malformed line",
            Code::ProofNotAccepted => "not accepted",
            Code::NoEmptyClause => "no empty clause",
        }
    }
}

/// The code and its text, with a space between them.
impl fmt::Display for Code {
    ghost output = { λ code. Some (code_name code ++ 32 ∷ code_text code) };

    /// Writes the code and the text after it, as a message has them.
    fn fmt<W: fmt::Write>(&self, f: &mut fmt::Formatter<W>) -> fmt::Result {
        let name = self.name();
        let text = self.text();
        write!(f, "{name} {text}")
    }
}
