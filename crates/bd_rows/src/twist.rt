//! One thing that is changed of a row where it runs once more.

use std::alloc::{AllocError, Global};

/// How the text of a file is changed.
#[derive(Clone, Copy)]
pub enum Change {
    /// It ends after so many bytes.
    Cut(usize),
    /// The byte at that place is 128.
    Spoilt(usize),
    /// Spaces after it make it a byte too long.
    Long,
}

/// The most bytes of a file that is read, a proof apart.
pub const MOST: usize = 1_048_576;

impl Change {
    /// Makes the change.
    fn make(self, bytes: &mut Vec<u8>) -> Result<(), AllocError> {
        match self {
            Change::Cut(length) => bytes.truncate(length),
            Change::Spoilt(place) => {
                if let Some(byte) = bytes.get_mut(place) {
                    *byte = 128;
                }
            }
            Change::Long => bytes.resize(MOST + 1, b' ')?,
        }
        Ok(())
    }
}

/// A file whose text is changed.
#[derive(Clone, Copy)]
pub struct Broken<'a> {
    pub name: &'a str,
    pub change: Change,
}

/// How a run has to end for what was changed.
#[derive(Clone, Copy)]
pub struct Refusal<'a> {
    pub status: u8,
    pub err: &'a [u8],
}

/// What is changed of a row, and how its first run has to end for that, if otherwise.
#[derive(Clone, Copy)]
pub struct Twist<'a> {
    /// Words after those of the first run.
    pub more: &'a str,
    /// The number of the call on the files that fails, or 0.
    pub failing: u64,
    /// How many bytes the output keeps, if it fails.
    pub kept: Option<usize>,
    /// Whether the error output takes nothing.
    pub is_silent: bool,
    pub broken: Option<Broken<'a>>,
    pub refusal: Option<Refusal<'a>>,
}

impl<'a> Twist<'a> {
    /// Nothing is changed.
    pub fn none() -> Twist<'a> {
        Twist {
            more: "",
            failing: 0,
            kept: None,
            is_silent: false,
            broken: None,
            refusal: None,
        }
    }

    /// The row once more, with these words after those of its first run.
    pub fn again(more: &'a str) -> Twist<'a> {
        Twist {
            more,
            ..Twist::none()
        }
    }

    /// The call of that number on the files fails, and this line says so.
    pub fn call_fails(failing: u64, err: &'a [u8]) -> Twist<'a> {
        let refusal = Refusal { status: 5, err };
        Twist {
            failing,
            refusal: Some(refusal),
            ..Twist::none()
        }
    }

    /// The output fails after so many bytes, and this line says so.
    pub fn put_fails(kept: usize, err: &'a [u8]) -> Twist<'a> {
        let refusal = Refusal { status: 5, err };
        Twist {
            kept: Some(kept),
            refusal: Some(refusal),
            ..Twist::none()
        }
    }

    /// The file is changed, and refused by this line.
    pub fn changed(name: &'a str, change: Change, err: &'a [u8]) -> Twist<'a> {
        let broken = Broken { name, change };
        let refusal = Refusal { status: 3, err };
        Twist {
            broken: Some(broken),
            refusal: Some(refusal),
            ..Twist::none()
        }
    }

    /// The twist on an error output that takes nothing.
    pub fn silent(self) -> Twist<'a> {
        Twist {
            is_silent: true,
            ..self
        }
    }

    /// A text of that file, with the change if it is the file that is changed.
    pub fn text_of(self, alloc: Global, name: &str, text: &[u8]) -> Result<Vec<u8>, AllocError> {
        let mut bytes = text.to_vec(alloc)?;
        if let Some(broken) = self.broken {
            if broken.name == name {
                broken.change.make(&mut bytes)?;
            }
        }
        Ok(bytes)
    }

    /// Adds what is changed, in words.
    pub fn push_to(self, text: &mut String) -> Result<(), AllocError> {
        if !self.more.is_empty() {
            let more = self.more;
            write!(text, ", again {more}")?;
        }
        if self.failing != 0 {
            let failing = self.failing;
            write!(text, ", where call {failing} fails")?;
        }
        if let Some(kept) = self.kept {
            write!(text, ", where the output keeps {kept} bytes")?;
        }
        if self.is_silent {
            text.push_str(", where the error output takes nothing")?;
        }
        match self.broken {
            Some(broken) => push_broken(text, broken),
            None => Ok(()),
        }
    }
}

/// Adds which text is changed, and how.
fn push_broken(text: &mut String, broken: Broken<'_>) -> Result<(), AllocError> {
    let name = broken.name;
    match broken.change {
        Change::Cut(length) => write!(text, ", where {name} has {length} bytes"),
        Change::Spoilt(place) => write!(text, ", where {name} is spoilt at {place}"),
        Change::Long => write!(text, ", where {name} is too long"),
    }
}
