//! The files of a question, and a fault of one of them.

use bd_text::Code;
use bd_typer::Text;

/// A file: what it is to be, the name under which its lines are told, and its bytes.
#[derive(Clone, Copy)]
pub struct NamedFile<'a> {
    pub file: Text,
    pub name: &'a str,
    pub text: &'a [u8],
}

/// A fault: its file, the offset of its byte, and its code.
#[derive(Clone, Copy)]
pub struct FaultPlace {
    pub file: Text,
    pub offset: usize,
    pub code: Code,
}

/// Files of a kind in words.
pub fn kind_text(file: Text) -> &'static [u8] {
    match file {
        Text::Pipe => b"a pipeline",
        Text::Spec => b"a specification",
        Text::Comp => b"a completion function",
        Text::Inv => b"an invariant",
        Text::Start => b"a start",
        Text::Case => b"a case",
        Text::Trail => b"a trail",
        Text::Proof => b"a proof",
    }
}

/// The kind of a file that begins with this word.
pub fn kind_of(head: &[u8]) -> Option<Text> {
    match head {
        b"pipeline" => Some(Text::Pipe),
        b"specification" => Some(Text::Spec),
        b"completion" => Some(Text::Comp),
        b"invariant" => Some(Text::Inv),
        b"start" => Some(Text::Start),
        b"case" => Some(Text::Case),
        b"trail" => Some(Text::Trail),
        _ => None,
    }
}

/// What a file of a kind looks like.
pub fn kind_form(file: Text) -> &'static [u8] {
    match file {
        Text::Pipe => b"(pipeline ITEM ..)",
        Text::Spec => b"(specification ITEM ..)",
        Text::Comp => b"(completion LET .. (abstract NAME EXPRESSION) ..)",
        Text::Inv => b"(invariant LET .. EXPRESSION)",
        Text::Start => b"(start LET .. EXPRESSION)",
        Text::Case => b"(case 1 ENTRY ..)",
        Text::Trail => b"(trail CYCLES ENTRY ..)",
        Text::Proof => b"lines of clauses",
    }
}
