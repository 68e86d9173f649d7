//! Names.

ghost use Rattle.std.specs.Prelude.{◌≡◌, ◌↔◌, IsTrue, nat_eq};
ghost use Rattle.std.specs.List.{list_all, list_any};
ghost use lib.Pointwise.{pointwise};
ghost use Rattle.bd_model.specs.Name.{IsName, begins_name, continues_name, spells_name};
ghost use Rattle.bd_syntax.specs.Name.{is_name};

/// The longest name, in bytes.
const MAX_NAME: usize = 64;

/// The texts that expressions are written with, which are no names.
const RESERVED: [&[u8]; 11] = [
    b"true", b"false", b"not", b"and", b"or", b"implies", b"iff", b"ite", b"read", b"write", b"let",
];

/// Whether a name may begin with a byte.
fn begins(byte: u8) -> bool
    ensures { result ≡ begins_name byte }
{
    byte.is_ascii_alphabetic() || byte == b'_'
}

/// Whether a byte may follow in a name.
fn continues(byte: u8) -> bool
    ensures { result ≡ continues_name byte }
{
    begins(byte) || byte.is_ascii_digit() || byte == b'.' || byte == b'-'
}

/// Whether a text is one of some texts.
fn is_among(text: &[u8], texts: &[&[u8]]) -> bool
    ensures { result ≡ list_any (λ t. pointwise nat_eq text.now t.now) texts.now }
{
    texts.iter().any(|other| text == *other)
}

/// Whether each byte may follow in a name.
fn all_continue(text: &[u8]) -> bool
    ensures { result ≡ list_all continues_name text.now }
{
    text.iter().all(|byte| continues(*byte))
}

/// Whether a text begins and goes on as a name does.
fn spells(text: &[u8]) -> bool
    ensures { result ≡ spells_name text.now }
{
    match text.split_first() {
        Some((first, rest)) => begins(*first) && all_continue(rest),
        None => false,
    }
}

/// Whether the bytes are a name: a letter or `_`, then letters, digits, `_`, `.` and `-`, at most 64 bytes,
/// and none of the texts that expressions are written with.
pub fn is_name(text: &[u8]) -> bool
    ensures test { result ≡ is_name text.now }
    ensures name { IsTrue result ↔ IsName text.now }
{
    spells(text) && text.len() <= MAX_NAME && !is_among(text, &RESERVED)
}
