//! Texts in rows: escapes, numbers, and how bytes are shown.

use std::alloc::{AllocError, Global};

/// How far an escape is read.
#[derive(Clone, Copy)]
enum Escape {
    None,
    Begun,
    Hex,
    Digit(u8),
}

/// The value of a hexadecimal digit, 0 for anything else.
fn hex_value(byte: u8) -> u8 {
    match byte {
        b'0'..=b'9' => byte - b'0',
        b'a'..=b'f' => byte - b'a' + 10,
        _ => 0,
    }
}

/// The byte that stands for one after a backslash.
fn escaped(byte: u8) -> u8 {
    match byte {
        b'n' => b'\n',
        b'r' => b'\r',
        b't' => b'\t',
        other => other,
    }
}

/// Adds the bytes that a text stands for: `\n`, `\r`, `\t`, `\xHH`, and after a backslash any other byte itself.
pub fn push_unescaped(bytes: &mut Vec<u8>, text: &str) -> Result<(), AllocError> {
    let mut escape = Escape::None;
    for byte in text.bytes() {
        escape = match escape {
            Escape::None if byte == b'\\' => Escape::Begun,
            Escape::Begun if byte == b'x' => Escape::Hex,
            Escape::Hex => Escape::Digit(hex_value(byte)),
            Escape::Digit(first) => {
                bytes.push(first.wrapping_mul(16) | hex_value(byte))?;
                Escape::None
            }
            Escape::Begun => {
                bytes.push(escaped(byte))?;
                Escape::None
            }
            Escape::None => {
                bytes.push(byte)?;
                Escape::None
            }
        };
    }
    Ok(())
}

/// Adds a number in decimal.
fn push_number(alloc: Global, bytes: &mut Vec<u8>, number: u64) -> Result<(), AllocError> {
    let text = format!(in alloc; "{number}")?;
    bytes.extend_from_slice(text.as_bytes())
}

/// Adds a text in which `{m}` stands for this number.
fn push_before(
    alloc: Global,
    bytes: &mut Vec<u8>,
    text: &str,
    number: u64,
) -> Result<(), AllocError> {
    for (index, part) in text.split("{m}").enumerate() {
        if index > 0 {
            push_number(alloc, bytes, number)?;
        }
        push_unescaped(bytes, part)?;
    }
    Ok(())
}

/// Adds a text in which `{n}` stands for the number, and `{m}` for the one before it.
pub fn push_numbered(
    alloc: Global,
    bytes: &mut Vec<u8>,
    text: &str,
    number: u64,
) -> Result<(), AllocError> {
    for (index, part) in text.split("{n}").enumerate() {
        if index > 0 {
            push_number(alloc, bytes, number)?;
        }
        push_before(alloc, bytes, part, number.saturating_sub(1))?;
    }
    Ok(())
}

/// Adds the bytes as a text on one line, so that what differs can be seen.
pub fn push_shown(text: &mut String, bytes: &[u8]) -> Result<(), AllocError> {
    for byte in bytes {
        let byte = *byte;
        match byte {
            b'\n' => text.push_str("\\n")?,
            b'\r' => text.push_str("\\r")?,
            b'\t' => text.push_str("\\t")?,
            b'\\' => text.push_str("\\\\")?,
            b' '..=b'~' => text.push(char::from(byte))?,
            _ => write!(text, "\\x{byte:02x}")?,
        }
    }
    Ok(())
}
