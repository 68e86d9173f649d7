//! Reports: a line, and a text after it.
ghost use Rattle.std.specs.Prelude.{◌≡◌, ◌++◌, [], ◌∷◌, IfOk, string_bytes};

use std::alloc::AllocError;

/// The line of these words, and a text after it.
pub fn lined(mut words: String, rest: &[u8]) -> Result<Vec<u8>, AllocError>
    ensures { IfOk result (λ report.
        report.items ≡ (string_bytes words ++ 10 ∷ []) ++ rest.now) }
{
    words.push_str("\n")?;
    let mut report = words.into_bytes();
    report.extend_from_slice(rest)?;
    Ok(report)
}
