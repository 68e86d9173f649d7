//! What refuses a file's trees.

ghost use Rattle.std.specs.Prelude.{◌≡◌};

use bd_text::{Code, TextFault};

/// Why a file isn't read.
pub type FormFault = TextFault;

/// The fault of a code at an offset.
pub fn bad(offset: usize, code: Code) -> FormFault
    ensures { result ≡ TextFault.Bad offset code }
{
    FormFault::Bad { offset, code }
}
